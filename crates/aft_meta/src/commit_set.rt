//! What is asked of known commits.

use aft_id::{List, Memory, TxnId};
use aft_records::{Commit, Key, Keys};
use std::alloc::Global;

/// What came of learning a commit.
#[derive(Clone, Copy, Debug, PartialEq, Eq)]
pub enum Learnt {
    /// A commit of its id was known. Nothing changed.
    Known,
    /// The known commits supersede it. Nothing changed.
    Superseded,
    /// It is known from now on.
    Taken,
}

/// Known commits, which contracts see in the order of their ids, each id once.
pub trait CommitSet {
    ghost use Rattle.std.specs.Prelude.{◌≡◌, [], ◌∷◌, List, IsTrue, IfOk, OnOk, OnErr, filter, option_copied};
    ghost use Rattle.aft_records.specs.Commits.{ids_ascend, ids_of, latest, versions, with_commit, without_ids};
    ghost use Rattle.aft_records.specs.Superseded.{is_superseded};
    ghost use Rattle.aft_records.specs.declared.stored.Commit.{Commit};
    ghost use Rattle.aft_meta.specs.KnownCommits.{keys_at, latest_below, learnt, supersedes_id};

    /// The known commits.
    ghost known: { Self → List Commit };

    /// Knows nothing. Takes no memory.
    fn new(alloc: Global) -> Self
        ensures { known result ≡ [] };

    /// Learns a commit, unless its id is known or the known commits supersede it. `Memory` leaves what was known.
    fn learn(&mut self, commit: &Commit) -> Result<Learnt, Memory>
        ensures answer { IfOk result (λ answer. answer ≡ learnt commit.now (known self.old)) }
        ensures ok { OnOk result (known self.new ≡ with_commit (known self.old) commit.now) }
        ensures err { OnErr result (known self.new ≡ known self.old) };

    /// The ids of the known commits that wrote a key, ascending.
    fn versions(&self, key: &Key) -> Result<List<TxnId>, Memory>
        ensures ids { IfOk result (λ ids. ids ≡ versions key.now (known self.now)) }
        ensures in_order { IsTrue (ids_ascend (known self.now)) };

    /// The greatest id of a known commit that wrote a key. Takes no memory.
    fn latest(&self, key: &Key) -> Option<TxnId>
        ensures { result ≡ latest key.now (known self.now) };

    /// The greatest id below another one of a known commit that wrote a key. Takes no memory.
    fn latest_below(&self, key: &Key, id: TxnId) -> Option<TxnId>
        ensures { result ≡ latest_below key.now id (known self.now) };

    /// The keys that the commit of an id wrote, or `None` where the id isn't known. Takes no memory.
    fn keys_of(&self, id: TxnId) -> Option<&Keys>
        ensures keys { option_copied result ≡ keys_at id (known self.now) }
        ensures in_order { IsTrue (ids_ascend (known self.now)) };

    /// Whether each key of a commit was written by a known commit with a greater id. Takes no memory.
    fn covered(&self, commit: &Commit) -> bool
        ensures { result ≡ is_superseded commit.now (known self.now) };

    /// Whether an id is known and its commit covered. Takes no memory.
    fn superseded(&self, id: TxnId) -> bool
        ensures { result ≡ supersedes_id id (known self.now) };

    /// All known ids, ascending.
    fn ids(&self) -> Result<List<TxnId>, Memory>
        ensures ids { IfOk result (λ ids. ids ≡ ids_of (known self.now)) }
        ensures in_order { IsTrue (ids_ascend (known self.now)) };

    /// The known ids whose commits are covered, ascending. Looks at no other commit.
    fn superseded_ids(&self) -> Result<List<TxnId>, Memory>
        ensures ids { IfOk result (λ ids. ids ≡ filter (λ id. supersedes_id id (known self.now)) (ids_of (known self.now))) }
        ensures in_order { IsTrue (ids_ascend (known self.now)) };

    /// Drops the commit of an id that is superseded. Takes no memory.
    fn remove(&mut self, id: TxnId)
        requires { IsTrue (supersedes_id id (known self.old)) }
        ensures { known self.new ≡ without_ids (id ∷ []) (known self.old) };
}
