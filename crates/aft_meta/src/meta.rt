//! Known commits as an index.

ghost use Rattle.std.specs.Prelude.{◌≡◌, [], ◌∷◌, Some, false, count_by, IfOk, IsTrue, OnOk, OnErr};
ghost use Rattle.std.specs.List.{list_all};
ghost use Rattle.std.specs.Map.{keys_of};
ghost use Rattle.aft_id.specs.declared.txn_id.TxnId.{TxnId};
ghost use Rattle.aft_records.specs.Commits.{greatest, has_id, with_id_order, without_ids};
ghost use Rattle.aft_meta.specs.Index.{IsIndex, commits_of, exceeds, ids_under, is_some_id, known_at, lowered, lowered_by};
ghost use Rattle.aft_meta.specs.KnownCommits.{supersedes_id};

use crate::commit_set::{CommitSet, Learnt};
use crate::ids::Ids;
use crate::known::{Commits, KnownCommit};
use crate::noted::{forget_newest, note_superseded};
use crate::writers::{
    Writers, add_under, is_exceeded, newest, newest_below, overtaken, take_under,
};
use aft_id::{List, Memory, TxnId};
use aft_records::{Commit, Key, Keys};
use std::alloc::{AllocError, Global};
use std::collections::BTreeMap;
use std::marker::Model;

/// Known commits as an index: by id, and by the keys that they wrote. Each has a count of the keys of which it is the
/// newest known writer, so that it is superseded where that is 0.
#[derive(Drop)]
pub struct Meta {
    alloc: Global,
    commits: Commits,
    writers: Writers,
    /// The ids of those that the others supersede.
    superseded: Ids,
}

impl Model for Meta {
    ghost use Rattle.std.specs.Prelude as prelude;
    ghost use Rattle.aft_meta.specs.Index.{IsMeta, commits_of};
    ghost use Rattle.aft_records.specs.declared.stored.Commit.{Commit};

    ghost Value = { prelude.List Commit };

    ghost view = { λ set. commits_of set.commits.entries };

    ghost invariant = { λ set. IsMeta set.commits.entries set.writers.entries set.superseded };
}

impl CommitSet for Meta {
    ghost known = { λ set. set };

    fn new(alloc: Global) -> Meta {
        Meta {
            alloc,
            commits: BTreeMap::new(alloc),
            writers: BTreeMap::new(alloc),
            superseded: Ids::new(alloc),
        }
    }

    fn learn(&mut self, commit: &Commit) -> Result<Learnt, Memory> {
        if self.commits.contains_key(&commit.id) {
            return Ok(Learnt::Known);
        }
        if is_covered(&self.writers, commit) {
            return Ok(Learnt::Superseded);
        }
        note_superseded(&mut self.superseded, &self.commits, &self.writers, commit)?;
        match take_in(&mut self.commits, &mut self.writers, self.alloc, commit) {
            Ok(()) => Ok(Learnt::Taken),
            Err(Memory) => {
                forget_newest(&mut self.superseded, &self.writers, commit.keys.list());
                Err(Memory)
            }
        }
    }

    fn versions(&self, key: &Key) -> Result<List<TxnId>, Memory> {
        match self.writers.get(key) {
            Some(ids) => Ok(List::from_vec(ids.list(self.alloc)?)),
            None => Ok(List::from_vec(Vec::new(self.alloc))),
        }
    }

    fn latest(&self, key: &Key) -> Option<TxnId> {
        newest(&self.writers, key)
    }

    fn latest_below(&self, key: &Key, id: TxnId) -> Option<TxnId> {
        newest_below(&self.writers, key, &id)
    }

    fn keys_of(&self, id: TxnId) -> Option<&Keys> {
        match self.commits.get(&id) {
            Some(known) => Some(&known.keys),
            None => None,
        }
    }

    fn covered(&self, commit: &Commit) -> bool {
        is_covered(&self.writers, commit)
    }

    fn superseded(&self, id: TxnId) -> bool {
        match self.commits.get(&id) {
            Some(known) => known.newest == 0,
            None => false,
        }
    }

    fn ids(&self) -> Result<List<TxnId>, Memory> {
        Ok(List::from_vec(ids_of(self.alloc, &self.commits)?))
    }

    fn superseded_ids(&self) -> Result<List<TxnId>, Memory> {
        Ok(List::from_vec(self.superseded.list(self.alloc)?))
    }

    fn remove(&mut self, id: TxnId) {
        take_out(&mut self.commits, &mut self.writers, &id);
        self.superseded.take(&id);
    }
}

/// The ids of known commits.
fn ids_of(alloc: Global, commits: &Commits) -> Result<Vec<TxnId>, AllocError>
    ensures { IfOk result (λ ids. ids.items ≡ keys_of commits.now.entries) }
{
    commits.keys().copied().collect(alloc)
}

/// Whether each key of a commit has a known writer above it.
fn is_covered(writers: &Writers, commit: &Commit) -> bool
    ensures { result ≡ list_all (λ key. exceeds commit.now.id (greatest (ids_under key writers.now.entries))) commit.now.keys }
{
    commit
        .keys
        .list()
        .iter()
        .all(|key| is_exceeded(writers, key, &commit.id))
}

/// Whether an id is the greatest under a key.
fn is_newest(writers: &Writers, key: &Key, id: &TxnId) -> bool
    ensures { result ≡ is_some_id id.now (greatest (ids_under key.now writers.now.entries)) }
{
    match newest(writers, key) {
        Some(greatest) => *id == greatest,
        None => false,
    }
}

/// Of how many of some keys an id is the newest writer.
fn count_newest(writers: &Writers, keys: &[Key], id: &TxnId) -> usize
    ensures { result ≡ count_by (λ key. is_some_id id.now (greatest (ids_under key writers.now.entries))) keys.now }
{
    keys.iter()
        .filter(|key| is_newest(writers, key, id))
        .count()
}

/// Takes a commit in whose id isn't known. Where memory runs out nothing changes.
fn take_in(
    commits: &mut Commits,
    writers: &mut Writers,
    alloc: Global,
    commit: &Commit,
) -> Result<(), Memory>
    requires index { IsIndex commits.old.entries writers.old.entries }
    requires new { has_id commit.now.id (commits_of commits.old.entries) ≡ false }
    ensures ok { OnOk result (commits_of commits.new.entries ≡ with_id_order (commits_of commits.old.entries) commit.now) }
    ensures err { OnErr result (commits_of commits.new.entries ≡ commits_of commits.old.entries) }
    ensures index { IsIndex commits.new.entries writers.new.entries }
{
    let own = commit.keys.list();
    let keys = commit.keys.clone()?;
    add_under(writers, alloc, own, &commit.id)?;
    let newest = count_newest(writers, own, &commit.id);
    match commits.insert(commit.id, KnownCommit { keys, newest }) {
        Ok(_) => {
            lower_overtaken(commits, writers, own, &commit.id);
            Ok(())
        }
        Err(_) => {
            take_under(writers, own, &commit.id);
            Err(Memory)
        }
    }
}

/// Lowers the counts of those that a new commit came after as the newest writers of its keys.
fn lower_overtaken(commits: &mut Commits, writers: &Writers, keys: &[Key], new: &TxnId)
    ensures same { commits_of commits.new.entries ≡ commits_of commits.old.entries }
    ensures lowered { (q : TxnId) → known_at q commits.new.entries ≡ lowered keys.now new.now writers.now.entries q (known_at q commits.old.entries) }
{
    for key in keys {
        if let Some(other) = overtaken(writers, key, new) {
            lower(commits, &other);
        }
    }
}

/// Lowers the count of a commit by one.
fn lower(commits: &mut Commits, id: &TxnId)
    ensures same { commits_of commits.new.entries ≡ commits_of commits.old.entries }
    ensures lowered { (q : TxnId) → known_at q commits.new.entries ≡ lowered_by (Some id.now) q (known_at q commits.old.entries) }
{
    if let Some(known) = commits.get_mut(id) {
        known.newest = known.newest.saturating_sub(1);
    }
}

/// Takes a superseded commit out.
fn take_out(commits: &mut Commits, writers: &mut Writers, id: &TxnId)
    requires index { IsIndex commits.old.entries writers.old.entries }
    requires superseded { IsTrue (supersedes_id id.now (commits_of commits.old.entries)) }
    ensures without { commits_of commits.new.entries ≡ without_ids (id.now ∷ []) (commits_of commits.old.entries) }
    ensures index { IsIndex commits.new.entries writers.new.entries }
{
    if let Some(known) = commits.remove(id) {
        take_under(writers, known.keys.list(), id);
    }
}
