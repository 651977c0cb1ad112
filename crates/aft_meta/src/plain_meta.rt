//! Known commits as a list.

ghost use Rattle.std.specs.Prelude.{◌≡◌, ◌&&◌, [], ◌∷◌, IfOk, OnOk, OnErr, filter, option_copied};
ghost use Rattle.std.specs.List.{list_any, position, position_or_len};
ghost use Rattle.aft_id.specs.TxnId.{id_lt};
ghost use Rattle.aft_records.specs.Commits.{has_id, greatest, ids_of, later, versions, with_id_order, without_ids};
ghost use Rattle.aft_records.specs.Superseded.{is_superseded, wrote};
ghost use Rattle.aft_meta.specs.KnownCommits.{keys_at, latest_below, supersedes_id};

use crate::commit_set::{CommitSet, Learnt};
use crate::known::wrote;
use aft_id::{List, Memory, TxnId};
use aft_records::{Commit, Key, Keys};
use std::alloc::{AllocError, Global};
use std::marker::Model;

/// Known commits as a list in the order of their ids: the plain program, which `Meta` does faster.
#[derive(Debug, Drop)]
pub struct PlainMeta {
    alloc: Global,
    commits: Vec<Commit>,
}

impl Model for PlainMeta {
    ghost use Rattle.std.specs.Prelude as prelude;
    ghost use Rattle.aft_records.specs.Commits.{ids_ascend};
    ghost use Rattle.aft_records.specs.declared.stored.Commit.{Commit};

    ghost Value = { prelude.List Commit };

    ghost view = { λ set. set.commits.items };

    ghost invariant = { λ set. prelude.IsTrue (ids_ascend set.commits.items) };
}

impl CommitSet for PlainMeta {
    ghost known = { λ set. set };

    fn new(alloc: Global) -> PlainMeta {
        PlainMeta {
            alloc,
            commits: Vec::new(alloc),
        }
    }

    fn learn(&mut self, commit: &Commit) -> Result<Learnt, Memory> {
        let known = self.commits.as_slice();
        if has_id(known, &commit.id) {
            return Ok(Learnt::Known);
        }
        if is_covered(known, commit) {
            return Ok(Learnt::Superseded);
        }
        put_in(&mut self.commits, commit.clone()?)?;
        Ok(Learnt::Taken)
    }

    fn versions(&self, key: &Key) -> Result<List<TxnId>, Memory> {
        let ids = versions(self.alloc, self.commits.as_slice(), key)?;
        Ok(List::from_vec(ids))
    }

    fn latest(&self, key: &Key) -> Option<TxnId> {
        newest(self.commits.as_slice(), key)
    }

    fn latest_below(&self, key: &Key, id: TxnId) -> Option<TxnId> {
        newest_below(self.commits.as_slice(), key, &id)
    }

    fn keys_of(&self, id: TxnId) -> Option<&Keys> {
        keys_at(self.commits.as_slice(), &id)
    }

    fn covered(&self, commit: &Commit) -> bool {
        is_covered(self.commits.as_slice(), commit)
    }

    fn superseded(&self, id: TxnId) -> bool {
        is_superseded(self.commits.as_slice(), &id)
    }

    fn ids(&self) -> Result<List<TxnId>, Memory> {
        let ids = ids_of(self.alloc, self.commits.as_slice())?;
        Ok(List::from_vec(ids))
    }

    fn superseded_ids(&self) -> Result<List<TxnId>, Memory> {
        let ids = superseded_ids(self.alloc, self.commits.as_slice())?;
        Ok(List::from_vec(ids))
    }

    fn remove(&mut self, id: TxnId) {
        take_out(&mut self.commits, &id);
    }
}

/// Whether a commit of an id is among these.
fn has_id(commits: &[Commit], id: &TxnId) -> bool
    ensures { result ≡ has_id id.now commits.now }
{
    commits.iter().any(|c| *id == c.id)
}

/// Whether one of these commits wrote a key at a greater id.
fn is_overwritten(commits: &[Commit], key: &Key, id: &TxnId) -> bool
    ensures { result ≡ list_any (λ d. wrote key.now d && id_lt id.now d.id) commits.now }
{
    commits.iter().any(|d| wrote(d, key) && id.is_before(&d.id))
}

/// Whether each key of a commit was written by one of these with a greater id.
fn is_covered(commits: &[Commit], commit: &Commit) -> bool
    ensures { result ≡ is_superseded commit.now commits.now }
{
    commit
        .keys
        .list()
        .iter()
        .all(|key| is_overwritten(commits, key, &commit.id))
}

/// Whether a commit of an id is among these, and they supersede it.
fn is_superseded(commits: &[Commit], id: &TxnId) -> bool
    ensures { result ≡ supersedes_id id.now commits.now }
{
    commits
        .iter()
        .any(|c| *id == c.id && is_covered(commits, c))
}

/// The keys that the commit of an id wrote.
fn keys_at<'a>(commits: &'a [Commit], id: &TxnId) -> Option<&'a Keys>
    ensures { option_copied result ≡ keys_at id.now commits.now }
{
    for c in commits {
        if *id == c.id {
            return Some(&c.keys);
        }
    }
    None
}

/// The ids of the commits that wrote a key.
fn versions(alloc: Global, commits: &[Commit], key: &Key) -> Result<Vec<TxnId>, AllocError>
    ensures { IfOk result (λ ids. ids.items ≡ versions key.now commits.now) }
{
    commits
        .iter()
        .filter(|c| wrote(c, key))
        .map(|c| c.id)
        .collect(alloc)
}

/// The ids of commits.
fn ids_of(alloc: Global, commits: &[Commit]) -> Result<Vec<TxnId>, AllocError>
    ensures { IfOk result (λ ids. ids.items ≡ ids_of commits.now) }
{
    commits.iter().map(|c| c.id).collect(alloc)
}

/// The ids of the commits that these supersede.
fn superseded_ids(alloc: Global, commits: &[Commit]) -> Result<Vec<TxnId>, AllocError>
    ensures { IfOk result (λ ids. ids.items ≡ filter (λ id. supersedes_id id commits.now) (ids_of commits.now)) }
{
    commits
        .iter()
        .map(|c| c.id)
        .filter(|id| is_superseded(commits, id))
        .collect(alloc)
}

/// Puts a commit in its place. Where memory runs out nothing changes.
fn put_in(commits: &mut Vec<Commit>, commit: Commit) -> Result<(), Memory>
    ensures ok { OnOk result (commits.new.items ≡ with_id_order commits.old.items commit) }
    ensures err { OnErr result (commits.new.items ≡ commits.old.items) }
{
    let place = place_of(commits.as_slice(), &commit.id);
    commits.insert(place, commit)?;
    Ok(())
}

/// Takes the commit of an id out of these.
fn take_out(commits: &mut Vec<Commit>, id: &TxnId)
    ensures { commits.new.items ≡ without_ids (id.now ∷ []) commits.old.items }
{
    commits.retain(|c| c.id != *id);
}

/// The greater id, if there are any.
fn later(newest: Option<TxnId>, id: TxnId) -> Option<TxnId>
    ensures { result ≡ later newest id }
{
    match newest {
        Some(other) if !other.is_before(&id) => Some(other),
        _ => Some(id),
    }
}

/// The greatest id of a key.
fn newest(commits: &[Commit], key: &Key) -> Option<TxnId>
    ensures { result ≡ greatest (versions key.now commits.now) }
{
    commits
        .iter()
        .filter(|c| wrote(c, key))
        .map(|c| c.id)
        .fold(None, later)
}

/// The greatest id of a key below another id.
fn newest_below(commits: &[Commit], key: &Key, id: &TxnId) -> Option<TxnId>
    ensures { result ≡ latest_below key.now id.now commits.now }
{
    commits
        .iter()
        .filter(|c| wrote(c, key))
        .map(|c| c.id)
        .filter(|version| version.is_before(id))
        .fold(None, later)
}

/// The place of the first commit whose id is above this one, or behind all.
fn place_of(commits: &[Commit], id: &TxnId) -> usize
    ensures { result ≡ position_or_len (λ other. id_lt id.now other.id) commits.now }
{
    match first_above(commits, id) {
        Some(place) => place,
        None => commits.len(),
    }
}

/// The place of the first commit whose id is above this one.
fn first_above(commits: &[Commit], id: &TxnId) -> Option<usize>
    ensures { result ≡ position (λ other. id_lt id.now other.id) commits.now }
{
    commits.iter().position(|other| id.is_before(&other.id))
}
