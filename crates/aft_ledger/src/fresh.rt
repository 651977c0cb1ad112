//! The stored commits that weren't announced.

ghost use Rattle.std.specs.Prelude.{◌≡◌, IfOk, filter, not};
ghost use Rattle.aft_ledger.specs.Fresh.{in_map, once_each};
ghost use Rattle.aft_records.specs.Superseded.{is_superseded};

use aft_id::{List, Memory, TxnId};
use aft_meta::{CommitSet, Meta};
use aft_records::{Commit, Keys};
use std::alloc::Global;
use std::collections::BTreeMap;

/// Commits by id, each id once: of those of one id the first.
fn by_id(alloc: Global, commits: &[Commit]) -> Result<BTreeMap<TxnId, Keys>, Memory>
    ensures { IfOk result (λ map. in_map map.entries ≡ once_each commits.now) }
{
    let mut map = BTreeMap::new(alloc);
    for commit in commits {
        if !map.contains_key(&commit.id) {
            map.insert(commit.id, commit.keys.clone()?)?;
        }
    }
    Ok(map)
}

/// Copies of commits in id order.
fn listed(alloc: Global, map: &BTreeMap<TxnId, Keys>) -> Result<Vec<Commit>, Memory>
    ensures { IfOk result (λ commits. commits.items ≡ in_map map.now.entries) }
{
    let mut commits = Vec::new(alloc);
    for (id, keys) in map.iter() {
        let keys = keys.clone()?;
        commits.push(Commit { id: *id, keys })?;
    }
    Ok(commits)
}

/// Commits in id order, each id once.
pub(crate) fn in_order(alloc: Global, commits: &[Commit]) -> Result<Vec<Commit>, Memory>
    ensures { IfOk result (λ ordered. ordered.items ≡ once_each commits.now) }
{
    let map = by_id(alloc, commits)?;
    listed(alloc, &map)
}

/// Copies of those commits that the known ones supersede, in order.
fn covered(alloc: Global, known: &Meta, commits: &[Commit]) -> Result<List<Commit>, Memory>
    ensures { IfOk result (λ copies. copies ≡ filter (λ c. is_superseded c known.now) commits.now) }
{
    let mut copies = Vec::new(alloc);
    for commit in commits {
        if known.covered(commit) {
            copies.push(commit.clone()?)?;
        }
    }
    Ok(List::from_vec(copies))
}

/// Copies of those commits that the known ones don't supersede, in order.
fn uncovered(alloc: Global, known: &Meta, commits: &[Commit]) -> Result<List<Commit>, Memory>
    ensures { IfOk result (λ copies. copies ≡ filter (λ c. not (is_superseded c known.now)) commits.now) }
{
    let mut copies = Vec::new(alloc);
    for commit in commits {
        if !known.covered(commit) {
            copies.push(commit.clone()?)?;
        }
    }
    Ok(List::from_vec(copies))
}

/// Copies of the commits that the known ones don't supersede, and of those that they do, in order.
pub(crate) fn parted(
    alloc: Global,
    known: &Meta,
    commits: &[Commit],
) -> Result<(List<Commit>, List<Commit>), Memory>
    ensures kept { IfOk result (λ parts. parts.0 ≡ filter (λ c. not (is_superseded c known.now)) commits.now) }
    ensures pruned { IfOk result (λ parts. parts.1 ≡ filter (λ c. is_superseded c known.now) commits.now) }
{
    let kept = uncovered(alloc, known, commits)?;
    let pruned = covered(alloc, known, commits)?;
    Ok((kept, pruned))
}
