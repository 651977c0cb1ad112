//! Copies of commits and of their ids.

ghost use Rattle.std.specs.Prelude.{◌≡◌, ◌++◌, IfOk};
ghost use Rattle.std.specs.HashSet.{contains};
ghost use Rattle.aft_id.specs.TxnId.{same_id};
ghost use Rattle.aft_id.specs.declared.txn_id.TxnId.{TxnId as Id};
ghost use Rattle.aft_records.specs.Commits.{ids_of, is_listed};
ghost use Rattle.aft_model.specs.Office.{unheard};

use aft_id::TxnId;
use aft_records::Commit;
use std::alloc::{AllocError, Global};
use std::collections::HashSet;

/// Copies of commits, in order.
pub(crate) fn copies_of(alloc: Global, commits: &[Commit]) -> Result<Vec<Commit>, AllocError>
    ensures { IfOk result (λ copies. copies.items ≡ commits.now) }
{
    Vec::from_clones(alloc, commits)
}

/// The ids of commits, in order.
pub(crate) fn ids_of(alloc: Global, commits: &[Commit]) -> Result<Vec<TxnId>, AllocError>
    ensures { IfOk result (λ ids. ids.items ≡ ids_of commits.now) }
{
    commits.iter().map(|commit| commit.id).collect(alloc)
}

/// Ids, and behind them those of commits.
pub(crate) fn with_ids(
    alloc: Global,
    ids: &[TxnId],
    commits: &[Commit],
) -> Result<Vec<TxnId>, AllocError>
    ensures { IfOk result (λ all. all.items ≡ ids.now ++ ids_of commits.now) }
{
    let mut all = Vec::from_slice(alloc, ids)?;
    let mut more = ids_of(alloc, commits)?;
    all.append(&mut more)?;
    Ok(all)
}

/// Ids as a set.
fn set_of(alloc: Global, ids: &[TxnId]) -> Result<HashSet<TxnId>, AllocError>
    ensures { IfOk result (λ set. (id : Id) → contains same_id set id ≡ is_listed id ids.now) }
{
    let mut set = HashSet::new(alloc);
    for id in ids {
        set.insert(*id)?;
    }
    Ok(set)
}

/// Copies of those commits of which nobody has heard, in order.
pub(crate) fn unheard(
    alloc: Global,
    known: &[TxnId],
    commits: &[Commit],
) -> Result<Vec<Commit>, AllocError>
    ensures { IfOk result (λ missed. missed.items ≡ unheard known.now commits.now) }
{
    let known = set_of(alloc, known)?;
    let mut missed = Vec::new(alloc);
    for commit in commits {
        if !known.contains(&commit.id) {
            missed.push(commit.clone()?)?;
        }
    }
    Ok(missed)
}
