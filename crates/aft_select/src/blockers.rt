//! Why no version fits.

ghost use Rattle.std.specs.Prelude.{◌≡◌, IfOk};
ghost use Rattle.std.specs.List.{flat_map};
ghost use Rattle.aft_model.specs.Choice.{blockers, first_below, none_chosen};
ghost use Rattle.aft_records.specs.Commits.{versions};
ghost use Rattle.aft_select.specs.Choosing.{blocked_at, listed};

use crate::reads::read_below;
use aft_id::{List, Memory, TxnId};
use aft_meta::CommitSet;
use aft_model::{Blocked, Choice, ReadSet};
use aft_records::Key;
use std::alloc::Global;

/// The choice where no version fits: `Absent` where there is none, and else each version with what blocks it.
pub(crate) fn none_fits<M: CommitSet>(
    alloc: Global,
    meta: &M,
    reads: &ReadSet,
    key: &Key,
) -> Result<Choice, Memory>
    ensures { IfOk result (λ chosen. chosen ≡ none_chosen (versions key.now (M.known meta.now)) (blockers key.now reads.now (M.known meta.now))) }
{
    let versions = meta.versions(key)?;
    let versions = versions.as_slice();
    if versions.is_empty() {
        return Ok(Choice::Absent);
    }
    let blocked = blockers(alloc, meta, reads, versions)?;
    Ok(Choice::NoneFits(List::from_vec(blocked)))
}

/// What blocks each of some versions.
fn blockers<M: CommitSet>(
    alloc: Global,
    meta: &M,
    reads: &ReadSet,
    versions: &[TxnId],
) -> Result<Vec<Blocked>, Memory>
    ensures { IfOk result (λ found. found.items ≡ flat_map (λ id. blocked_at id reads.now (M.known meta.now)) versions.now) }
{
    let mut found = Vec::new(alloc);
    for id in versions {
        if let Some(blocked) = blocker(meta, reads, id)? {
            found.push(blocked)?;
        }
    }
    Ok(found)
}

/// What blocks a version.
fn blocker<M: CommitSet>(meta: &M, reads: &ReadSet, id: &TxnId) -> Result<Option<Blocked>, Memory>
    ensures { IfOk result (λ blocked. listed blocked ≡ blocked_at id.now reads.now (M.known meta.now)) }
{
    match meta.keys_of(*id) {
        Some(keys) => first_below(reads, keys.list(), id),
        None => Ok(None),
    }
}

/// The first of some keys that was read below an id, and the id at which it was read.
fn first_below(reads: &ReadSet, keys: &[Key], id: &TxnId) -> Result<Option<Blocked>, Memory>
    ensures { IfOk result (λ blocked. listed blocked ≡ first_below id.now reads.now keys.now) }
{
    for key in keys {
        if let Some(read) = read_below(reads, key, id) {
            let key = key.clone()?;
            return Ok(Some(Blocked { id: *id, key, read }));
        }
    }
    Ok(None)
}
