//! The choice of a version.

ghost use Rattle.std.specs.Prelude.{◌≡◌, IfOk};
ghost use Rattle.aft_id.specs.TxnId.{zero_id};
ghost use Rattle.aft_model.specs.Attempts.{is_read};
ghost use Rattle.aft_model.specs.Choice.{choice};
ghost use Rattle.aft_model.specs.declared.read_set.ReadPair.{ReadPair};

use crate::blockers::none_fits;
use crate::fitting::newest_fit;
use aft_id::{Memory, TxnId};
use aft_meta::CommitSet;
use aft_model::{Choice, ReadSet};
use aft_records::Key;
use std::alloc::Global;

/// The version of a key that a transaction reads next to what it has read. `Absent` where it has read the key as
/// absent; else the greatest version that fits; else `Absent` where no known commit wrote the key; else `NoneFits`,
/// with the known versions of which a key was read below, ascending, and the first such key of each. Where the reads are
/// atomic these are all known versions.
pub fn select<M: CommitSet>(
    alloc: Global,
    meta: &M,
    reads: &ReadSet,
    key: &Key,
) -> Result<Choice, Memory>
    ensures { IfOk result (λ chosen. chosen ≡ choice key.now reads.now (M.known meta.now)) }
{
    if is_read_absent(reads, key) {
        return Ok(Choice::Absent);
    }
    match newest_fit(meta, reads, key) {
        Some(id) => Ok(Choice::Version(id)),
        None => none_fits(alloc, meta, reads, key),
    }
}

/// Whether a key was read as absent.
fn is_read_absent(reads: &ReadSet, key: &Key) -> bool
    ensures { result ≡ is_read (record { key = key.now; id = zero_id }) reads.now }
{
    match reads.at(key) {
        Some(id) => TxnId::zero() == id,
        None => false,
    }
}
