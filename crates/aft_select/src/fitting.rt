//! The greatest version that fits.

ghost use Rattle.std.specs.Prelude.{◌≡◌};
ghost use Rattle.aft_model.specs.Choice.{fitting};
ghost use Rattle.aft_records.specs.Commits.{greatest};

use crate::reads::is_not_blocked;
use aft_id::TxnId;
use aft_meta::CommitSet;
use aft_model::ReadSet;
use aft_records::Key;

/// The greatest version of a key that fits. It looks at the versions from the newest on, down to the first that isn't
/// blocked or that was read: what is below a read version isn't late enough.
pub(crate) fn newest_fit<M: CommitSet>(meta: &M, reads: &ReadSet, key: &Key) -> Option<TxnId>
    ensures { result ≡ greatest (fitting key.now reads.now (M.known meta.now)) }
{
    let mut next = meta.latest(key);
    while let Some(id) = next {
        if is_not_blocked(meta, reads, &id) {
            return Some(id);
        }
        if reads.has_read(&id) {
            return None;
        }
        next = meta.latest_below(key, id);
    }
    None
}
