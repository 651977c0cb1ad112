//! What was read, and the keys of known commits.

ghost use Rattle.std.specs.Prelude.{◌≡◌, not};
ghost use Rattle.std.specs.List.{list_all};
ghost use Rattle.aft_model.specs.Choice.{is_not_blocked, is_read_below};
ghost use Rattle.aft_select.specs.Choosing.{read_below};

use aft_id::TxnId;
use aft_meta::CommitSet;
use aft_model::ReadSet;
use aft_records::Key;

/// The id below another one at which a key was read, if there is one.
pub(crate) fn read_below(reads: &ReadSet, key: &Key, id: &TxnId) -> Option<TxnId>
    ensures { result ≡ read_below key.now id.now reads.now }
{
    let read = reads.at(key)?;
    if read.is_before(id) { Some(read) } else { None }
}

/// Whether a key was read below an id.
pub(crate) fn is_read_below(reads: &ReadSet, key: &Key, id: &TxnId) -> bool
    ensures { result ≡ is_read_below key.now id.now reads.now }
{
    read_below(reads, key, id).is_some()
}

/// Whether none of these keys was read below an id.
fn none_read_below(reads: &ReadSet, keys: &[Key], id: &TxnId) -> bool
    ensures { result ≡ list_all (λ key. not (is_read_below key id.now reads.now)) keys.now }
{
    keys.iter().all(|key| !is_read_below(reads, key, id))
}

/// Whether no key that the commit of an id wrote was read below the id.
pub(crate) fn is_not_blocked<M: CommitSet>(meta: &M, reads: &ReadSet, id: &TxnId) -> bool
    ensures { result ≡ is_not_blocked id.now reads.now (M.known meta.now) }
{
    match meta.keys_of(*id) {
        Some(keys) => none_read_below(reads, keys.list(), id),
        None => true,
    }
}
