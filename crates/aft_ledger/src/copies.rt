//! Copies of what is answered and noted.

ghost use Rattle.std.specs.Prelude.{◌≡◌, IfOk, map};

use aft_id::{List, Memory};
use aft_model::Blocked;
use aft_records::Key;
use aft_txn::Write;
use std::alloc::Global;

/// A copy of what blocks the versions of a key.
pub(crate) fn copy_of(alloc: Global, blocked: &[Blocked]) -> Result<List<Blocked>, Memory>
    ensures { IfOk result (λ copy. copy ≡ blocked.now) }
{
    let mut copies = Vec::with_capacity(alloc, blocked.len())?;
    for one in blocked {
        let key = one.key.clone()?;
        copies.push(Blocked {
            id: one.id,
            key,
            read: one.read,
        })?;
    }
    Ok(List::from_vec(copies))
}

/// Copies of the keys of writes.
pub(crate) fn keys_of(alloc: Global, writes: &[Write]) -> Result<List<Key>, Memory>
    ensures { IfOk result (λ keys. keys ≡ map (λ write. write.key) writes.now) }
{
    let mut keys = Vec::with_capacity(alloc, writes.len())?;
    for write in writes {
        keys.push(write.key.clone()?)?;
    }
    Ok(List::from_vec(keys))
}
