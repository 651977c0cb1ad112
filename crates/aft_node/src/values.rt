//! What the puts of a commit are handed.

ghost use Rattle.std.specs.Prelude.{◌≡◌, IfOk, map};

use aft_id::{Bytes, List, Memory};
use aft_txn::Write;
use std::alloc::Global;

/// The values of writes, in their order.
pub(crate) fn values_of(alloc: Global, writes: List<Write>) -> Result<List<Bytes>, Memory>
    ensures { IfOk result (λ values. values ≡ map (λ write. write.value) writes) }
{
    let writes = writes.into_vec();
    let mut values = Vec::with_capacity(alloc, writes.len())?;
    for write in writes {
        values.push(write.value)?;
    }
    Ok(List::from_vec(values))
}
