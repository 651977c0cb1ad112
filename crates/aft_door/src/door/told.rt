//! What the store answered, as its entry has it, and what the caller is told of that.

ghost use Rattle.std.specs.Prelude.{◌≡◌, Err, IfErr, IfOk, IsTrue, None, Some};
ghost use Rattle.std.specs.List.{list_all};
ghost use Rattle.aft_keeper.specs.Calls.{done_answer, get_answer, page_answer};
ghost use Rattle.aft_model.specs.Bytes.{answers_bytes, is_byte_pair};
ghost use Rattle.aft_door.specs.Calls.{Tells, told_done, told_found, told_page};
ghost use Rattle.aft_door.specs.Refusals.{RefusedOrFailed};

use crate::asked::{bytes_fit, text_fits};
use crate::fault::DoorFault;
use aft_id::{Bytes, List, Memory};
use aft_keeper::{KeeperAnswer, KeeperFault, Pair};
use std::alloc::Global;

/// What a get of the store answered, and what its caller is told. `Memory` comes exactly where the store lacked memory.
pub(crate) fn found_told(
    found: Result<Option<Bytes>, KeeperFault>,
) -> Result<(KeeperAnswer, Result<Option<Bytes>, DoorFault>), Memory>
    ensures answer { IfOk result (λ pair. get_answer found ≡ Some pair.0) }
    ensures told { IfOk result (λ pair. Tells told_found pair.0 pair.1) }
    ensures bytes { IfOk result (λ pair. IsTrue (answers_bytes pair.0)) }
    ensures refused { IfOk result (λ pair. RefusedOrFailed None pair.1) }
    ensures failed { IfOk result (λ pair. pair.1 ≡ Err DoorFault.Failed → found ≡ Err KeeperFault.Failed) }
    ensures memory { IfErr result (λ fault. found ≡ Err KeeperFault.Memory) }
{
    match found {
        Err(KeeperFault::Memory) => Err(Memory),
        Err(KeeperFault::Failed) => Ok((KeeperAnswer::Failed, Err(DoorFault::Failed))),
        Ok(None) => Ok((KeeperAnswer::Absent, Ok(None))),
        Ok(Some(bytes)) => {
            bytes_fit(&bytes);
            let copy = found_copy(&bytes);
            Ok((KeeperAnswer::Found(bytes), copy))
        }
    }
}

/// What a scan of the store answered, and what its caller is told. `Memory` comes exactly where the store lacked memory.
pub(crate) fn page_told(
    alloc: Global,
    page: Result<List<Pair>, KeeperFault>,
) -> Result<(KeeperAnswer, Result<List<Pair>, DoorFault>), Memory>
    ensures answer { IfOk result (λ pair. page_answer page ≡ Some pair.0) }
    ensures told { IfOk result (λ pair. Tells told_page pair.0 pair.1) }
    ensures bytes { IfOk result (λ pair. IsTrue (answers_bytes pair.0)) }
    ensures refused { IfOk result (λ pair. RefusedOrFailed None pair.1) }
    ensures failed { IfOk result (λ pair. pair.1 ≡ Err DoorFault.Failed → page ≡ Err KeeperFault.Failed) }
    ensures memory { IfErr result (λ fault. page ≡ Err KeeperFault.Memory) }
{
    match page {
        Err(KeeperFault::Memory) => Err(Memory),
        Err(KeeperFault::Failed) => Ok((KeeperAnswer::Failed, Err(DoorFault::Failed))),
        Ok(pairs) => {
            page_fits(&pairs);
            let copy = page_copy(alloc, &pairs);
            Ok((KeeperAnswer::Page(pairs), copy))
        }
    }
}

/// What a put or a delete of the store answered, and what its caller is told. `Memory` comes exactly where the store lacked memory.
pub(crate) fn done_told(
    done: Result<(), KeeperFault>,
) -> Result<(KeeperAnswer, Result<(), DoorFault>), Memory>
    ensures answer { IfOk result (λ pair. done_answer done ≡ Some pair.0) }
    ensures told { IfOk result (λ pair. told_done pair.1 ≡ Some pair.0) }
    ensures bytes { IfOk result (λ pair. IsTrue (answers_bytes pair.0)) }
    ensures refused { IfOk result (λ pair. RefusedOrFailed None pair.1) }
    ensures failed { IfOk result (λ pair. pair.1 ≡ Err DoorFault.Failed → done ≡ Err KeeperFault.Failed) }
    ensures memory { IfErr result (λ fault. done ≡ Err KeeperFault.Memory) }
{
    match done {
        Err(KeeperFault::Memory) => Err(Memory),
        Err(KeeperFault::Failed) => Ok((KeeperAnswer::Failed, Err(DoorFault::Failed))),
        Ok(()) => Ok((KeeperAnswer::Done, Ok(()))),
    }
}

/// A copy of the bytes that a get found.
fn found_copy(bytes: &Bytes) -> Result<Option<Bytes>, DoorFault>
    ensures ok { IfOk result (λ copy. copy ≡ Some bytes.now) }
    ensures err { IfErr result (λ fault. fault ≡ DoorFault.Memory) }
{
    Ok(Some(bytes.clone()?))
}

/// A copy of a page.
fn page_copy(alloc: Global, page: &List<Pair>) -> Result<List<Pair>, DoorFault>
    ensures ok { IfOk result (λ copy. copy ≡ page.now) }
    ensures err { IfErr result (λ fault. fault ≡ DoorFault.Memory) }
{
    let pairs = page.as_slice();
    let mut copies = Vec::new(alloc);
    for pair in pairs {
        let name = pair.name.clone()?;
        let bytes = pair.bytes.clone()?;
        copies.push(Pair { name, bytes })?;
    }
    Ok(List::from_vec(copies))
}

/// A page is made of bytes.
fn page_fits(page: &List<Pair>)
    ensures { IsTrue (list_all is_byte_pair page.now) }
{
    let pairs = page.as_slice();
    for pair in pairs {
        text_fits(&pair.name);
        bytes_fit(&pair.bytes);
    }
}
