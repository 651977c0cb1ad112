//! The course of a get line.

ghost use Rattle.std.specs.Prelude.{◌≡◌, IsErrOf, IfErr};
ghost use Rattle.aft_keeper.specs.Cause.{HasCause};

use crate::door::{Door, caller};
use crate::node::Node;
use crate::stop::Stop;
use aft_id::{Bytes, TxnId};
use aft_keeper::Keeper;
use aft_model::{Attempt, By, Reply};
use aft_records::{Key, Name, RecordFault, Version};
use std::alloc::Global;

/// Gets a key: picks the newest known version, and fetches it.
pub fn get<K: Keeper>(
    door: &mut Door<K>,
    node: &mut Node,
    by: By,
    held: Option<Attempt>,
    key: &Key,
) -> Result<(), Stop>
    ensures cause { HasCause (IsErrOf result Stop.StoreFault) (K.faults door.old.keeper) (K.faults door.new.keeper) }
{
    let Some(attempt) = held else {
        return node.answer(door.len(), by, Reply::NoTransaction);
    };
    let Some(id) = node.select(door.len(), by, attempt, key)? else {
        return Ok(());
    };
    let id = &id;
    let place = door.len();
    let name = Name::VersionOf {
        key: key.clone()?,
        id: *id,
    };
    let found = door.get(caller(attempt, by), &name)?;
    match version_of(door.alloc(), key, id, &name, found)? {
        Ok(version) => node.value(door.len(), by, attempt, version, place),
        Err(reply) => node.lost(door.len(), by, attempt, key, id, reply),
    }
}

/// The version that the bytes spell, or the reply where they aren't the one that was asked for.
fn version_of(
    alloc: Global,
    key: &Key,
    id: &TxnId,
    name: &Name,
    found: Option<Bytes>,
) -> Result<Result<Version, Reply>, Stop>
    ensures memory { IfErr result (λ stop. stop ≡ Stop.Memory) }
{
    let Some(bytes) = found else {
        return Ok(Err(Reply::Missing(*id)));
    };
    match Version::decode(alloc, bytes.as_slice()) {
        Ok(version) if version.id == *id && version.key == *key => Ok(Ok(version)),
        Err(RecordFault::Memory) => Err(Stop::Memory),
        _ => Ok(Err(Reply::Damaged(name.write(alloc)?))),
    }
}
