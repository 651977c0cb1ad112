//! The course of a begin line.

ghost use Rattle.std.specs.Prelude.{◌≡◌, IsErrOf};
ghost use Rattle.aft_keeper.specs.Cause.{HasCause};

use crate::door::{Door, caller};
use crate::node::Node;
use crate::stop::Stop;
use aft_keeper::Keeper;
use aft_model::{Attempt, By, Caller, Reply};
use aft_records::{Commit, Name, RecordFault};
use uuid::Uuid;

/// Begins the transaction of a UUID: claims it, and asks the store whether it is recorded or retired.
/// Gives the attempt that runs then, if there is one.
pub fn begin<K: Keeper>(
    door: &mut Door<K>,
    node: &mut Node,
    by: By,
    uuid: &Uuid,
) -> Result<Option<Attempt>, Stop>
    ensures cause { HasCause (IsErrOf result Stop.StoreFault) (K.faults door.old.keeper) (K.faults door.new.keeper) }
{
    let attempt = node.admit(door.len(), by, *uuid)?;
    let who = caller(attempt, by);
    door.claim(who, *uuid)?;
    match shown(door, who, uuid)? {
        None => {
            node.admitted(door.len(), by, attempt, uuid)?;
            Ok(Some(attempt))
        }
        Some(reply) => {
            door.release(who, *uuid)?;
            node.unadmitted(door.len(), by, attempt, reply)?;
            Ok(None)
        }
    }
}

/// What a begin is answered if its record or its marker is there.
fn shown<K: Keeper>(door: &mut Door<K>, who: Caller, uuid: &Uuid) -> Result<Option<Reply>, Stop>
    ensures cause { HasCause (IsErrOf result Stop.StoreFault) (K.faults door.old.keeper) (K.faults door.new.keeper) }
{
    let record = Name::CommitOf { uuid: *uuid };
    if let Some(bytes) = door.get(who, &record)? {
        return match Commit::decode(door.alloc(), bytes.as_slice()) {
            Ok(commit) if commit.id.uuid == *uuid => Ok(Some(Reply::Committed(commit.id))),
            Err(RecordFault::Memory) => Err(Stop::Memory),
            _ => Ok(Some(Reply::Damaged(record.write(door.alloc())?))),
        };
    }
    let marker = Name::RetiredOf { uuid: *uuid };
    match door.get(who, &marker)? {
        None => Ok(None),
        Some(_) => Ok(Some(Reply::Damaged(marker.write(door.alloc())?))),
    }
}
