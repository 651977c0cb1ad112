//! The course of a commit line.

ghost use Rattle.std.specs.Prelude.{◌≡◌, ◌≤◌, length, IsErrOf};
ghost use Rattle.aft_keeper.specs.Cause.{HasCause};

use crate::door::{Door, caller};
use crate::node::{Node, Start};
use crate::stop::Stop;
use aft_keeper::Keeper;
use aft_model::{Attempt, By, Reply};
use aft_records::{Commit, Version};
use uuid::Uuid;

/// Commits, where the clock reads `now`: stores the version, then the record, and only then answers.
pub fn commit<K: Keeper>(
    door: &mut Door<K>,
    node: &mut Node,
    by: By,
    held: Option<Attempt>,
    now: u64,
) -> Result<(), Stop>
    ensures cause { HasCause (IsErrOf result Stop.StoreFault) (K.faults door.old.keeper) (K.faults door.new.keeper) }
{
    let Some(attempt) = held else {
        return node.answer(door.len(), by, Reply::NoTransaction);
    };
    match node.start(door.len(), by, attempt, now)? {
        Start::Answered => Ok(()),
        Start::Leave(uuid) => end(door, node, by, attempt, uuid, Reply::Ended),
        Start::Store(commit, version) => store(door, node, by, attempt, commit, version),
    }
}

/// Stores the version and the record.
fn store<K: Keeper>(
    door: &mut Door<K>,
    node: &mut Node,
    by: By,
    attempt: Attempt,
    commit: Commit,
    version: Version,
) -> Result<(), Stop>
    requires short { length version.value ≤ 4096 }
    ensures cause { HasCause (IsErrOf result Stop.StoreFault) (K.faults door.old.keeper) (K.faults door.new.keeper) }
{
    let who = caller(attempt, by);
    let id = commit.id;
    door.put_version(who, &version)?;
    door.put_record(who, &commit)?;
    node.stored(door.len(), by, attempt, commit)?;
    end(door, node, by, attempt, id.uuid, Reply::Committed(id))
}

/// Lets the claim go, and ends the attempt with this answer.
fn end<K: Keeper>(
    door: &mut Door<K>,
    node: &mut Node,
    by: By,
    attempt: Attempt,
    uuid: Uuid,
    reply: Reply,
) -> Result<(), Stop>
    ensures cause { HasCause (IsErrOf result Stop.StoreFault) (K.faults door.old.keeper) (K.faults door.new.keeper) }
{
    door.release(caller(attempt, by), uuid)?;
    node.ended(door.len(), by, attempt, reply)
}
