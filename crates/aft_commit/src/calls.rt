//! What a commit or an abort does at the door, and what comes of it.

ghost use Rattle.std.specs.Prelude.{◌≡◌, ◌≢◌, ◌<◌, ◌≤◌, ◌^◌, ◌⊎◌, ◌&&◌, ◌||◌, Err, IfErr, IfOk, IsErrOf, IsTrue, Ok, Some, length};
ghost use Rattle.aft_commit.specs.Calls.{IsVersionAt, LooksSo, PutsSo, RecordPutsSo, ReleasesSo, Shown, Tells, fails, refused_sight};
ghost use Rattle.aft_commit.specs.View.{Storable, StorableRecord, is_doubtful};
ghost use Rattle.aft_commit.specs.declared.sight.Sight.TheVariants as sights;
ghost use Rattle.aft_keeper.specs.Cause.{HasCause};
ghost use Rattle.aft_lines.specs.CourseWords.{caller_of, finds_record};
ghost use Rattle.aft_keeper.specs.declared.keeper.KeeperAnswer.TheVariants as answers;
ghost use Rattle.aft_model.specs.Claims.{holds};
ghost use Rattle.aft_model.specs.DoorKnowledge.{is_open, knows_stored, knows_unused};
ghost use Rattle.aft_model.specs.Membership.{is_up};
ghost use Rattle.aft_model.specs.NodeSights.{is_fenced};
ghost use Rattle.aft_model.specs.Readings.{record_name};
ghost use Rattle.aft_records.specs.Commits.{same_commit};
ghost use Rattle.aft_records.specs.Names.{name_text};
ghost use Rattle.aft_turns.specs.Steps.{SameStore};

use crate::sight::Sight;
use aft_door::{Door, DoorFault};
use aft_id::{Bytes, List, Memory, uuid_bytes};
use aft_keeper::Keeper;
use aft_model::{Attempt, By, Caller, Reply};
use aft_records::{Commit, Name, Record, RecordFault, Version};
use std::alloc::Global;
use uuid::Uuid;

/// The caller of the door for a line of an attempt.
fn caller(by: By, attempt: Attempt) -> Caller
    ensures { result ≡ record { node = attempt.node; inc = attempt.inc; by = by } }
{
    Caller {
        node: attempt.node,
        inc: attempt.inc,
        by,
    }
}

/// That an attempt's incarnation is shut out.
pub(crate) fn down(attempt: Attempt) -> Reply
    ensures { result ≡ Reply.NodeDown attempt.node attempt.inc }
{
    Reply::NodeDown {
        node: attempt.node,
        inc: attempt.inc,
    }
}

/// What the type of a record tells a proof of its keys.
pub(crate) fn few_keys(written: &Record)
    ensures { length written.now.commit.keys ≤ 32 }
{
    written.commit.keys.list();
}

/// And of the incarnation that it names.
fn small_inc(written: &Record)
    ensures { written.now.origin.inc < 2 ^ 32 }
{
    let _inc = written.origin.inc;
}

/// Puts the version of one of the keys of a commit.
pub(crate) fn put_version<K: Keeper>(
    door: &mut Door<K>,
    by: By,
    attempt: Attempt,
    written: &Record,
    values: &List<Bytes>,
    count: usize,
) -> Result<(), DoorFault>
    requires opened { IsTrue (is_open door.old.history) }
    requires storable { Storable attempt written.now values.now }
    requires knows { IsTrue (knows_unused (caller_of attempt) written.now.commit.id.uuid door.old.history) }
    ensures puts { IsTrue (is_fenced (caller_of attempt) door.old.history || is_up (caller_of attempt) door.old.history && holds (caller_of attempt) written.now.commit.id.uuid door.old.history) → PutsSo by attempt written.now values.now count door.old.history door.new.history result }
    ensures cause { HasCause (IsTrue (fails result)) door.old.faults door.new.faults }
    ensures store { SameStore door.old door.new }
{
    let version = version_at(written, values, count)?;
    let _time = version.id.time;
    uuid_bytes(&version.id.uuid);
    version.key.bytes();
    door.put_version(caller(by, attempt), &version)
}

/// The version of one of the keys of a commit, with the value that stands at the same place.
fn version_at(written: &Record, values: &List<Bytes>, count: usize) -> Result<Version, DoorFault>
    ensures ok { IfOk result (IsVersionAt written.now values.now count) }
    ensures err { IfErr result (λ fault. fault ≡ DoorFault.Memory) }
{
    let Some(key) = written.commit.keys.list().get(count) else {
        return Err(DoorFault::Memory);
    };
    let Some(value) = values.as_slice().get(count) else {
        return Err(DoorFault::Memory);
    };
    Ok(Version {
        id: written.commit.id,
        key: key.clone()?,
        value: value.clone()?,
    })
}

/// Puts the record of a commit.
pub(crate) fn put_record<K: Keeper>(
    door: &mut Door<K>,
    by: By,
    attempt: Attempt,
    written: &Record,
) -> Result<(), DoorFault>
    requires opened { IsTrue (is_open door.old.history) }
    requires storable { StorableRecord attempt written.now }
    requires knows { IsTrue (knows_stored (caller_of attempt) written.now.commit door.old.history) }
    ensures puts { IsTrue (is_fenced (caller_of attempt) door.old.history || is_up (caller_of attempt) door.old.history && holds (caller_of attempt) written.now.commit.id.uuid door.old.history) → RecordPutsSo by attempt written.now door.old.history door.new.history result }
    ensures cause { HasCause (IsTrue (fails result)) door.old.faults door.new.faults }
    ensures store { SameStore door.old door.new }
{
    let _time = written.commit.id.time;
    small_inc(written);
    uuid_bytes(&written.commit.id.uuid);
    written.commit.keys.list();
    door.put_record(caller(by, attempt), written)
}

/// Looks for the record of a commit.
pub(crate) fn look<K: Keeper>(
    alloc: Global,
    door: &mut Door<K>,
    by: By,
    attempt: Attempt,
    written: &Record,
) -> Sight
    requires opened { IsTrue (is_open door.old.history) }
    ensures looks { IsTrue (is_fenced (caller_of attempt) door.old.history || is_up (caller_of attempt) door.old.history) → LooksSo by attempt written.now.commit door.old.history door.new.history result }
    ensures may { IsTrue (is_doubtful result) }
    ensures cause { HasCause (result ≡ sights.Failed) door.old.faults door.new.faults }
    ensures store { SameStore door.old door.new }
{
    let uuid = written.commit.id.uuid;
    uuid_bytes(&uuid);
    let name = Name::CommitOf { uuid };
    let told = door.get(caller(by, attempt), &name);
    seen(alloc, attempt, &written.commit, &name, told)
}

/// What comes of what the door told.
fn seen(
    alloc: Global,
    attempt: Attempt,
    commit: &Commit,
    name: &Name,
    told: Result<Option<Bytes>, DoorFault>,
) -> Sight
    requires name { name.now ≡ Name.CommitOf commit.now.id.uuid }
    ensures tells { Tells attempt commit.now told result }
    ensures may { IsTrue (is_doubtful result) }
    ensures fault { result ≡ sights.Failed → told ≡ Err DoorFault.Failed }
{
    match told {
        Ok(None) => Sight::Absent,
        Ok(Some(bytes)) => shown(alloc, commit, name, &bytes),
        Err(fault) => refused(fault, attempt),
    }
}

/// What a refusal of a look is told as.
fn refused(fault: DoorFault, attempt: Attempt) -> Sight
    ensures value { result ≡ refused_sight attempt fault }
    ensures may { IsTrue (is_doubtful result) }
    ensures fault { result ≡ sights.Failed → fault ≡ DoorFault.Failed }
{
    match fault {
        DoorFault::Failed => Sight::Failed,
        DoorFault::Memory => Sight::Refused(Reply::NoMemory),
        _ => Sight::Refused(down(attempt)),
    }
}

/// What bytes that stand under the name of a commit's record show: the record of this commit, or damage.
fn shown(alloc: Global, commit: &Commit, name: &Name, bytes: &Bytes) -> Sight
    requires name { name.now ≡ Name.CommitOf commit.now.id.uuid }
    ensures shown { Shown commit.now bytes.now result }
    ensures may { IsTrue (is_doubtful result) }
    ensures answered { result ≢ sights.Failed }
{
    match Commit::decode(alloc, bytes.as_slice()) {
        Ok(found) if is_same(commit, &found) => Sight::Recorded,
        Err(RecordFault::Memory) => Sight::Refused(Reply::NoMemory),
        _ => damaged(alloc, name),
    }
}

/// Whether two commits are the same.
fn is_same(commit: &Commit, other: &Commit) -> bool
    ensures { result ≡ same_commit commit.now other.now }
{
    commit.id == other.id && commit.keys.list() == other.keys.list()
}

/// That what stands under a name is damaged.
fn damaged(alloc: Global, name: &Name) -> Sight
    ensures { (result ≡ sights.Refused (Reply.Damaged (name_text name.now))) ⊎ (result ≡ sights.Refused Reply.NoMemory) }
{
    match name.write(alloc) {
        Ok(text) => Sight::Refused(Reply::Damaged(text)),
        Err(_) => Sight::Refused(Reply::NoMemory),
    }
}

/// Lets the claim go; whether that was done. Whoever doesn't hold the UUID goes the way of one that is shut out.
pub(crate) fn release<K: Keeper>(door: &mut Door<K>, by: By, attempt: Attempt, uuid: Uuid) -> bool
    ensures releases { IsTrue (is_fenced (caller_of attempt) door.old.history || is_up (caller_of attempt) door.old.history && holds (caller_of attempt) uuid door.old.history) → ReleasesSo by attempt uuid door.old.history door.new.history result }
    ensures faults { door.new.faults ≡ door.old.faults }
    ensures store { SameStore door.old door.new }
{
    door.release(caller(by, attempt), uuid).is_ok()
}
