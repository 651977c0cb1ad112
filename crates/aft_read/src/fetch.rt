//! What comes of a fetch.

ghost use Rattle.std.specs.Prelude.{◌≡◌, ◌⊎◌, ◌&&◌, ◌<◌, ℕ, Err, IfOk, IsFalse, IsTrue, List, Ok};
ghost use Rattle.std.specs.Str.{bytes_eq};
ghost use Rattle.aft_id.specs.TxnId.{same_id};
ghost use Rattle.aft_keeper.specs.Cause.{HasCause};
ghost use Rattle.aft_model.specs.DoorKnowledge.{is_open};
ghost use Rattle.aft_model.specs.Readings.{version_name};
ghost use Rattle.aft_model.specs.declared.caller.Hold.{Hold};
ghost use Rattle.aft_node.specs.Getting.{MayCome};
ghost use Rattle.aft_read.specs.Fetched.{Fetches, Tells, no_memory, read_as, tells_fault};
ghost use Rattle.aft_read.specs.Made.{has_come_up_at, made_at, told_fault_at};
ghost use Rattle.aft_read.specs.View.{FitsNode, left_at, next_at};
ghost use Rattle.aft_read.specs.declared.stage.Stage.TheVariants as stages;
ghost use Rattle.aft_records.specs.Limits.{IsKey};
ghost use Rattle.aft_records.specs.Names.{name_text};
ghost use Rattle.aft_records.specs.Reading.{version_of};
ghost use Rattle.aft_records.specs.Stored.{IsWritableId};
ghost use Rattle.aft_turns.specs.Steps.{SameStore, StepsAtDoor};
ghost use Rattle.aft_turns.specs.declared.turn.Where.TheVariants as places;

use crate::stage::Stage;
use aft_door::{Door, DoorFault};
use aft_id::{Bytes, TxnId, uuid_bytes};
use aft_keeper::Keeper;
use aft_model::{Attempt, By, Caller, Reply};
use aft_node::Got;
use aft_records::{Key, Name, RecordFault, Version};
use aft_turns::refusal;
use std::alloc::{AllocError, Global};

/// A turn at the door, and how far it leads.
pub(crate) fn step<K: Keeper>(
    alloc: Global,
    door: &mut Door<K>,
    by: By,
    node: u32,
    stage: Stage,
) -> Stage
    requires next { next_at node stage ≡ places.Door }
    requires opened { IsTrue (is_open door.old.history) }
    requires fits { FitsNode node stage }
    ensures left { left_at result < left_at stage }
    ensures fits { FitsNode node result }
    ensures steps { (capacity : ℕ) (hold : Hold) (asked : List ℕ) → has_come_up_at stage door.old.history → StepsAtDoor by (made_at capacity by hold asked stage) (made_at capacity by hold asked result) door.old.history door.new.history }
    ensures cause { HasCause (IsTrue (told_fault_at result)) door.old.faults door.new.faults }
    ensures store { SameStore door.old door.new }
{
    match stage {
        Stage::Fetches { attempt, key, id } => fetch(alloc, door, by, attempt, key, id),
        stage => stage,
    }
}

/// The turn at the door, and how far it leads: the store is asked for the version.
fn fetch<K: Keeper>(
    alloc: Global,
    door: &mut Door<K>,
    by: By,
    attempt: Attempt,
    key: Key,
    id: TxnId,
) -> Stage
    requires { IsTrue (is_open door.old.history) }
    ensures left { left_at result < 2 }
    ensures fits { FitsNode attempt.node result }
    ensures steps { (capacity : ℕ) (hold : Hold) (asked : List ℕ) → has_come_up_at (stages.Fetches attempt key id) door.old.history → StepsAtDoor by (made_at capacity by hold asked (stages.Fetches attempt key id)) (made_at capacity by hold asked result) door.old.history door.new.history }
    ensures cause { HasCause (IsTrue (told_fault_at result)) door.old.faults door.new.faults }
    ensures store { SameStore door.old door.new }
{
    let place = door.len();
    let got = get(alloc, door, by, attempt, &key, &id);
    came(attempt, key, id, got, place)
}

/// That this came of a fetch.
fn came(attempt: Attempt, key: Key, id: TxnId, got: Got, place: u64) -> Stage
    ensures { result ≡ stages.Comes attempt key id got place }
{
    Stage::Comes {
        attempt,
        key,
        id,
        got,
        place,
    }
}

/// Asks the store for a version, and tells what comes of it.
fn get<K: Keeper>(
    alloc: Global,
    door: &mut Door<K>,
    by: By,
    attempt: Attempt,
    key: &Key,
    id: &TxnId,
) -> Got
    requires { IsTrue (is_open door.old.history) }
    ensures fetches { Fetches by attempt key.now id.now door.old.history door.new.history result }
    ensures may { MayCome id.now result }
    ensures cause { HasCause (IsTrue (tells_fault result)) door.old.faults door.new.faults }
    ensures store { SameStore door.old door.new }
{
    match name_of(key, id) {
        Ok(name) => ask(alloc, door, by, attempt, key, id, &name),
        Err(_) => Got::Refused(Reply::NoMemory),
    }
}

/// The name of a version.
fn name_of(key: &Key, id: &TxnId) -> Result<Name, AllocError>
    ensures { IfOk result (λ name. name_text name ≡ version_name key.now id.now) }
{
    Ok(Name::VersionOf {
        key: key.clone()?,
        id: *id,
    })
}

/// Asks for what stands under a version's name.
fn ask<K: Keeper>(
    alloc: Global,
    door: &mut Door<K>,
    by: By,
    attempt: Attempt,
    key: &Key,
    id: &TxnId,
    name: &Name,
) -> Got
    requires opened { IsTrue (is_open door.old.history) }
    requires name { name_text name.now ≡ version_name key.now id.now }
    ensures fetches { Fetches by attempt key.now id.now door.old.history door.new.history result }
    ensures may { MayCome id.now result }
    ensures cause { HasCause (IsTrue (tells_fault result)) door.old.faults door.new.faults }
    ensures store { SameStore door.old door.new }
{
    let who = Caller {
        node: attempt.node,
        inc: attempt.inc,
        by,
    };
    let told = door.get(who, name);
    Door::law_legal(door);
    words_fit(key, id);
    got_of(alloc, attempt, key, id, name, told)
}

/// What comes of what the door told.
fn got_of(
    alloc: Global,
    attempt: Attempt,
    key: &Key,
    id: &TxnId,
    name: &Name,
    told: Result<Option<Bytes>, DoorFault>,
) -> Got
    requires { name_text name.now ≡ version_name key.now id.now }
    ensures tells { Tells attempt key.now id.now told result }
    ensures may { MayCome id.now result }
    ensures fault { IsTrue (tells_fault result) → told ≡ Err DoorFault.Failed }
{
    match told {
        Ok(None) => Got::Refused(Reply::Missing(*id)),
        Ok(Some(bytes)) => found(alloc, key, id, name, &bytes),
        Err(fault) => Got::Refused(refusal(fault, attempt)),
    }
}

/// What the types of a key and of an id tell a proof of them.
fn words_fit(key: &Key, id: &TxnId)
    ensures key { IsKey key.now }
    ensures id { IsWritableId id.now }
{
    key.bytes();
    let _time = id.time;
    uuid_bytes(&id.uuid);
}

/// What bytes under a version's name are: the version's value, or damage.
fn found(alloc: Global, key: &Key, id: &TxnId, name: &Name, bytes: &Bytes) -> Got
    requires { name_text name.now ≡ version_name key.now id.now }
    ensures read { (result ≡ read_as key.now id.now (version_of bytes.now)) ⊎ (result ≡ no_memory) }
    ensures may { MayCome id.now result }
    ensures fault { IsFalse (tells_fault result) }
{
    match Version::decode(alloc, bytes.as_slice()) {
        Ok(version) => value_of(alloc, key, id, name, version),
        Err(RecordFault::Memory) => Got::Refused(Reply::NoMemory),
        Err(_) => damaged(alloc, name),
    }
}

/// The value of the version that was asked for; another one is damage.
fn value_of(alloc: Global, key: &Key, id: &TxnId, name: &Name, version: Version) -> Got
    requires { name_text name.now ≡ version_name key.now id.now }
    ensures read { (result ≡ read_as key.now id.now (Ok version)) ⊎ (result ≡ no_memory) }
    ensures may { MayCome id.now result }
    ensures fault { IsFalse (tells_fault result) }
{
    if is_it(&version, key, id) {
        Got::Version(version.value)
    } else {
        damaged(alloc, name)
    }
}

/// Whether a version is of this key and id.
fn is_it(version: &Version, key: &Key, id: &TxnId) -> bool
    ensures { result ≡ (bytes_eq key.now version.now.key && same_id id.now version.now.id) }
{
    *key == version.key && *id == version.id
}

/// That what stands under a name is damaged.
fn damaged(alloc: Global, name: &Name) -> Got
    ensures { (result ≡ Got.Refused (Reply.Damaged (name_text name.now))) ⊎ (result ≡ no_memory) }
{
    match name.write(alloc) {
        Ok(text) => Got::Refused(Reply::Damaged(text)),
        Err(_) => Got::Refused(Reply::NoMemory),
    }
}
