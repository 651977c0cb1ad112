//! What no clause says: that calls succeed where memory is ample, and that refusals come.

ghost use Rattle.std.specs.Prelude.{◌≡◌, ◌≢◌, ◌≤◌, ◌∷◌, ◌++◌, [], IsTrue, length};
ghost use Rattle.aft_door.specs.Calls.{may_ask};
ghost use Rattle.aft_door.specs.Entries.{called, came_up, claimed, released, who_calls};
ghost use Rattle.aft_door.specs.Tried.{caller_of, committing, first_page, id_at, opened_empty, opener, storing};
ghost use Rattle.aft_keeper.specs.declared.keeper.KeeperAnswer.TheVariants as answers;
ghost use Rattle.aft_keeper.specs.declared.keeper.KeeperCall.TheVariants as calls;
ghost use Rattle.aft_model.specs.DoorKnowledge.{is_open, knows_orphan, knows_stored, knows_unused};
ghost use Rattle.aft_model.specs.Membership.{incarnation};
ghost use Rattle.aft_model.specs.Readings.{marker_name, record_name, version_name};
ghost use Rattle.aft_records.specs.Limits.{IsTime, is_origin};
ghost use Rattle.aft_records.specs.Names.{name_text};
ghost use Rattle.aft_records.specs.Rows.{record_row, version_row};
ghost use Rattle.aft_records.specs.Stored.{AreReads, IsVersion, IsWritableCommit, IsWritableId};

mod lacking;
mod refused;
mod retired;
mod upgraded;

use crate::{Door, DoorFault};
use aft_id::{Bytes, List, TxnId, uuid_bytes};
use aft_keeper::{Fail, MemKeeper};
use aft_model::{By, Caller};
use aft_records::{Commit, Key, Keys, Name, Origin, Record, Version};
use std::alloc::Global;
use std::process::Abort;
use uuid::Uuid;

/// The office, in the opening.
fn office() -> Caller
    ensures { result ≡ opener }
{
    let by = By { client: 0, line: 0 };
    Caller {
        node: 0,
        inc: 1,
        by,
    }
}

/// An incarnation 1 of a node, or the office, for line 1 of client 1.
fn caller(node: u32) -> Caller
    ensures { result ≡ caller_of node }
{
    let by = By { client: 1, line: 1 };
    Caller { node, inc: 1, by }
}

/// A scan that shows nothing.
fn scan_nothing(rt: &impl Abort, door: &mut Door<MemKeeper>, prefix: &str)
    requires { IsTrue (may_ask opener (calls.Scan prefix.now [] 64) door.old.history) }
    ensures { door.new.history ≡ door.old.history ++ first_page prefix.now [] ∷ [] }
{
    let page = door.scan(office(), prefix, "", 64).expect(rt, "a page");
    assert!(rt; page.as_slice().is_empty());
}

/// A door over an empty store, whose opening has ended.
fn open_door(rt: &impl Abort, alloc: Global) -> Door<MemKeeper>
    ensures open { IsTrue (is_open result.history) }
    ensures history { result.history ≡ opened_empty }
{
    open_over(rt, alloc, List::from_vec(Vec::new(alloc)))
}

/// The same over a store of which some calls fail.
fn open_over(rt: &impl Abort, alloc: Global, fails: List<Fail>) -> Door<MemKeeper>
    ensures open { IsTrue (is_open result.history) }
    ensures history { result.history ≡ opened_empty }
{
    let nothing = List::from_vec(Vec::new(alloc));
    let mut door = Door::new(alloc, MemKeeper::new(alloc, nothing, fails));
    scan_nothing(rt, &mut door, "c/");
    scan_nothing(rt, &mut door, "r/");
    door.opened(office().by).expect(rt, "opened");
    door
}

/// Lets an incarnation 1 come up.
fn come_up(rt: &impl Abort, door: &mut Door<MemKeeper>, node: u32)
    requires { IsTrue (is_open door.old.history) }
    ensures open { IsTrue (is_open door.new.history) }
    ensures history { door.new.history ≡ door.old.history ++ came_up (caller_of node).by node 1 ∷ [] }
{
    assert!(rt; door.up_now(node).is_none());
    let came = door.up(node, 1, caller(node).by);
    assert!(rt; came.is_ok());
}

/// Claims a UUID that the caller doesn't hold.
fn claim(
    rt: &impl Abort,
    door: &mut Door<MemKeeper>,
    who: Caller,
    uuid: Uuid,
) -> Result<(), DoorFault>
    requires { IsTrue (is_open door.old.history) }
    ensures { IsTrue (is_open door.new.history) }
{
    assert!(rt;
        door.holder(uuid)
            .is_none_or(|held| held != (who.node, who.inc))
    );
    door.claim(who, uuid)
}

/// One incarnation claims a UUID, and another is told so.
fn hold(rt: &impl Abort, door: &mut Door<MemKeeper>, uuid: Uuid)
    requires { IsTrue (is_open door.old.history) }
    ensures { IsTrue (is_open door.new.history) }
{
    let held = claim(rt, door, caller(1), uuid);
    assert!(rt; held.is_ok());
    let busy = claim(rt, door, caller(2), uuid);
    assert!(rt; busy == Err(DoorFault::Busy { node: 1, inc: 1 }));
    assert!(rt; door.holder(uuid) == Some((1, 1)));
    assert!(rt; door.claim_place(uuid) == Some(5));
}

/// Who holds a UUID is shut out, and another one claims it.
fn shut_out(rt: &impl Abort, door: &mut Door<MemKeeper>, uuid: Uuid)
    requires { IsTrue (is_open door.old.history) }
    ensures { IsTrue (is_open door.new.history) }
{
    let other = door.release(caller(2), uuid);
    assert!(rt; other == Err(DoorFault::NotHolder));
    assert!(rt; door.fence(1, caller(2).by) == Some(1));
    let fenced = door.release(caller(1), uuid);
    assert!(rt; fenced == Err(DoorFault::Fenced { node: 1, inc: 1 }));
    assert!(rt; door.next_inc(1) == 2);
    let held = claim(rt, door, caller(2), uuid);
    assert!(rt; held.is_ok());
    let released = door.release(caller(2), uuid);
    assert!(rt; released.is_ok());
}

#[test]
fn claims(rt: HostRuntime) {
    let mut door = open_door(&rt, rt.alloc());
    come_up(&rt, &mut door, 1);
    come_up(&rt, &mut door, 2);
    let uuid = Uuid::from_u128(1);
    hold(&rt, &mut door, uuid);
    shut_out(&rt, &mut door, uuid);
    assert!(rt; door.len() == 9);
    let (_, history) = door.close();
    assert!(rt; history.as_slice().len() == 9);
}

/// A get that finds nothing.
fn find_nothing(rt: &impl Abort, door: &mut Door<MemKeeper>, who: Caller, name: &Name)
    requires { IsTrue (is_open door.old.history) }
    ensures open { IsTrue (is_open door.new.history) }
    ensures history { door.new.history ≡ door.old.history ++ called who (calls.Get (name_text name.now)) answers.Absent ∷ [] }
{
    let found = door.get(who, name).expect(rt, "an answer");
    assert!(rt; found.is_none());
}

/// A claim of a UUID that nobody holds.
fn take(rt: &impl Abort, door: &mut Door<MemKeeper>, who: Caller, uuid: Uuid)
    requires { IsTrue (is_open door.old.history) }
    ensures open { IsTrue (is_open door.new.history) }
    ensures history { door.new.history ≡ door.old.history ++ claimed who uuid ∷ [] }
{
    assert!(rt; door.holder(uuid).is_none());
    door.claim(who, uuid).expect(rt, "claimed");
}

/// Claims a UUID, and finds neither a record nor a marker of it.
fn look(rt: &impl Abort, door: &mut Door<MemKeeper>, who: Caller, uuid: Uuid)
    requires { IsTrue (is_open door.old.history) }
    ensures open { IsTrue (is_open door.new.history) }
    ensures history { door.new.history ≡ door.old.history ++ claimed who uuid ∷ [] ++ called who (calls.Get (record_name uuid)) answers.Absent ∷ [] ++ called who (calls.Get (marker_name uuid)) answers.Absent ∷ [] }
{
    take(rt, door, who, uuid);
    find_nothing(rt, door, who, &Name::CommitOf { uuid });
    find_nothing(rt, door, who, &Name::RetiredOf { uuid });
}

/// The id of a time, and of the UUID of a number.
fn id_of(time: u64, number: u128) -> TxnId
    ensures { result ≡ id_at time number }
{
    TxnId {
        time,
        uuid: Uuid::from_u128(number),
    }
}

/// What the type of an id tells a proof of it.
fn id_fits(id: &TxnId)
    ensures { IsWritableId id.now }
{
    let _time = id.time;
    uuid_bytes(&id.uuid);
}

/// What the type of a version tells a proof of it.
fn version_fits(version: &Version)
    requires short { length version.now.value ≤ 4096 }
    requires timely { IsTime version.now.id.time }
    ensures { IsVersion version.now }
{
    id_fits(&version.id);
    version.key.bytes();
}

/// A version of a key without bytes.
fn empty_version(rt: &impl Abort, alloc: Global, id: &TxnId, key: &Key) -> Version
    ensures { result ≡ record { id = id.now; key = key.now; value = [] } }
{
    let key = key.clone().expect(rt, "memory");
    let value = Bytes::from_vec(Vec::new(alloc));
    Version {
        id: *id,
        key,
        value,
    }
}

/// A put of a version.
fn put_version(rt: &impl Abort, door: &mut Door<MemKeeper>, who: Caller, version: &Version)
    requires open { IsTrue (is_open door.old.history) }
    requires unused { IsTrue (knows_unused (who_calls who) version.now.id.uuid door.old.history) }
    requires timely { IsTime version.now.id.time }
    requires short { length version.now.value ≤ 4096 }
    ensures open { IsTrue (is_open door.new.history) }
    ensures fits { IsVersion version.now }
    ensures history { door.new.history ≡ door.old.history ++ called who (calls.Put (version_name version.now.key version.now.id) (version_row version.now)) answers.Done ∷ [] }
{
    version_fits(version);
    door.put_version(who, version).expect(rt, "stored");
}

/// Claims a UUID, finds it unused, and puts the version of its commit's one key.
fn store(
    rt: &impl Abort,
    alloc: Global,
    door: &mut Door<MemKeeper>,
    who: Caller,
    id: &TxnId,
    key: &Key,
)
    requires open { IsTrue (is_open door.old.history) }
    requires timely { IsTime id.now.time }
    ensures open { IsTrue (is_open door.new.history) }
    ensures stored { IsTrue (knows_stored (who_calls who) (record { id = id.now; keys = key.now ∷ [] }) door.new.history) }
    ensures history { door.new.history ≡ door.old.history ++ storing who key.now id.now }
{
    look(rt, door, who, id.uuid);
    let version = empty_version(rt, alloc, id, key);
    put_version(rt, door, who, &version);
}

/// A commit of one key.
fn commit_of(rt: &impl Abort, alloc: Global, id: &TxnId, key: &Key) -> Commit
    ensures value { result ≡ record { id = id.now; keys = key.now ∷ [] } }
    ensures fits { IsWritableCommit result }
{
    id_fits(id);
    let mut keys = Vec::new(alloc);
    let key = key.clone().expect(rt, "memory");
    keys.push(key).expect(rt, "memory");
    let keys = Keys::new(List::from_vec(keys)).expect(rt, "a key");
    keys.list();
    Commit { id: *id, keys }
}

/// The record of a commit, by a caller that read nothing.
fn record_of(alloc: Global, who: Caller, commit: Commit) -> Record
    ensures { result ≡ record { commit = commit; origin = record { node = who.node; inc = who.inc; reads = [] } } }
{
    let reads = List::from_vec(Vec::new(alloc));
    let origin = Origin {
        node: who.node,
        inc: who.inc,
        reads,
    };
    Record { commit, origin }
}

/// A put of a record by a node.
fn put_record(rt: &impl Abort, door: &mut Door<MemKeeper>, who: Caller, written: &Record)
    requires open { IsTrue (is_open door.old.history) }
    requires node { who.node ≢ 0 }
    requires own { incarnation written.now.origin.node written.now.origin.inc ≡ who_calls who }
    requires stored { IsTrue (knows_stored (who_calls who) written.now.commit door.old.history) }
    requires timely { IsTime written.now.commit.id.time }
    requires origin { IsTrue (is_origin written.now.origin.node written.now.origin.inc (length written.now.origin.reads)) }
    requires reads { AreReads written.now.origin.reads }
    ensures open { IsTrue (is_open door.new.history) }
    ensures history { door.new.history ≡ door.old.history ++ called who (calls.Put (record_name written.now.commit.id.uuid) (record_row written.now)) answers.Done ∷ [] }
{
    door.put_record(who, written).expect(rt, "recorded");
}

/// Commits one key by incarnation 1 of node 1.
fn commit(rt: &impl Abort, alloc: Global, door: &mut Door<MemKeeper>, id: &TxnId, key: &Key)
    requires open { IsTrue (is_open door.old.history) }
    requires timely { IsTime id.now.time }
    ensures open { IsTrue (is_open door.new.history) }
    ensures history { door.new.history ≡ door.old.history ++ committing key.now id.now }
{
    let who = caller(1);
    store(rt, alloc, door, who, id, key);
    let record = record_of(alloc, who, commit_of(rt, alloc, id, key));
    put_record(rt, door, who, &record);
}

#[test]
fn commits(rt: HostRuntime) {
    let alloc = rt.alloc();
    let mut door = open_door(&rt, alloc);
    come_up(&rt, &mut door, 1);
    let key = Key::new(alloc, b"x").expect(&rt, "a key");
    let id = id_of(1000, 1);
    commit(&rt, alloc, &mut door, &id, &key);
    assert!(rt; door.len() == 9);
    assert!(rt; door.put_since(id.uuid, 7) && !door.put_since(id.uuid, 8));
    let page = door.scan(caller(1), "c/", "", 64).expect(&rt, "a page");
    let record = record_of(alloc, caller(1), commit_of(&rt, alloc, &id, &key));
    let bytes = record.encode(alloc).expect(&rt, "memory");
    let name = Name::CommitOf { uuid: id.uuid };
    let found = door.get(caller(1), &name).expect(&rt, "an answer");
    let found = found.expect(&rt, "a record");
    assert!(rt; *found.as_slice() == *bytes.as_slice());
    assert!(rt; page.as_slice().len() == 1);
    let pair = page.as_slice().get(0).expect(&rt, "a pair");
    assert!(rt; *pair.bytes.as_slice() == *bytes.as_slice());
}

/// A copy of an id.
fn copied(id: &TxnId) -> TxnId
    ensures { result ≡ id.now }
{
    *id
}

/// A release of a UUID that the caller holds.
fn let_go(rt: &impl Abort, door: &mut Door<MemKeeper>, who: Caller, uuid: Uuid)
    requires { IsTrue (is_open door.old.history) }
    ensures open { IsTrue (is_open door.new.history) }
    ensures history { door.new.history ≡ door.old.history ++ released who uuid ∷ [] }
{
    door.release(who, uuid).expect(rt, "released");
}

/// Claims the UUID of an id for the office, and finds neither a record nor a marker of it. Gives the place of the claim.
fn look_for_orphan(rt: &impl Abort, door: &mut Door<MemKeeper>, id: &TxnId) -> u64
    requires { IsTrue (is_open door.old.history) }
    ensures open { IsTrue (is_open door.new.history) }
    ensures orphan { IsTrue (knows_orphan id.now result door.new.history) }
{
    let place = door.len();
    look(rt, door, caller(0), id.uuid);
    place
}

/// A delete of an orphan's version.
fn delete_orphan(rt: &impl Abort, door: &mut Door<MemKeeper>, key: &Key, id: &TxnId, place: u64)
    requires open { IsTrue (is_open door.old.history) }
    requires orphan { IsTrue (knows_orphan id.now place door.old.history) }
    requires timely { IsTime id.now.time }
    ensures open { IsTrue (is_open door.new.history) }
    ensures history { door.new.history ≡ door.old.history ++ called (caller_of 0) (calls.Delete (version_name key.now id.now)) answers.Done ∷ [] }
{
    door.delete_orphan(caller(0), key, copied(id), place)
        .expect(rt, "deleted");
}

/// Deletes an orphan's version while the office holds its UUID, and not once it has let that go.
fn clear_orphan(rt: &impl Abort, door: &mut Door<MemKeeper>, key: &Key, id: &TxnId, place: u64)
    requires open { IsTrue (is_open door.old.history) }
    requires orphan { IsTrue (knows_orphan id.now place door.old.history) }
    requires timely { IsTime id.now.time }
{
    delete_orphan(rt, door, key, id, place);
    let_go(rt, door, caller(0), id.uuid);
    let other = door.delete_orphan(caller(0), key, copied(id), place);
    assert!(rt; other == Err(DoorFault::NotHolder));
}

#[test]
fn orphans(rt: HostRuntime) {
    let alloc = rt.alloc();
    let mut door = open_door(&rt, alloc);
    come_up(&rt, &mut door, 1);
    let key = Key::new(alloc, b"x").expect(&rt, "a key");
    let id = id_of(1000, 1);
    store(&rt, alloc, &mut door, caller(1), &id, &key);
    let_go(&rt, &mut door, caller(1), id.uuid);
    let place = look_for_orphan(&rt, &mut door, &id);
    assert!(rt; door.claim_place(id.uuid) == Some(place));
    clear_orphan(&rt, &mut door, &key, &id, place);
    let (keeper, _) = door.close();
    assert!(rt; keeper.contents().is_empty());
}

/// A put of a version that the store fails.
fn fail_put(rt: &impl Abort, door: &mut Door<MemKeeper>, who: Caller, version: &Version)
    requires open { IsTrue (is_open door.old.history) }
    requires unused { IsTrue (knows_unused (who_calls who) version.now.id.uuid door.old.history) }
    requires timely { IsTime version.now.id.time }
    requires short { length version.now.value ≤ 4096 }
{
    let failed = door.put_version(who, version);
    assert!(rt; failed == Err(DoorFault::Failed));
}

/// Claims a UUID, finds it unused, and puts a version that the store fails.
fn store_failing(rt: &impl Abort, alloc: Global, door: &mut Door<MemKeeper>, id: &TxnId)
    requires open { IsTrue (is_open door.old.history) }
    requires timely { IsTime id.now.time }
{
    let key = Key::new(alloc, b"x").expect(rt, "a key");
    let who = caller(1);
    look(rt, door, who, id.uuid);
    let version = empty_version(rt, alloc, id, &key);
    fail_put(rt, door, who, &version);
}

/// How many pairs a store holds, whose fifth call is a put that fails.
fn pairs_behind(rt: &impl Abort, alloc: Global, after: bool) -> usize {
    let mut fails = Vec::new(alloc);
    fails.push(Fail { call: 5, after }).expect(rt, "memory");
    let mut door = open_over(rt, alloc, List::from_vec(fails));
    come_up(rt, &mut door, 1);
    store_failing(rt, alloc, &mut door, &id_of(1000, 1));
    assert!(rt; door.len() == 8);
    let (keeper, _) = door.close();
    keeper.contents().len()
}

#[test]
fn puts_fail(rt: HostRuntime) {
    assert!(rt; pairs_behind(&rt, rt.alloc(), false) == 0);
    assert!(rt; pairs_behind(&rt, rt.alloc(), true) == 1);
}
