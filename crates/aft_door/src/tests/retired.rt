//! A commit that was written over is given up, marked and deleted, and its UUID is forgotten.

ghost use Rattle.std.specs.Prelude.{◌≡◌, ◌∷◌, ◌++◌, [], IsTrue};
ghost use Rattle.aft_door.specs.Calls.{may_ask};
ghost use Rattle.aft_door.specs.Entries.{called, gave_up, who_calls};
ghost use Rattle.aft_door.specs.Tried.{caller_of, key_x, marked_older, older, retired_older, written_over};
ghost use Rattle.aft_keeper.specs.declared.keeper.KeeperAnswer.TheVariants as answers;
ghost use Rattle.aft_keeper.specs.declared.keeper.KeeperCall.TheVariants as calls;
ghost use Rattle.aft_model.specs.DoorKnowledge.{is_open, knows_marked, knows_record_gone, knows_short_of, knows_superseded, knows_versions_gone};
ghost use Rattle.aft_model.specs.Readings.{marker_name, record_name, version_name};
ghost use Rattle.aft_records.specs.Names.{name_text};
ghost use Rattle.aft_records.specs.Rows.{marker_row};

use super::{caller, claim, come_up, commit, commit_of, copied, id_of, let_go, open_door, take};
use crate::{Door, DoorFault};
use aft_id::{Bytes, TxnId};
use aft_keeper::MemKeeper;
use aft_model::Caller;
use aft_records::{Commit, Key, Marker, Name};
use std::alloc::Global;
use std::process::Abort;

/// Nodes 2 and 1 come up, and node 1 commits a key by two transactions.
fn written_twice(rt: &impl Abort, alloc: Global, key: &Key) -> Door<MemKeeper>
    requires { key.now ≡ key_x }
    ensures { result.history ≡ written_over }
{
    let mut door = open_door(rt, alloc);
    come_up(rt, &mut door, 2);
    come_up(rt, &mut door, 1);
    let older = id_of(1000, 1);
    commit(rt, alloc, &mut door, &older, key);
    let_go(rt, &mut door, caller(1), older.uuid);
    commit(rt, alloc, &mut door, &id_of(1001, 2), key);
    door
}

/// An incarnation gives the commit of an id up.
fn give_up(rt: &impl Abort, door: &mut Door<MemKeeper>, who: Caller, id: &TxnId)
    requires { IsTrue (is_open door.old.history) }
    ensures open { IsTrue (is_open door.new.history) }
    ensures history { door.new.history ≡ door.old.history ++ gave_up who id.now ∷ [] }
{
    door.give_up(who, copied(id)).expect(rt, "given up");
}

/// A node that has kept a commit keeps it from being marked.
fn hold_out(rt: &impl Abort, door: &mut Door<MemKeeper>, commit: &Commit, node: u32)
    requires open { IsTrue (is_open door.old.history) }
    requires superseded { IsTrue (knows_superseded commit.now door.old.history) }
    ensures open { IsTrue (is_open door.new.history) }
    ensures history { door.new.history ≡ door.old.history }
{
    let held = door.put_marker(caller(0), commit);
    assert!(rt; held == Err(DoorFault::Holdout { node, inc: 1 }));
}

/// The office marks a commit.
fn mark(rt: &impl Abort, door: &mut Door<MemKeeper>, commit: &Commit)
    requires open { IsTrue (is_open door.old.history) }
    requires superseded { IsTrue (knows_superseded commit.now door.old.history) }
    ensures open { IsTrue (is_open door.new.history) }
    ensures history { door.new.history ≡ door.old.history ++ called (caller_of 0) (calls.Put (marker_name commit.now.id.uuid) (marker_row (Marker.Full commit.now))) answers.Done ∷ [] }
{
    door.put_marker(caller(0), commit).expect(rt, "marked");
}

/// The nodes that are up give the older commit up, and the office marks it. Until then the least of them holds out.
fn mark_older(rt: &impl Abort, door: &mut Door<MemKeeper>, commit: &Commit)
    requires history { door.old.history ≡ written_over }
    requires commit { commit.now ≡ older }
    ensures open { IsTrue (is_open door.new.history) }
    ensures history { door.new.history ≡ marked_older }
{
    hold_out(rt, door, commit, 1);
    give_up(rt, door, caller(1), &commit.id);
    hold_out(rt, door, commit, 2);
    give_up(rt, door, caller(2), &commit.id);
    mark(rt, door, commit);
}

/// The office deletes the record of an id.
fn delete_record(rt: &impl Abort, door: &mut Door<MemKeeper>, id: &TxnId)
    requires open { IsTrue (is_open door.old.history) }
    requires marked { IsTrue (knows_marked id.now.uuid door.old.history) }
    ensures open { IsTrue (is_open door.new.history) }
    ensures history { door.new.history ≡ door.old.history ++ called (caller_of 0) (calls.Delete (record_name id.now.uuid)) answers.Done ∷ [] }
{
    door.delete_record(caller(0), id.uuid).expect(rt, "deleted");
}

/// The office deletes a version.
fn delete_version(rt: &impl Abort, door: &mut Door<MemKeeper>, key: &Key, id: &TxnId)
    requires open { IsTrue (is_open door.old.history) }
    requires gone { IsTrue (knows_record_gone id.now door.old.history) }
    ensures open { IsTrue (is_open door.new.history) }
    ensures history { door.new.history ≡ door.old.history ++ called (caller_of 0) (calls.Delete (version_name key.now id.now)) answers.Done ∷ [] }
{
    door.delete_version(caller(0), key, copied(id))
        .expect(rt, "deleted");
}

/// The office puts the short marker of an id.
fn put_done(rt: &impl Abort, door: &mut Door<MemKeeper>, id: &TxnId)
    requires open { IsTrue (is_open door.old.history) }
    requires gone { IsTrue (knows_versions_gone id.now door.old.history) }
    ensures open { IsTrue (is_open door.new.history) }
    ensures history { door.new.history ≡ door.old.history ++ called (caller_of 0) (calls.Put (marker_name id.now.uuid) (marker_row (Marker.Done id.now))) answers.Done ∷ [] }
{
    door.put_done(caller(0), copied(id)).expect(rt, "done");
}

/// The office deletes what the older commit has in the store, and puts its short marker.
fn retire_older(rt: &impl Abort, door: &mut Door<MemKeeper>, key: &Key, id: &TxnId)
    requires open { IsTrue (is_open door.old.history) }
    requires history { door.old.history ≡ marked_older }
    requires key { key.now ≡ key_x }
    requires id { id.now ≡ older.id }
    ensures open { IsTrue (is_open door.new.history) }
    ensures history { door.new.history ≡ retired_older }
{
    delete_record(rt, door, id);
    delete_version(rt, door, key, id);
    put_done(rt, door, id);
}

/// A get that finds these bytes.
pub(super) fn find(
    rt: &impl Abort,
    door: &mut Door<MemKeeper>,
    who: Caller,
    name: &Name,
    bytes: &Bytes,
)
    requires { IsTrue (may_ask who (calls.Get (name_text name.now)) door.old.history) }
    ensures { door.new.history ≡ door.old.history ++ called who (calls.Get (name_text name.now)) (answers.Found bytes.now) ∷ [] }
{
    let found = door.get(who, name).expect(rt, "an answer");
    let found = found.expect(rt, "bytes");
    assert!(rt; *found.as_slice() == *bytes.as_slice());
}

/// The short marker of an id, as stored.
fn short_marker(rt: &impl Abort, alloc: Global, id: &TxnId) -> Bytes
    ensures { result ≡ marker_row (Marker.Done id.now) }
{
    let marker = Marker::Done(copied(id));
    marker.encode(alloc).expect(rt, "memory")
}

/// Deletes the short marker of an id, of which its UUID is forgotten.
fn forget(rt: &impl Abort, door: &mut Door<MemKeeper>, who: Caller, id: &TxnId)
    requires open { IsTrue (is_open door.old.history) }
    requires short { IsTrue (knows_short_of (who_calls who) id.now door.old.history) }
    ensures { IsTrue (is_open door.new.history) }
{
    assert!(rt; !door.forgotten(id.uuid));
    door.forget(who, copied(id)).expect(rt, "forgotten");
    assert!(rt; door.forgotten(id.uuid));
}

/// A node claims the UUID of the older commit, finds the short marker, and forgets it.
fn forget_older(rt: &impl Abort, alloc: Global, door: &mut Door<MemKeeper>, id: &TxnId)
    requires open { IsTrue (is_open door.old.history) }
    requires history { door.old.history ≡ retired_older }
    requires id { id.now ≡ older.id }
    ensures { IsTrue (is_open door.new.history) }
{
    let who = caller(1);
    take(rt, door, who, id.uuid);
    let bytes = short_marker(rt, alloc, id);
    find(rt, door, who, &Name::RetiredOf { uuid: id.uuid }, &bytes);
    forget(rt, door, who, id);
    let_go(rt, door, who, id.uuid);
}

#[test]
fn retires(rt: HostRuntime) {
    let alloc = rt.alloc();
    let key = Key::new(alloc, b"x").expect(&rt, "a key");
    let id = id_of(1000, 1);
    let mut door = written_twice(&rt, alloc, &key);
    let commit = commit_of(&rt, alloc, &id, &key);
    mark_older(&rt, &mut door, &commit);
    retire_older(&rt, &mut door, &key, &id);
    forget_older(&rt, alloc, &mut door, &id);
    let closed = claim(&rt, &mut door, caller(1), id.uuid);
    assert!(rt; closed == Err(DoorFault::Forgotten));
    assert!(rt; door.claim_place(id.uuid).is_none());
    // The record and the version of the newer commit alone are left.
    let (keeper, _) = door.close();
    assert!(rt; keeper.contents().len() == 2);
}
