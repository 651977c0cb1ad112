//! The office puts a record of the first format anew, in the second.

ghost use Rattle.std.specs.Prelude.{◌≡◌, ◌∷◌, ◌++◌, [], IsTrue};
ghost use Rattle.aft_door.specs.Calls.{may_ask};
ghost use Rattle.aft_door.specs.Tried.{first_page, key_x, older, opened_old, opener, stored_version};
ghost use Rattle.aft_keeper.specs.declared.keeper.KeeperCall.TheVariants as calls;
ghost use Rattle.aft_model.specs.DoorKnowledge.{is_open, is_untouched, shows_first_format};
ghost use Rattle.aft_model.specs.Readings.{record_name};
ghost use Rattle.aft_records.specs.Rows.{commit_row};

use super::retired::find;
use super::{caller, commit_of, empty_version, id_of, office, scan_nothing};
use crate::Door;
use aft_id::{Bytes, List, TxnId};
use aft_keeper::{Keeper, MemKeeper, Pair};
use aft_records::{Commit, Key, Name};
use std::alloc::Global;
use std::process::Abort;

/// The record of a commit in the first format, under its name.
fn old_pair(rt: &impl Abort, alloc: Global, commit: &Commit) -> Pair
    ensures { result ≡ record { name = record_name commit.now.id.uuid; bytes = commit_row commit.now } }
{
    let uuid = commit.id.uuid;
    let name = Name::CommitOf { uuid };
    let name = name.write(alloc).expect(rt, "memory");
    let bytes = commit.encode(alloc).expect(rt, "memory");
    Pair { name, bytes }
}

/// A version without a value, as stored.
fn version_stored(rt: &impl Abort, alloc: Global, id: &TxnId, key: &Key) -> Bytes
    ensures { result ≡ stored_version key.now id.now }
{
    let version = empty_version(rt, alloc, id, key);
    version.encode(alloc).expect(rt, "memory")
}

/// The name of a version.
fn name_of_version(rt: &impl Abort, id: &TxnId, key: &Key) -> Name
    ensures { result ≡ Name.VersionOf key.now id.now }
{
    let key = key.clone().expect(rt, "memory");
    Name::VersionOf { key, id: *id }
}

/// A store with the record of transaction 1, and its version of the key x at time 1000.
fn old_store(rt: &impl Abort, alloc: Global, written: &Bytes, version: &Bytes) -> MemKeeper {
    let nothing = List::from_vec(Vec::new(alloc));
    let mut keeper = MemKeeper::new(alloc, nothing, List::from_vec(Vec::new(alloc)));
    let record_name = "c/00000000000000000000000000000001";
    let put = keeper.put(record_name, written.as_slice());
    assert!(rt; put.is_ok());
    let version_name = "v/78/00000000000003e8-00000000000000000000000000000001";
    let put = keeper.put(version_name, version.as_slice());
    assert!(rt; put.is_ok());
    keeper
}

/// Two pairs are the same.
fn same_pair(rt: &impl Abort, pair: &Pair, other: &Pair)
    ensures { pair.now ≡ other.now }
{
    assert!(rt; *pair.name.as_str() == *other.name.as_str());
    assert!(rt; *pair.bytes.as_slice() == *other.bytes.as_slice());
}

/// A page lists one pair, which is this one.
fn lists_one(rt: &impl Abort, page: &List<Pair>, pair: &Pair)
    ensures { page.now ≡ pair.now ∷ [] }
{
    let pairs = page.as_slice();
    assert!(rt; pairs.len() == 1);
    same_pair(rt, &pairs[0], pair);
}

/// A page of the opening that lists one pair.
fn scan_one(rt: &impl Abort, door: &mut Door<MemKeeper>, prefix: &str, pair: &Pair)
    requires { IsTrue (may_ask opener (calls.Scan prefix.now [] 64) door.old.history) }
    ensures { door.new.history ≡ door.old.history ++ first_page prefix.now (pair.now ∷ []) ∷ [] }
{
    let page = door.scan(office(), prefix, "", 64).expect(rt, "a page");
    lists_one(rt, &page, pair);
}

/// A door over a store with an old record and its version, whose opening has ended.
fn open_old(rt: &impl Abort, alloc: Global, commit: &Commit, key: &Key) -> Door<MemKeeper>
    requires commit { commit.now ≡ older }
    requires key { key.now ≡ key_x }
    ensures { result.history ≡ opened_old }
{
    let written = old_pair(rt, alloc, commit);
    let stored = version_stored(rt, alloc, &commit.id, key);
    let store = old_store(rt, alloc, &written.bytes, &stored);
    let mut door = Door::new(alloc, store);
    scan_one(rt, &mut door, "c/", &written);
    scan_nothing(rt, &mut door, "r/");
    let name = name_of_version(rt, &commit.id, key);
    find(rt, &mut door, office(), &name, &stored);
    door.opened(office().by).expect(rt, "opened");
    door
}

/// The office puts the record of a commit in the second format.
fn upgrade(rt: &impl Abort, door: &mut Door<MemKeeper>, commit: &Commit)
    requires old { IsTrue (shows_first_format commit.now door.old.history) }
    requires untouched { IsTrue (is_untouched door.old.history) }
    ensures { IsTrue (is_open door.new.history) }
{
    door.put_upgrade(caller(0), commit).expect(rt, "put");
}

#[test]
fn upgrades(rt: HostRuntime) {
    let alloc = rt.alloc();
    let key = Key::new(alloc, b"x").expect(&rt, "a key");
    let commit = commit_of(&rt, alloc, &id_of(1000, 1), &key);
    let mut door = open_old(&rt, alloc, &commit, &key);
    upgrade(&rt, &mut door, &commit);
    let name = Name::CommitOf {
        uuid: commit.id.uuid,
    };
    let found = door.get(caller(0), &name).expect(&rt, "an answer");
    let found = found.expect(&rt, "a record");
    let digits = hex::encode(alloc, found.as_slice()).expect(&rt, "memory");
    // The second format, by the office, which is node 0 in incarnation 0 and read nothing.
    let expected =
        "41433200000000000003e8000000000000000000000000000000010000000100000001780000000000000000000000000000000000000000";
    assert!(rt; *digits.as_str() == *expected);
}
