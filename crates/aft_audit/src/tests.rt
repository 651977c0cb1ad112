//! What no clause says: that the calls succeed where memory is ample, on pairs that are damaged in each way.

use crate::{AuditFault, audit, offender, upgrade};
use aft_door::Door;
use aft_id::{Bytes, List, TxnId};
use aft_keeper::{Keeper, MemKeeper};
use aft_records::{Commit, Key, Keys, Marker, Name, Origin, Record, Version};
use std::alloc::Global;
use std::process::Abort;
use uuid::Uuid;

/// An id whose UUID is a number.
fn id_of(time: u64, number: u128) -> TxnId {
    TxnId {
        time,
        uuid: Uuid::from_u128(number),
    }
}

/// The name of an id's record.
fn record_of(id: &TxnId) -> Name {
    Name::CommitOf { uuid: id.uuid }
}

/// The name of an id's marker.
fn marker_of(id: &TxnId) -> Name {
    Name::RetiredOf { uuid: id.uuid }
}

/// The commit of an id that wrote x.
fn commit_of(rt: &impl Abort, alloc: Global, id: &TxnId) -> Commit {
    let mut keys = Vec::new(alloc);
    let key = Key::new(alloc, b"x").expect(rt, "a key");
    keys.push(key).expect(rt, "memory");
    let keys = Keys::new(List::from_vec(keys)).expect(rt, "keys");
    Commit { id: *id, keys }
}

/// A store with nothing in it.
fn empty(alloc: Global) -> MemKeeper {
    let nothing = List::from_vec(Vec::new(alloc));
    MemKeeper::new(alloc, nothing, List::from_vec(Vec::new(alloc)))
}

/// Puts bytes under a name.
fn put(rt: &impl Abort, alloc: Global, store: &mut MemKeeper, name: &Name, bytes: &[u8]) {
    let name = name.write(alloc).expect(rt, "memory");
    assert!(rt; !name.as_str().as_bytes().is_empty());
    store.put(name.as_str(), bytes).expect(rt, "done");
}

/// Puts the record of a commit that wrote x.
fn put_record(rt: &impl Abort, alloc: Global, store: &mut MemKeeper, id: &TxnId) {
    let commit = commit_of(rt, alloc, id);
    let bytes = commit.encode(alloc).expect(rt, "memory");
    put(rt, alloc, store, &record_of(id), bytes.as_slice());
}

/// Puts the version of x of an id.
fn put_version(rt: &impl Abort, alloc: Global, store: &mut MemKeeper, id: &TxnId) {
    let key = Key::new(alloc, b"x").expect(rt, "a key");
    let name = Name::VersionOf {
        key: key.clone().expect(rt, "memory"),
        id: *id,
    };
    let value = Vec::from_slice(alloc, b"hi").expect(rt, "memory");
    let version = Version {
        id: *id,
        key,
        value: Bytes::from_vec(value),
    };
    let bytes = version.encode(alloc).expect(rt, "memory");
    put(rt, alloc, store, &name, bytes.as_slice());
}

/// What is found of the store's pairs is this name, or nothing where it is empty.
fn expect(rt: &impl Abort, alloc: Global, store: &mut MemKeeper, want: &str) {
    let page = store.scan("", "", 64).expect(rt, "a page");
    let found = offender(alloc, &page).expect(rt, "memory");
    match found {
        Some(name) => assert!(rt; *name.as_str() == *want),
        None => assert!(rt; want.as_bytes().is_empty()),
    }
}

#[test]
fn versions(rt: HostRuntime) {
    let alloc = rt.alloc();
    let mut store = empty(alloc);
    let id = id_of(1000, 1);
    put_record(&rt, alloc, &mut store, &id);
    let absent = "v/78/00000000000003e8-00000000000000000000000000000001";
    expect(&rt, alloc, &mut store, absent);
    put_version(&rt, alloc, &mut store, &id);
    expect(&rt, alloc, &mut store, "");
    let name = record_of(&id_of(1000, 2));
    put(&rt, alloc, &mut store, &name, b"AC1");
    expect(&rt, alloc, &mut store, "c/00000000000000000000000000000002");
}

/// Puts a commit that wrote x, whole, and a marker of an id.
fn put_marked(rt: &impl Abort, alloc: Global, store: &mut MemKeeper, id: &TxnId, marker: &Marker) {
    put_record(rt, alloc, store, id);
    put_version(rt, alloc, store, id);
    let bytes = marker.encode(alloc).expect(rt, "memory");
    put(rt, alloc, store, &marker_of(id), bytes.as_slice());
}

#[test]
fn markers(rt: HostRuntime) {
    let alloc = rt.alloc();
    let mut store = empty(alloc);
    let id = id_of(1000, 1);
    let short = Marker::Done(id_of(1000, 1));
    put_marked(&rt, alloc, &mut store, &id, &short);
    let marker = "r/00000000000000000000000000000001";
    expect(&rt, alloc, &mut store, marker);
    let full = Marker::Full(commit_of(&rt, alloc, &id));
    put_marked(&rt, alloc, &mut store, &id, &full);
    expect(&rt, alloc, &mut store, marker);
    let newer = id_of(1001, 2);
    put_record(&rt, alloc, &mut store, &newer);
    put_version(&rt, alloc, &mut store, &newer);
    expect(&rt, alloc, &mut store, "");
}

/// What an audit of a store answers is this name, or that all is sound where it is empty.
fn expect_audit(rt: &impl Abort, alloc: Global, store: MemKeeper, want: &str) {
    let mut door = Door::new(alloc, store);
    match audit(alloc, &mut door) {
        Ok(_) => assert!(rt; want.as_bytes().is_empty()),
        Err(AuditFault::Damaged { name }) => assert!(rt; *name.as_str() == *want),
        Err(_) => assert!(rt; false),
    }
}

#[test]
fn audits(rt: HostRuntime) {
    let alloc = rt.alloc();
    let id = id_of(1000, 1);
    let mut store = empty(alloc);
    put_record(&rt, alloc, &mut store, &id);
    let absent = "v/78/00000000000003e8-00000000000000000000000000000001";
    expect_audit(&rt, alloc, store, absent);
    let mut store = empty(alloc);
    put_record(&rt, alloc, &mut store, &id);
    put_version(&rt, alloc, &mut store, &id);
    expect_audit(&rt, alloc, store, "");
}

/// Puts the record of a commit that wrote x, in the second format.
fn put_second(rt: &impl Abort, alloc: Global, store: &mut MemKeeper, id: &TxnId) {
    let reads = List::from_vec(Vec::new(alloc));
    let origin = Origin {
        node: 1,
        inc: 1,
        reads,
    };
    let commit = commit_of(rt, alloc, id);
    let record = Record { commit, origin };
    let bytes = record.encode(alloc).expect(rt, "memory");
    put(rt, alloc, store, &record_of(id), bytes.as_slice());
}

#[test]
fn upgrades(rt: HostRuntime) {
    let alloc = rt.alloc();
    let mut store = empty(alloc);
    let first = id_of(1000, 1);
    put_record(&rt, alloc, &mut store, &first);
    put_version(&rt, alloc, &mut store, &first);
    let second = id_of(1001, 2);
    put_second(&rt, alloc, &mut store, &second);
    put_version(&rt, alloc, &mut store, &second);
    let mut door = Door::new(alloc, store);
    let commits = audit(alloc, &mut door).expect(&rt, "sound");
    let puts = upgrade(alloc, &mut door, &commits).expect(&rt, "done");
    assert!(rt; puts == 1);
    let puts = upgrade(alloc, &mut door, &commits).expect(&rt, "done");
    assert!(rt; puts == 0);
}
