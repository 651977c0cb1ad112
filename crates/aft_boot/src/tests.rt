//! What no clause says: that an opening comes to a world where memory is ample, and what it tells of stores that it refuses.

use crate::opening;
use aft_audit::AuditFault;
use aft_conf::Conf;
use aft_id::{Bytes, List, TxnId};
use aft_keeper::{Fail, Keeper, MemKeeper};
use aft_model::{NodeAct, NodeEntry, Reply};
use aft_node::Node;
use aft_records::{Commit, Key, Keys, Name, Version};
use std::alloc::Global;
use std::process::Abort;
use uuid::Uuid;

/// For how many lines there is to be room.
const LINES: u32 = 3;

/// A store with nothing in it, whose call of this number fails, if it isn't 0.
fn failing(rt: &impl Abort, alloc: Global, call: u64) -> MemKeeper {
    let mut fails = Vec::new(alloc);
    if call > 0 {
        fails.push(Fail { call, after: false }).expect(rt, "memory");
    }
    MemKeeper::new(
        alloc,
        List::from_vec(Vec::new(alloc)),
        List::from_vec(fails),
    )
}

/// Puts bytes under a name.
fn put(rt: &impl Abort, alloc: Global, store: &mut MemKeeper, name: &Name, bytes: &[u8]) {
    let name = name.write(alloc).expect(rt, "memory");
    assert!(rt; !name.as_str().as_bytes().is_empty());
    store.put(name.as_str(), bytes).expect(rt, "done");
}

/// The id of the commit that tests put.
fn id() -> TxnId {
    TxnId {
        time: 1000,
        uuid: Uuid::from_u128(1),
    }
}

/// Puts the record of a commit that wrote x.
fn put_record(rt: &impl Abort, alloc: Global, store: &mut MemKeeper) {
    let mut keys = Vec::new(alloc);
    keys.push(Key::new(alloc, b"x").expect(rt, "a key"))
        .expect(rt, "memory");
    let keys = Keys::new(List::from_vec(keys)).expect(rt, "keys");
    let commit = Commit { id: id(), keys };
    let bytes = commit.encode(alloc).expect(rt, "memory");
    put(
        rt,
        alloc,
        store,
        &Name::CommitOf { uuid: id().uuid },
        bytes.as_slice(),
    );
}

/// Puts that commit's version of x.
fn put_version(rt: &impl Abort, alloc: Global, store: &mut MemKeeper) {
    let key = Key::new(alloc, b"x").expect(rt, "a key");
    let name = Name::VersionOf {
        key: key.clone().expect(rt, "memory"),
        id: id(),
    };
    let value = Bytes::from_vec(Vec::from_slice(alloc, b"hi").expect(rt, "memory"));
    let version = Version {
        id: id(),
        key,
        value,
    };
    let bytes = version.encode(alloc).expect(rt, "memory");
    put(rt, alloc, store, &name, bytes.as_slice());
}

/// A node serves its first incarnation with so many commits, and has seen so much of the door.
fn expect_node(rt: &impl Abort, node: &Node, number: u32, commits: usize, front: u64) {
    assert!(rt; node.number() == number);
    assert!(rt; node.room() == LINES);
    match node.last() {
        Some(
            NodeEntry {
                front: seen,
                act: NodeAct::Boot { commits: shown, .. },
                answer: Some(Reply::Started { node, inc }),
                ..
            },
        ) => {
            assert!(rt; *seen == front);
            assert!(rt; shown.as_slice().len() == commits);
            assert!(rt; *node == number && *inc == 1);
        }
        _ => assert!(rt; false),
    }
}

/// A world of two nodes is opened over a store, whose audit makes so many entries at the door.
fn expect_world(rt: &impl Abort, alloc: Global, store: MemKeeper, audited: u32, commits: usize) {
    let audited = u64::from(audited);
    match opening(alloc, store, &Conf::default(), LINES) {
        Ok(world) => {
            assert!(rt; world.door.len() == audited + 4);
            assert!(rt; world.boxes.as_slice().len() == 3);
            assert!(rt; world.office.room() == LINES);
            let nodes = world.nodes.as_slice();
            assert!(rt; nodes.len() == 2);
            expect_node(rt, &nodes[0], 1, commits, audited + 2);
            expect_node(rt, &nodes[1], 2, commits, audited + 4);
        }
        Err(_) => assert!(rt; false),
    }
}

#[test]
fn opens(rt: HostRuntime) {
    let alloc = rt.alloc();
    expect_world(&rt, alloc, failing(&rt, alloc, 0), 3, 0);
    let mut store = failing(&rt, alloc, 0);
    put_record(&rt, alloc, &mut store);
    put_version(&rt, alloc, &mut store);
    expect_world(&rt, alloc, store, 4, 1);
}

/// A fault is damage under this name, or the store's where it is empty.
fn expect_fault(rt: &impl Abort, fault: &AuditFault, want: &str) {
    match fault {
        AuditFault::Damaged { name } => assert!(rt; *name.as_str() == *want),
        AuditFault::Store => assert!(rt; want.as_bytes().is_empty()),
        _ => assert!(rt; false),
    }
}

/// No world is opened over a store: the door has so many entries, and this is why, or the store failed where it is empty.
fn expect_none(rt: &impl Abort, alloc: Global, store: MemKeeper, entries: u64, want: &str) {
    match opening(alloc, store, &Conf::default(), LINES) {
        Ok(_) => assert!(rt; false),
        Err((door, fault)) => {
            assert!(rt; door.len() == entries);
            expect_fault(rt, &fault, want);
        }
    }
}

#[test]
fn refuses(rt: HostRuntime) {
    let alloc = rt.alloc();
    expect_none(&rt, alloc, failing(&rt, alloc, 1), 1, "");
    expect_none(&rt, alloc, failing(&rt, alloc, 3), 5, "");
    expect_none(&rt, alloc, failing(&rt, alloc, 4), 7, "");
    let mut store = failing(&rt, alloc, 0);
    put_record(&rt, alloc, &mut store);
    let absent = "v/78/00000000000003e8-00000000000000000000000000000001";
    expect_none(&rt, alloc, store, 3, absent);
}
