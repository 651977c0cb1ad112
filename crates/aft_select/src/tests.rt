//! That the choice succeeds, on the worked choices.

use crate::select;
use aft_id::{List, TxnId};
use aft_meta::{CommitSet, Learnt, Meta, PlainMeta};
use aft_model::{Blocked, Choice, ReadSet};
use aft_records::{Commit, Key, Keys};
use std::alloc::Global;
use std::process::Abort;
use std::test::Fail;
use uuid::Uuid;

/// The id of a time and of the UUID with a number.
fn id_of(time: u64, number: u128) -> TxnId {
    TxnId {
        time,
        uuid: Uuid::from_u128(number),
    }
}

/// Learns a commit of keys that ascend.
fn learn<M: CommitSet>(
    alloc: Global,
    meta: &mut M,
    id: TxnId,
    names: &[&str],
) -> Result<Learnt, Fail> {
    let mut keys = Vec::new(alloc);
    for name in names {
        keys.push(Key::new(alloc, name.as_bytes())?)?;
    }
    let keys = Keys::new(List::from_vec(keys))?;
    Ok(meta.learn(&Commit { id, keys })?)
}

/// What was read of one key.
fn read_of(alloc: Global, name: &str, id: TxnId) -> Result<ReadSet, Fail> {
    let mut reads = ReadSet::new(alloc);
    let key = Key::new(alloc, name.as_bytes())?;
    if reads.at(&key).is_none() {
        reads.add(key, id)?;
    }
    Ok(reads)
}

/// Whether a choice is that of this version.
fn is_version(choice: &Choice, id: TxnId) -> bool {
    match choice {
        Choice::Version(chosen) => *chosen == id,
        _ => false,
    }
}

/// The choices beside a key that was read as absent: it blocks a commit that wrote it, and stays absent.
fn absent_reads<M: CommitSet + Drop>(rt: &impl Abort, alloc: Global) -> Result<(), Fail> {
    let new = id_of(1001, 1);
    let x = Key::new(alloc, b"x")?;
    let y = Key::new(alloc, b"y")?;
    let reads = read_of(alloc, "x", TxnId::zero())?;
    let mut meta = M::new(alloc);
    assert!(rt; matches!(select(alloc, &meta, &reads, &y)?, Choice::Absent));
    assert_eq!(rt; learn(alloc, &mut meta, new, &["x", "y"])?, Learnt::Taken);
    match select(alloc, &meta, &reads, &y)? {
        Choice::NoneFits(blocked) => match blocked.as_slice() {
            [one] => {
                assert!(rt; one.id == new && one.key == x && one.read == TxnId::zero());
            }
            _ => assert!(rt; false),
        },
        _ => assert!(rt; false),
    }
    assert!(rt; matches!(select(alloc, &meta, &reads, &x)?, Choice::Absent));
    Ok(())
}

/// The choices between an older version and a newer one whose commit wrote another key too.
fn two_versions<M: CommitSet + Drop>(rt: &impl Abort, alloc: Global) -> Result<(), Fail> {
    let (old, new) = (id_of(1000, 3), id_of(1001, 1));
    let y = Key::new(alloc, b"y")?;
    let mut meta = M::new(alloc);
    assert_eq!(rt; learn(alloc, &mut meta, old, &["y"])?, Learnt::Taken);
    assert_eq!(rt; learn(alloc, &mut meta, new, &["x", "y"])?, Learnt::Taken);
    let table = [
        ("x", TxnId::zero(), old),
        ("y", old, old),
        ("x", new, new),
        ("z", TxnId::zero(), new),
    ];
    for (name, id, want) in table {
        let reads = read_of(alloc, name, id)?;
        let choice = select(alloc, &meta, &reads, &y)?;
        assert!(rt; is_version(&choice, want), "beside {name}");
    }
    Ok(())
}

/// Two versions that are each blocked: both are named, in order, with the key and the read that block them.
fn two_blocked<M: CommitSet + Drop>(rt: &impl Abort, alloc: Global) -> Result<(), Fail> {
    let (old, new) = (id_of(1000, 3), id_of(1001, 1));
    let y = Key::new(alloc, b"y")?;
    let mut reads = read_of(alloc, "x", TxnId::zero())?;
    let z = Key::new(alloc, b"z")?;
    if reads.at(&z).is_none() {
        reads.add(z, id_of(999, 2))?;
    }
    let mut meta = M::new(alloc);
    assert_eq!(rt; learn(alloc, &mut meta, old, &["x", "y"])?, Learnt::Taken);
    assert_eq!(rt; learn(alloc, &mut meta, new, &["y", "z"])?, Learnt::Taken);
    match select(alloc, &meta, &reads, &y)? {
        Choice::NoneFits(blocked) => match blocked.as_slice() {
            [first, second] => {
                assert!(rt; is_blocked(first, old, "x") && is_blocked(second, new, "z"));
            }
            _ => assert!(rt; false),
        },
        _ => assert!(rt; false),
    }
    Ok(())
}

/// Whether this version is blocked by this key.
fn is_blocked(blocked: &Blocked, id: TxnId, name: &str) -> bool {
    blocked.id == id && blocked.key.bytes() == name.as_bytes()
}

/// A version that is chosen beside many reads.
fn many_reads<M: CommitSet + Drop>(rt: &impl Abort, alloc: Global) -> Result<(), Fail> {
    let mut reads = ReadSet::new(alloc);
    for number in 0..40 {
        let key = Key::new(alloc, &[b'k', b'0' + number])?;
        if reads.at(&key).is_none() {
            reads.add(key, id_of(900, number.into()))?;
        }
    }
    assert_eq!(rt; reads.pairs().len(), 40);
    assert!(rt; reads.has_read(&id_of(900, 39)) && !reads.has_read(&id_of(901, 0)));
    let mut meta = M::new(alloc);
    assert_eq!(rt;
        learn(alloc, &mut meta, id_of(800, 4), &["y"])?,
        Learnt::Taken
    );
    assert_eq!(rt;
        learn(alloc, &mut meta, id_of(1000, 3), &["k0", "y"])?,
        Learnt::Taken
    );
    let y = Key::new(alloc, b"y")?;
    assert!(rt; is_version(&select(alloc, &meta, &reads, &y)?, id_of(800, 4)));
    Ok(())
}

#[test]
fn over_a_list(rt: HostRuntime) -> Result<(), Fail> {
    absent_reads::<PlainMeta>(&rt, rt.alloc())?;
    two_versions::<PlainMeta>(&rt, rt.alloc())?;
    two_blocked::<PlainMeta>(&rt, rt.alloc())?;
    many_reads::<PlainMeta>(&rt, rt.alloc())
}

#[test]
fn over_an_index(rt: HostRuntime) -> Result<(), Fail> {
    absent_reads::<Meta>(&rt, rt.alloc())?;
    two_versions::<Meta>(&rt, rt.alloc())?;
    two_blocked::<Meta>(&rt, rt.alloc())?;
    many_reads::<Meta>(&rt, rt.alloc())
}
