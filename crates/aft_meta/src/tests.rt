//! That calls succeed, and the worked example of counts, on every form of known commits.

use crate::{CommitSet, Learnt, Meta, MetaAct, PlainMeta, replay};
use aft_id::{List, TxnId};
use aft_records::{Commit, Key, Keys};
use std::alloc::Global;
use std::process::Abort;
use std::test::Fail;
use uuid::Uuid;

/// The id of a time and of the UUID with a number.
fn id_of(time: u64, number: u128) -> TxnId {
    TxnId {
        time,
        uuid: Uuid::from_u128(number),
    }
}

/// A commit of keys that ascend.
fn commit(alloc: Global, id: TxnId, names: &[&str]) -> Result<Commit, Fail> {
    let mut keys = Vec::new(alloc);
    for name in names {
        keys.push(Key::new(alloc, name.as_bytes())?)?;
    }
    let keys = Keys::new(List::from_vec(keys))?;
    Ok(Commit { id, keys })
}

/// Learns a commit of keys that ascend.
fn learns<M: CommitSet>(
    alloc: Global,
    set: &mut M,
    id: TxnId,
    names: &[&str],
) -> Result<Learnt, Fail> {
    let commit = commit(alloc, id, names)?;
    Ok(set.learn(&commit)?)
}

/// Whether the commit of keys that ascend is covered.
fn covers<M: CommitSet>(alloc: Global, set: &M, id: TxnId, names: &[&str]) -> Result<bool, Fail> {
    let commit = commit(alloc, id, names)?;
    Ok(set.covered(&commit))
}

/// Looks at the versions of a key, and at the newest of them.
fn has_versions<M: CommitSet>(
    rt: &impl Abort,
    alloc: Global,
    set: &M,
    name: &str,
    want: &[TxnId],
) -> Result<(), Fail> {
    let key = Key::new(alloc, name.as_bytes())?;
    assert_eq!(rt; set.latest(&key), want.last().copied());
    let versions = set.versions(&key)?;
    assert_eq!(rt; versions.as_slice(), want);
    Ok(())
}

/// The newest version of a key below an id.
fn below<M: CommitSet>(
    alloc: Global,
    set: &M,
    name: &str,
    id: TxnId,
) -> Result<Option<TxnId>, Fail> {
    let key = Key::new(alloc, name.as_bytes())?;
    Ok(set.latest_below(&key, id))
}

/// Looks at the ids of all that is known.
fn has_ids<M: CommitSet>(rt: &impl Abort, set: &M, want: &[TxnId]) -> Result<(), Fail> {
    let ids = set.ids()?;
    assert_eq!(rt; ids.as_slice(), want);
    Ok(())
}

/// Looks at the ids of what is superseded.
fn has_superseded<M: CommitSet>(rt: &impl Abort, set: &M, want: &[TxnId]) -> Result<(), Fail> {
    let ids = set.superseded_ids()?;
    assert_eq!(rt; ids.as_slice(), want);
    Ok(())
}

/// The second commit writes one key of the first anew, and the third the other.
fn counts<M: CommitSet>(rt: &impl Abort, alloc: Global, set: &mut M) -> Result<(), Fail> {
    let (first, second, third) = (id_of(1, 1), id_of(2, 2), id_of(3, 3));
    has_versions(rt, alloc, set, "x", &[])?;
    assert_eq!(rt; learns(alloc, set, first, &["x", "y"])?, Learnt::Taken);
    assert_eq!(rt; learns(alloc, set, second, &["x"])?, Learnt::Taken);
    assert!(rt; !set.superseded(first));
    has_superseded(rt, set, &[])?;
    assert_eq!(rt; learns(alloc, set, third, &["y"])?, Learnt::Taken);
    assert!(rt; set.superseded(first) && !set.superseded(second) && !set.superseded(third));
    has_superseded(rt, set, &[first])
}

/// What the three commits are found as.
fn finds<M: CommitSet>(rt: &impl Abort, alloc: Global, set: &M) -> Result<(), Fail> {
    let (first, second, third) = (id_of(1, 1), id_of(2, 2), id_of(3, 3));
    has_versions(rt, alloc, set, "x", &[first, second])?;
    has_versions(rt, alloc, set, "y", &[first, third])?;
    has_ids(rt, set, &[first, second, third])?;
    assert_eq!(rt; set.keys_of(first).map(|keys| keys.list().len()), Some(2));
    assert_eq!(rt; below(alloc, set, "y", third)?, Some(first));
    assert_eq!(rt; below(alloc, set, "y", first)?, None);
    Ok(())
}

/// The superseded one is dropped, and isn't taken again.
fn drops<M: CommitSet>(rt: &impl Abort, alloc: Global, set: &mut M) -> Result<(), Fail> {
    let (first, second, third) = (id_of(1, 1), id_of(2, 2), id_of(3, 3));
    if set.superseded(first) {
        set.remove(first);
    }
    has_superseded(rt, set, &[])?;
    has_versions(rt, alloc, set, "x", &[second])?;
    assert!(rt; set.keys_of(first).is_none() && !set.superseded(first));
    assert!(rt; covers(alloc, set, first, &["x", "y"])?);
    assert_eq!(rt; learns(alloc, set, first, &["x", "y"])?, Learnt::Superseded);
    assert_eq!(rt; learns(alloc, set, third, &["y"])?, Learnt::Known);
    Ok(())
}

/// The worked example of counts.
fn counts_newest_keys<M: CommitSet + Drop>(rt: &impl Abort, alloc: Global) -> Result<(), Fail> {
    let mut set = M::new(alloc);
    counts(rt, alloc, &mut set)?;
    finds(rt, alloc, &set)?;
    drops(rt, alloc, &mut set)
}

/// The commits of the worked example, and a drop of one that isn't superseded yet.
fn acts(alloc: Global) -> Result<List<MetaAct>, Fail> {
    let (first, second, third) = (id_of(1, 1), id_of(2, 2), id_of(3, 3));
    let mut acts = Vec::new(alloc);
    acts.push(MetaAct::Learn(commit(alloc, second, &["x"])?))?;
    acts.push(MetaAct::Learn(commit(alloc, first, &["x", "y"])?))?;
    acts.push(MetaAct::Drop(first))?;
    acts.push(MetaAct::Learn(commit(alloc, third, &["y"])?))?;
    acts.push(MetaAct::Drop(first))?;
    acts.push(MetaAct::Learn(commit(alloc, first, &["x", "y"])?))?;
    acts.push(MetaAct::Learn(commit(alloc, third, &["y"])?))?;
    Ok(List::from_vec(acts))
}

/// The same by acts.
fn replays_acts<M: CommitSet + Drop>(rt: &impl Abort, alloc: Global) -> Result<(), Fail> {
    let want = [
        Learnt::Taken,
        Learnt::Taken,
        Learnt::Taken,
        Learnt::Superseded,
        Learnt::Known,
    ];
    let acts = acts(alloc)?;
    let mut set = M::new(alloc);
    let answers = replay(alloc, &mut set, &acts)?;
    assert_eq!(rt; answers.as_slice(), want.as_slice());
    has_ids(rt, &set, &[id_of(2, 2), id_of(3, 3)])
}

#[test]
fn as_a_list(rt: HostRuntime) -> Result<(), Fail> {
    counts_newest_keys::<PlainMeta>(&rt, rt.alloc())?;
    replays_acts::<PlainMeta>(&rt, rt.alloc())
}

#[test]
fn as_an_index(rt: HostRuntime) -> Result<(), Fail> {
    counts_newest_keys::<Meta>(&rt, rt.alloc())?;
    replays_acts::<Meta>(&rt, rt.alloc())
}
