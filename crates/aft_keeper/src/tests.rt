//! What no clause says: that calls succeed, on tables of examples.

ghost use Rattle.std.specs.Prelude.{◌≡◌, [], IfOk};

use crate::{
    Clock, Fail, FixedClock, Keeper, KeeperFault, MemKeeper, MemSink, MemSource, Pair, Sink,
    SinkFault, Source, SourceFault,
};
use aft_id::{Bytes, List, Text};
use std::alloc::Global;
use std::test::Fail as Failure;

/// A list with nothing in it.
fn empty<T>(alloc: Global) -> List<T>
    ensures { result ≡ [] }
{
    List::from_vec(Vec::new(alloc))
}

/// A store with nothing in it, whose calls fail where it is told.
fn keeper(alloc: Global, fails: &[Fail]) -> Result<MemKeeper, Failure> {
    let fails = List::from_vec(Vec::from_slice(alloc, fails)?);
    Ok(MemKeeper::new(alloc, empty(alloc), fails))
}

/// Puts each name, with itself as its bytes.
fn put_all<K: Keeper>(keeper: &mut K, names: &[&str]) -> Result<(), KeeperFault> {
    for name in names {
        if !name.is_empty() {
            keeper.put(name, name.as_bytes())?;
        }
    }
    Ok(())
}

/// Whether a page has just these names, each as its own bytes.
fn shows(page: &List<Pair>, names: &[&str]) -> bool {
    let pairs = page.as_slice();
    pairs.len() == names.len()
        && pairs.iter().zip(names).all(|(pair, name)| pair.name.as_str() == *name
            && pair.bytes.as_slice() == name.as_bytes())
}

/// Whether a get found these bytes.
fn found(got: &Option<Bytes>, want: Option<&[u8]>) -> bool {
    match (got, want) {
        (None, None) => true,
        (Some(bytes), Some(want)) => bytes.as_slice() == want,
        _ => false,
    }
}

/// A get, through the trait.
fn get<K: Keeper>(keeper: &mut K, name: &str) -> Result<Option<Bytes>, KeeperFault> {
    keeper.get(name)
}

/// A delete, through the trait.
fn delete<K: Keeper>(keeper: &mut K, name: &str) -> Result<(), KeeperFault> {
    keeper.delete(name)
}

/// A scan, through the trait.
fn scan<K: Keeper>(
    keeper: &mut K,
    prefix: &str,
    after: &str,
    limit: u32,
) -> Result<List<Pair>, KeeperFault> {
    keeper.scan(prefix, after, limit)
}

#[test]
fn keeps_pairs(rt: HostRuntime) -> Result<(), Failure> {
    let mut store = keeper(rt.alloc(), &[])?;
    put_all(&mut store, &["b", "a", "c"])?;
    store.put("a", b"new")?;
    delete(&mut store, "b")?;
    delete(&mut store, "absent")?;
    let table: [(&str, Option<&[u8]>); 4] = [
        ("a", Some(b"new")),
        ("b", None),
        ("c", Some(b"c")),
        ("absent", None),
    ];
    for (name, want) in table {
        assert!(rt; found(&get(&mut store, name)?, want), "{name}");
    }
    assert_eq!(rt; store.contents().len(), 2);
    assert_eq!(rt; store.log().len(), 10);
    Ok(())
}

#[test]
fn pages(rt: HostRuntime) -> Result<(), Failure> {
    let mut store = keeper(rt.alloc(), &[])?;
    put_all(
        &mut store,
        &["v/2", "c/3", "r/1", "c/1", "c", "c0", "v/1", "c/2"],
    )?;
    let table: [(&str, &str, u32, &[&str]); 9] = [
        ("c/", "", 64, &["c/1", "c/2", "c/3"]),
        ("c/", "", 2, &["c/1", "c/2"]),
        ("c/", "c/1", 64, &["c/2", "c/3"]),
        ("c/", "c/3", 64, &[]),
        ("c/", "r/1", 64, &[]),
        ("c/", "", 0, &[]),
        ("r/", "c/2", 64, &["r/1"]),
        ("v/", "v/", 64, &["v/1", "v/2"]),
        ("", "", 3, &["c", "c/1", "c/2"]),
    ];
    for (prefix, after, limit, want) in table {
        let page = scan(&mut store, prefix, after, limit)?;
        assert!(rt; shows(&page, want), "{prefix} {after} {limit}");
    }
    Ok(())
}

#[test]
fn a_full_page(rt: HostRuntime) -> Result<(), Failure> {
    let mut store = keeper(rt.alloc(), &[])?;
    for i in 0..65u32 {
        let name = format!(in rt.alloc(); "c/{i:02}")?;
        put_all(&mut store, &[name.as_str()])?;
    }
    let table = [
        ("", 64),
        ("c/00", 64),
        ("c/62", 2),
        ("c/63", 1),
        ("c/64", 0),
    ];
    for (after, want) in table {
        let page = scan(&mut store, "c/", after, 64)?;
        assert_eq!(rt; page.as_slice().len(), want, "{after}");
    }
    Ok(())
}

#[test]
fn fails_where_told(rt: HostRuntime) -> Result<(), Failure> {
    let fails = [
        Fail {
            call: 2,
            after: false,
        },
        Fail {
            call: 3,
            after: true,
        },
        Fail {
            call: 4,
            after: true,
        },
    ];
    let mut store = keeper(rt.alloc(), &fails)?;
    let failed = Err(KeeperFault::Failed);
    assert_eq!(rt; store.put("a", b"1"), Ok(()));
    assert_eq!(rt; store.put("b", b"2"), failed);
    assert_eq!(rt; store.put("c", b"3"), failed);
    assert_eq!(rt; store.delete("a"), failed);
    assert_eq!(rt; scan(&mut store, "", "", 64)?.as_slice().len(), 1);
    store.stop_at(7);
    store.stop_at(9);
    assert_eq!(rt; store.put("d", b"4"), Ok(()));
    assert_eq!(rt; store.delete("d"), failed);
    assert!(rt; get(&mut store, "d").is_err());
    let mut store = store.reopen();
    assert_eq!(rt; store.log().len(), 0);
    assert!(rt; found(&get(&mut store, "d")?, Some(b"4")));
    assert!(rt; found(&get(&mut store, "c")?, Some(b"3")));
    assert!(rt; found(&get(&mut store, "a")?, None));
    Ok(())
}

#[test]
fn opens_with_contents(rt: HostRuntime) -> Result<(), Failure> {
    let contents = vec![in rt.alloc(); pair(rt.alloc(), "a")?, pair(rt.alloc(), "b")?]?;
    let mut store = MemKeeper::new(rt.alloc(), List::from_vec(contents), empty(rt.alloc()));
    assert!(rt; shows(&scan(&mut store, "", "", 64)?, &["a", "b"]));
    Ok(())
}

/// A name with itself as its bytes.
fn pair(alloc: Global, name: &str) -> Result<Pair, Failure>
    ensures { IfOk result (λ p. p.name ≡ name.now) }
{
    Ok(Pair {
        name: Text::from_string(String::from_str(alloc, name)?),
        bytes: Bytes::from_vec(Vec::from_slice(alloc, name.as_bytes())?),
    })
}

/// A read, through the trait: the bytes as they are compared.
fn read<S: Source>(source: &mut S, name: &str, want: Result<&[u8], SourceFault>) -> bool {
    match (source.read(name), want) {
        (Ok(bytes), Ok(want)) => bytes.as_slice() == want,
        (Err(fault), Err(want)) => fault == want,
        _ => false,
    }
}

#[test]
fn reads_files(rt: HostRuntime) -> Result<(), Failure> {
    let files = vec![in rt.alloc(); pair(rt.alloc(), "script")?, pair(rt.alloc(), "order")?]?;
    let fails = List::from_vec(vec![in rt.alloc(); 3]?);
    let mut source = MemSource::new(rt.alloc(), List::from_vec(files), fails);
    let table: [(&str, Result<&[u8], SourceFault>); 4] = [
        ("order", Ok(b"order")),
        ("absent", Err(SourceFault::Absent)),
        ("script", Err(SourceFault::Failed)),
        ("script", Ok(b"script")),
    ];
    for (name, want) in table {
        assert!(rt; read(&mut source, name, want), "{name}");
    }
    Ok(())
}

/// A write, through the trait.
fn write<S: Sink>(sink: &mut S, piece: &[u8]) -> Result<(), SinkFault> {
    sink.write(piece)
}

#[test]
fn takes_output(rt: HostRuntime) -> Result<(), Failure> {
    let mut sink = MemSink::new(rt.alloc(), List::from_vec(vec![in rt.alloc(); 2]?));
    assert_eq!(rt; write(&mut sink, b"one "), Ok(()));
    assert_eq!(rt; write(&mut sink, b"two "), Err(SinkFault::Failed));
    assert_eq!(rt; write(&mut sink, b"three"), Ok(()));
    assert_eq!(rt; sink.taken(), b"one three".as_slice());
    Ok(())
}

/// The time, through the trait.
fn time<C: Clock>(clock: &C) -> u64 {
    clock.now()
}

#[test]
fn stands_still(rt: HostRuntime) {
    let clock = FixedClock { time: 1234 };
    assert_eq!(rt; time(&clock), 1234);
    assert_eq!(rt; time(&clock), 1234);
}
