//! What no contract says of a store that tells nothing: that it keeps what it is given.

use crate::sqlite_keeper::SqliteKeeper;
use aft_keeper::{Keeper, KeeperFault};
use sqlite::{Connection, MemStore};
use std::test::Fail;

/// What is put is found and listed, in order of name; what is deleted is gone.
#[test]
fn keeps_pairs(rt: HostRuntime) -> Result<(), Fail> {
    let mut store = SqliteKeeper::over(rt.alloc(), Connection::open_in_memory(rt.alloc())?)?;
    fill(&mut store)?;
    assert!(rt;
        store
            .get("a/2")?
            .is_some_and(|bytes| bytes.as_slice() == b"new".as_slice())
    );
    assert!(rt; store.get("a/4")?.is_none());
    let page = store.scan("a/", "a/1", 2)?;
    assert!(rt; page.as_slice().len() == 2);
    assert!(rt; page.as_slice()[0].name.as_str() == "a/2");
    assert!(rt; page.as_slice()[1].bytes.as_slice() == b"c".as_slice());
    Ok(())
}

/// Three pairs of one prefix, one of them put twice, one of another, and one that is deleted again.
fn fill(store: &mut SqliteKeeper<MemStore>) -> Result<(), KeeperFault> {
    store.put("b/1", b"d")?;
    store.put("a/3", b"c")?;
    store.put("a/1", b"a")?;
    store.put("a/2", b"b")?;
    store.put("a/2", b"new")?;
    store.put("a/4", b"gone")?;
    store.delete("a/4")
}
