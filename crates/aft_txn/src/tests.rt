//! What no contract says: that each call succeeds where memory is ample.

use crate::table::TxnTable;
use aft_id::{Bytes, TxnId};
use aft_records::Key;
use std::alloc::{AllocError, Global};
use std::test::Fail;
use uuid::Uuid;

/// One byte.
fn byte(alloc: Global, b: u8) -> Result<Bytes, AllocError> {
    let mut bytes = Vec::new(alloc);
    bytes.push(b)?;
    Ok(Bytes::from_vec(bytes))
}

/// What was put is buffered.
#[test]
fn puts(rt: HostRuntime) -> Result<(), Fail> {
    let alloc = rt.alloc();
    let mut table = TxnTable::new(alloc);
    let number = table.begin(Uuid::nil())?;
    assert_eq!(rt; number, 1);
    table.run(number);
    table.put(number, Key::new(alloc, b"x")?, byte(alloc, 7)?)?;
    assert_eq!(rt; table.writes(number)?.as_slice().len(), 1);
    Ok(())
}

/// What was read is pinned.
#[test]
fn reads(rt: HostRuntime) -> Result<(), Fail> {
    let alloc = rt.alloc();
    let mut table = TxnTable::new(alloc);
    let number = table.begin(Uuid::nil())?;
    table.run(number);
    table.note_read(number, Key::new(alloc, b"y")?, TxnId::zero(), false)?;
    assert!(rt; table.pinned(TxnId::zero()));
    Ok(())
}
