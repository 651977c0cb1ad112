//! The read set.

use aft_id::TxnId;
use aft_model::ReadSet;
use aft_records::Key;
use std::test::Fail;

#[test]
fn read_sets(rt: HostRuntime) -> Result<(), Fail> {
    let alloc = rt.alloc();
    let x = Key::new(alloc, b"x")?;
    let y = Key::new(alloc, b"y")?;
    let mut reads = ReadSet::new(alloc);
    let absent = reads.at(&x);
    assert!(rt; absent.is_none());
    reads.add(x.clone()?, TxnId::zero())?;
    assert!(rt; reads.at(&x) == Some(TxnId::zero()));
    assert!(rt; reads.at(&y).is_none());
    assert_eq!(rt; reads.pairs().len(), 1);
    Ok(())
}
