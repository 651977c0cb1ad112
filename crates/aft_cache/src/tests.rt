//! What no contract says: that each call succeeds where memory is ample.

use crate::data_cache::DataCache;
use crate::spot::Spot;
use aft_id::{Bytes, TxnId};
use aft_records::Key;
use std::test::Fail;

/// With one place the second value takes the first one's; used again, the second stays.
#[test]
fn keeps_as_many_as_fit(rt: HostRuntime) -> Result<(), Fail> {
    let alloc = rt.alloc();
    let x = Spot {
        key: Key::new(alloc, b"x")?,
        id: TxnId::zero(),
    };
    let mut cache = DataCache::new(alloc, 1)?;
    assert!(rt; cache.look(&x).is_none());
    cache.keep(
        Key::new(alloc, b"x")?,
        TxnId::zero(),
        Bytes::from_vec(b"a".to_vec(alloc)?),
    )?;
    assert!(rt;
        cache
            .look(&x)
            .is_some_and(|value| value.as_slice() == b"a".as_slice())
    );
    cache.keep(
        Key::new(alloc, b"x")?,
        TxnId::zero(),
        Bytes::from_vec(b"b".to_vec(alloc)?),
    )?;
    assert!(rt;
        cache
            .look(&x)
            .is_some_and(|value| value.as_slice() == b"b".as_slice())
    );
    cache.keep(
        Key::new(alloc, b"y")?,
        TxnId::zero(),
        Bytes::from_vec(b"c".to_vec(alloc)?),
    )?;
    assert!(rt; cache.look(&x).is_none());
    let y = Spot {
        key: Key::new(alloc, b"y")?,
        id: TxnId::zero(),
    };
    assert!(rt;
        cache
            .look(&y)
            .is_some_and(|value| value.as_slice() == b"c".as_slice())
    );
    cache.clear();
    Ok(())
}

/// A value that is peeked at stays where it is: the last used one, and not it, outlives the next.
#[test]
fn peeks_and_leaves_the_order(rt: HostRuntime) -> Result<(), Fail> {
    let alloc = rt.alloc();
    let id = TxnId::zero();
    let x = Spot {
        key: Key::new(alloc, b"x")?,
        id,
    };
    let mut cache = DataCache::new(alloc, 2)?;
    for name in [b"x", b"y"] {
        let value = Bytes::from_vec(name.to_vec(alloc)?);
        cache.keep(Key::new(alloc, name)?, id, value)?;
    }
    assert!(rt;
        cache
            .peek(&x)
            .is_some_and(|value| value.as_slice() == b"x".as_slice())
    );
    let value = Bytes::from_vec(b"z".to_vec(alloc)?);
    cache.keep(Key::new(alloc, b"z")?, id, value)?;
    assert!(rt; cache.peek(&x).is_none());
    Ok(())
}
