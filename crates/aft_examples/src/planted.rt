//! A store that shows what AFT didn't write there.

ghost use Rattle.std.specs.Prelude.{None};

use aft_id::{Bytes, List};
use aft_keeper::{Keeper, KeeperFault, Pair};
use std::alloc::Global;

/// A store that forgets each put, and shows the same bytes under one name.
#[derive(Drop)]
pub struct Planted<'a> {
    pub alloc: Global,
    pub name: &'a str,
    pub bytes: &'a [u8],
}

impl Keeper for Planted<'_> {
    ghost faults = { λ store. 0 };

    ghost contents = { λ store. None };

    ghost log = { λ store. None };

    fn get(&mut self, name: &str) -> Result<Option<Bytes>, KeeperFault> {
        if *name != *self.name {
            return Ok(None);
        }
        match Vec::from_slice(self.alloc, self.bytes) {
            Ok(bytes) => Ok(Some(Bytes::from_vec(bytes))),
            Err(_) => Err(KeeperFault::Memory),
        }
    }

    fn put(&mut self, _name: &str, _bytes: &[u8]) -> Result<(), KeeperFault> {
        Ok(())
    }

    fn delete(&mut self, _name: &str) -> Result<(), KeeperFault> {
        Ok(())
    }

    fn scan(
        &mut self,
        _prefix: &str,
        _after: &str,
        _limit: u32,
    ) -> Result<List<Pair>, KeeperFault> {
        Ok(List::from_vec(Vec::new(self.alloc)))
    }

    ghost in_order = { λ store. tt };
}
