//! The door over a store that lacks memory.

use super::office;
use crate::{Door, DoorFault};
use aft_id::{Bytes, List};
use aft_keeper::{Keeper, KeeperFault, Pair};

/// A store that lacks memory.
#[derive(Drop)]
struct Lacking;

impl Keeper for Lacking {
    ghost use Rattle.std.specs.Prelude.{None};

    ghost faults = { λ store. 0 };

    ghost contents = { λ store. None };

    ghost log = { λ store. None };

    fn get(&mut self, _name: &str) -> Result<Option<Bytes>, KeeperFault> {
        Err(KeeperFault::Memory)
    }

    fn put(&mut self, _name: &str, _bytes: &[u8]) -> Result<(), KeeperFault> {
        Err(KeeperFault::Memory)
    }

    fn delete(&mut self, _name: &str) -> Result<(), KeeperFault> {
        Err(KeeperFault::Memory)
    }

    fn scan(
        &mut self,
        _prefix: &str,
        _after: &str,
        _limit: u32,
    ) -> Result<List<Pair>, KeeperFault> {
        Err(KeeperFault::Memory)
    }

    ghost in_order = { λ store. tt };
}

#[test]
fn lacks_memory(rt: HostRuntime) {
    let mut door = Door::new(rt.alloc(), Lacking);
    let page = door.scan(office(), "c/", "", 64);
    assert!(rt; matches!(page, Err(DoorFault::Memory)));
    assert!(rt; door.len() == 0);
}
