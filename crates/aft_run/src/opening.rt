//! The opening of a run.

ghost use Rattle.std.specs.Prelude.{◌≡◌, IsErrOf};
ghost use Rattle.aft_keeper.specs.Cause.{HasCause};

use crate::door::Door;
use crate::limits::PAGE_PAIRS;
use crate::node::{INCARNATION, Node};
use crate::stop::Stop;
use aft_keeper::Keeper;
use aft_model::{By, Caller};

/// Who asks at the opening.
const OPENING: By = By { client: 0, line: 0 };

/// The number of the office, which is always up with incarnation 1.
const OFFICE: u32 = 0;

/// Looks at the records and the markers of the store, and boots both nodes.
pub fn open<K: Keeper>(door: &mut Door<K>, first: &mut Node, second: &mut Node) -> Result<(), Stop>
    ensures cause { HasCause (IsErrOf result Stop.StoreFault) (K.faults door.old.keeper) (K.faults door.new.keeper) }
{
    shows_nothing(door, OFFICE, "c/")?;
    shows_nothing(door, OFFICE, "r/")?;
    door.opened(OPENING)?;
    boot(door, first)?;
    boot(door, second)
}

/// Boots a node.
fn boot<K: Keeper>(door: &mut Door<K>, node: &mut Node) -> Result<(), Stop>
    ensures cause { HasCause (IsErrOf result Stop.StoreFault) (K.faults door.old.keeper) (K.faults door.new.keeper) }
{
    node.booting(door.len(), OPENING)?;
    door.up(node.number(), INCARNATION, OPENING)?;
    shows_nothing(door, node.number(), "c/")?;
    node.boot(door.len(), OPENING)
}

/// Scans the first page of a prefix, which has to be empty: stores that hold something aren't built.
fn shows_nothing<K: Keeper>(door: &mut Door<K>, node: u32, prefix: &str) -> Result<(), Stop>
    ensures cause { HasCause (IsErrOf result Stop.StoreFault) (K.faults door.old.keeper) (K.faults door.new.keeper) }
{
    let who = Caller {
        node,
        inc: INCARNATION,
        by: OPENING,
    };
    let page = door.scan(who, prefix, "", PAGE_PAIRS)?;
    if page.as_slice().is_empty() {
        Ok(())
    } else {
        Err(Stop::NotEmpty)
    }
}
