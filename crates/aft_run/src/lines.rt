//! The lines of a script, run whole and in order.

ghost use Rattle.std.specs.Prelude.{◌≡◌, ◌≤◌, length, IsErrOf, IfErr};
ghost use Rattle.aft_keeper.specs.Cause.{HasCause};
ghost use Rattle.aft_run.specs.Built.{IsBuilt, AreBuilt};

use crate::begin::begin;
use crate::commit::commit;
use crate::door::Door;
use crate::get::get;
use crate::node::Node;
use crate::stop::Stop;
use aft_id::Bytes;
use aft_keeper::{Clock, Keeper};
use aft_model::{Attempt, By, Command, Line, Reply};
use aft_records::Key;

/// Runs each line to its end, in order.
pub fn run_lines<K: Keeper, C: Clock>(
    door: &mut Door<K>,
    node: &mut Node,
    lines: &[Line],
    clock: &C,
) -> Result<(), Stop>
    requires built { AreBuilt lines.now }
    ensures cause { HasCause (IsErrOf result Stop.StoreFault) (K.faults door.old.keeper) (K.faults door.new.keeper) }
{
    let mut held = None;
    for line in lines {
        held = run_line(door, node, held, line, clock)?;
    }
    Ok(())
}

/// Runs a line. Gives the attempt that the client holds behind it.
fn run_line<K: Keeper, C: Clock>(
    door: &mut Door<K>,
    node: &mut Node,
    held: Option<Attempt>,
    line: &Line,
    clock: &C,
) -> Result<Option<Attempt>, Stop>
    requires built { IsBuilt line.now.order }
    ensures cause { HasCause (IsErrOf result Stop.StoreFault) (K.faults door.old.keeper) (K.faults door.new.keeper) }
{
    let by = By {
        client: line.client,
        line: line.number,
    };
    match &line.order {
        Command::Begin { uuid, node: _ } => return begin(door, node, by, uuid),
        Command::Put { key, value } => put(door, node, by, held, key, value)?,
        Command::Get { key } => get(door, node, by, held, key)?,
        Command::Commit => commit(door, node, by, held, clock.now())?,
        _ => unreachable!(),
    }
    Ok(held)
}

/// Puts a value of at most 4,096 bytes.
fn put<K: Keeper>(
    door: &Door<K>,
    node: &mut Node,
    by: By,
    held: Option<Attempt>,
    key: &Key,
    value: &Bytes,
) -> Result<(), Stop>
    requires short { length value.now ≤ 4096 }
    ensures memory { IfErr result (λ stop. stop ≡ Stop.Memory) }
{
    match held {
        Some(attempt) => node.put(door.len(), by, attempt, key, value),
        None => node.answer(door.len(), by, Reply::NoTransaction),
    }
}
