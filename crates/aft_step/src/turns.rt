//! One turn of a line's machine.

ghost use Rattle.std.specs.Prelude.{◌≡◌, ◌≤◌, ◌<◌, ◌-◌, ℕ, Some, slice_get, slice_set};
ghost use Rattle.aft_ledger.specs.View.{NodeView};
ghost use Rattle.aft_lines.specs.Asked.{Asked};
ghost use Rattle.aft_machine.specs.Asks.{MayEnd, may_close};
ghost use Rattle.aft_machine.specs.OneNode.{Holds, by_of, command_of, left_of, made_of, next_of};
ghost use Rattle.aft_model.specs.declared.caller.Hold.{Hold};
ghost use Rattle.aft_model.specs.declared.script.Line.{Line};
ghost use Rattle.aft_model.specs.LegalNode.{LegalNode};
ghost use Rattle.aft_step.specs.Going.{Running, Turned};
ghost use Rattle.aft_step.specs.Worlds.{shown};
ghost use Rattle.aft_turns.specs.Steps.{SameStore, StepsAtNode};
ghost use Rattle.aft_turns.specs.Trail.{Trail};
ghost use Rattle.aft_turns.specs.declared.turn.Where.TheVariants as places;
ghost use Rattle.law_accounts.specs.Account.{Stand};
ghost use Rattle.law_clients.specs.Clients.{Seat};

use aft_boot::World;
use aft_door::Door;
use aft_id::List;
use aft_keeper::Keeper;
use aft_machine::Machine;
use aft_node::Node;
use aft_turns::Where;
use std::alloc::Global;
use std::mem::replace;

/// Makes the next turn of a line's machine, at its node or at the door, where that isn't over. The turn has seen all that is at the door,
/// and is handed this time of the clock (milliseconds since 1970), which a commit's and an abort's first turn reads. The line runs on
/// behind it, or is over, and its client then holds what its machine gives; the lines of other clients stand as they did.
pub(crate) fn turn<K: Keeper>(alloc: Global, world: &mut World<K>, machine: &mut Machine, now: u64)
    requires runs { (asked : Asked) × (stand : Line → Stand) × (seats : ℕ → Seat) × (line : Line) × (hold : Hold) × (trail : Trail) × Running asked stand seats (shown world.old.door world.old.nodes world.old.boxes world.old.office) line hold machine.old now trail }
    ensures left { left_of machine.new < left_of machine.old }
    ensures turned { (asked : Asked) (stand : Line → Stand) (seats : ℕ → Seat) (line : Line) (hold : Hold) (trail : Trail) → Running asked stand seats (shown world.old.door world.old.nodes world.old.boxes world.old.office) line hold machine.old now trail → Turned asked stand seats (shown world.new.door world.new.nodes world.new.boxes world.new.office) line hold machine.new now }
    ensures store { SameStore world.old.door world.new.door }
{
    match machine.next() {
        Where::Node(number) => node_turn(alloc, world, machine, number, now),
        Where::Door => door_turn(world, machine, now),
        _ => unreachable!(),
    }
}

/// One at the node of this number.
fn node_turn<K: Keeper>(
    alloc: Global,
    world: &mut World<K>,
    machine: &mut Machine,
    number: u32,
    now: u64,
)
    requires next { next_of machine.old ≡ places.Node number }
    requires runs { (asked : Asked) × (stand : Line → Stand) × (seats : ℕ → Seat) × (line : Line) × (hold : Hold) × (trail : Trail) × Running asked stand seats (shown world.old.door world.old.nodes world.old.boxes world.old.office) line hold machine.old now trail }
    ensures left { left_of machine.new < left_of machine.old }
    ensures turned { (asked : Asked) (stand : Line → Stand) (seats : ℕ → Seat) (line : Line) (hold : Hold) (trail : Trail) → Running asked stand seats (shown world.old.door world.old.nodes world.old.boxes world.old.office) line hold machine.old now trail → Turned asked stand seats (shown world.new.door world.new.nodes world.new.boxes world.new.office) line hold machine.new now }
    ensures store { SameStore world.old.door world.new.door }
{
    machine.promises();
    let front = world.door.len();
    at_node(alloc, &mut world.nodes, machine, number, front, now);
    machine.promises();
}

/// One at the door, which asks no time.
fn door_turn<K: Keeper>(world: &mut World<K>, machine: &mut Machine, now: u64)
    requires next { next_of machine.old ≡ places.Door }
    requires runs { (asked : Asked) × (stand : Line → Stand) × (seats : ℕ → Seat) × (line : Line) × (hold : Hold) × (trail : Trail) × Running asked stand seats (shown world.old.door world.old.nodes world.old.boxes world.old.office) line hold machine.old now trail }
    ensures left { left_of machine.new < left_of machine.old }
    ensures turned { (asked : Asked) (stand : Line → Stand) (seats : ℕ → Seat) (line : Line) (hold : Hold) (trail : Trail) → Running asked stand seats (shown world.old.door world.old.nodes world.old.boxes world.old.office) line hold machine.old now trail → Turned asked stand seats (shown world.new.door world.new.nodes world.new.boxes world.new.office) line hold machine.new now }
    ensures store { SameStore world.old.door world.new.door }
{
    machine.promises();
    machine.at_door(&mut world.door);
    Door::law_legal(&world.door);
    machine.promises();
}

/// At the node of this number.
fn at_node(
    alloc: Global,
    nodes: &mut List<Node>,
    machine: &mut Machine,
    number: u32,
    front: u64,
    now: u64,
)
    requires low { 1 ≤ number }
    requires node { (node : NodeView) × (slice_get nodes.old (number - 1) ≡ Some node) × (next_of machine.old ≡ places.Node node.number) × (1 ≤ node.room) × may_close machine.old node.history }
    ensures by { by_of machine.new ≡ by_of machine.old }
    ensures command { command_of machine.new ≡ command_of machine.old }
    ensures held { (hold : Hold) → Holds machine.old hold → Holds machine.new hold }
    ensures left { left_of machine.new < left_of machine.old }
    ensures steps { (node : NodeView) → slice_get nodes.old (number - 1) ≡ Some node → (after : NodeView) × (nodes.new ≡ slice_set nodes.old (number - 1) after) × LegalNode after.number after.capacity after.history × ((clock : ℕ) → MayEnd now clock machine.old node.history → StepsAtNode (by_of machine.old) front (made_of node.capacity clock machine.old) (made_of node.capacity clock machine.new) node after) }
{
    let mut taken = replace(nodes, List::from_vec(Vec::new(alloc))).into_vec();
    let node = &mut taken[number as usize - 1];
    machine.at_node(node, front, now);
    node.law();
    *nodes = List::from_vec(taken);
}
