//! The first boot of a node, which the opening drives turn by turn.

ghost use Rattle.std.specs.Prelude.{◌≡◌, ◌≤◌, ◌<◌, ◌+◌, ◌-◌, ◌^◌, ℕ, IsFalse, IsTrue, List, MatchResult, [], length, slice_get};
ghost use Rattle.aft_boot.specs.BootView.{left_of};
ghost use Rattle.aft_boot.specs.Driving.{Drives, LastTells, ReplyTells};
ghost use Rattle.aft_boot.specs.FirstBoots.{HasServed, IsReadyFor, Stops};
ghost use Rattle.aft_boot.specs.declared.stage.Stage.TheVariants as stages;
ghost use Rattle.aft_keeper.specs.Cause.{HasCause};
ghost use Rattle.aft_ledger.specs.View.{NodeView};
ghost use Rattle.aft_model.specs.Opening.{has_failed, opening};
ghost use Rattle.aft_model.specs.declared.door.DoorEntry.{DoorEntry};
ghost use Rattle.aft_turns.specs.Steps.{SameStore};

use crate::boot::Boot;
use aft_audit::AuditFault;
use aft_door::Door;
use aft_keeper::Keeper;
use aft_model::{By, NodeEntry, Reply};
use aft_node::Node;
use aft_turns::Where;
use std::alloc::Global;

/// A node behind its first boot, which keeps so many values and has room for an answer of each of so many lines; or why that boot
/// was stopped.
pub(crate) fn booted<K: Keeper>(
    alloc: Global,
    door: &mut Door<K>,
    number: u32,
    cache: u32,
    lines: u32,
) -> Result<Node, AuditFault>
    requires some { 1 ≤ number }
    requires least { 1 ≤ cache }
    requires most { cache ≤ 4096 }
    requires lines { lines < 2 ^ 31 }
    requires ready { IsReadyFor number door.old.history }
    ensures booted { MatchResult result (λ node. HasServed cache lines number node door.old.history door.new.history) (λ fault. Stops number fault door.old.history door.new.history) }
    ensures cause { HasCause (IsTrue (has_failed door.new.history) × IsFalse (has_failed door.old.history)) door.old.faults door.new.faults }
    ensures store { SameStore door.old door.new }
{
    let mut node = Node::new(alloc, number, cache, lines)?;
    drive(alloc, door, &mut node, number);
    node.law();
    Door::law_legal(door);
    match outcome(&node) {
        Ok(()) => Ok(node),
        Err(fault) => Err(fault),
    }
}

/// All turns of a fresh node's first boot.
fn drive<K: Keeper>(alloc: Global, door: &mut Door<K>, node: &mut Node, number: u32)
    requires some { 1 ≤ number }
    requires number { node.old.number ≡ number }
    requires history { node.old.history ≡ [] }
    requires front { node.old.front ≡ 0 }
    requires room { 1 ≤ node.old.room }
    requires ready { IsReadyFor number door.old.history }
    ensures drives { Drives door.old.history node.old.capacity (node.old.room - 1) (record { by = opening; node = number; stage = stages.Ended }) node.new door.new.history }
    ensures cause { HasCause (IsTrue (has_failed door.new.history) × IsFalse (has_failed door.old.history)) door.old.faults door.new.faults }
    ensures store { SameStore door.old door.new }
{
    let by = By { client: 0, line: 0 };
    let mut boot = Boot::new(alloc, by, number);
    while boot.left() > 0 {
        step(&mut boot, door, node);
    }
}

/// The next turn of a first boot.
fn step<K: Keeper>(boot: &mut Boot, door: &mut Door<K>, node: &mut Node)
    requires left { 1 ≤ left_of boot.old }
    requires drives { (start : List DoorEntry) × (capacity : ℕ) × (lines : ℕ) × Drives start capacity lines boot.old node.old door.old.history }
    ensures left { left_of boot.new < left_of boot.old }
    ensures node { boot.new.node ≡ boot.old.node }
    ensures drives { (start : List DoorEntry) (capacity lines : ℕ) → Drives start capacity lines boot.old node.old door.old.history → Drives start capacity lines boot.new node.new door.new.history }
    ensures cause { HasCause (IsTrue (has_failed door.new.history) × IsFalse (has_failed door.old.history)) door.old.faults door.new.faults }
    ensures store { SameStore door.old door.new }
{
    node.law();
    match boot.next() {
        Where::Node(_) => boot.at_node(node, door.len(), 0),
        Where::Door => boot.at_door(door),
        _ => {}
    }
}

/// What a node's last answer is to the opening.
fn outcome(node: &Node) -> Result<(), AuditFault>
    ensures { LastTells (slice_get node.now.history (length node.now.history - 1)) result }
{
    match node.last() {
        Some(
            NodeEntry {
                answer: Some(reply),
                ..
            },
        ) => told(reply),
        _ => Err(AuditFault::Memory),
    }
}

/// What the answer of a boot is to the opening.
fn told(reply: &Reply) -> Result<(), AuditFault>
    ensures { ReplyTells reply.now result }
{
    match reply {
        Reply::Started { .. } => Ok(()),
        Reply::StoreFault => Err(AuditFault::Store),
        Reply::TooManyRecords => Err(AuditFault::TooMany),
        Reply::Damaged(name) => Err(AuditFault::Damaged {
            name: name.clone()?,
        }),
        _ => Err(AuditFault::Memory),
    }
}
