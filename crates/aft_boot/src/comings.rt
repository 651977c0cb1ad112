//! A start's turns at the door: its incarnation comes up, and reads the records.

ghost use Rattle.std.specs.Prelude.{◌≡◌, ◌≢◌, ◌<◌, IfSome, IsTrue};
ghost use Rattle.aft_boot.specs.Booted.{made_at, may_call_at, told_fault_at};
ghost use Rattle.aft_boot.specs.BootView.{Fits, is_other, left_at, next_at, refusal_of, up_stage};
ghost use Rattle.aft_boot.specs.declared.stage.Stage.TheVariants as stages;
ghost use Rattle.aft_keeper.specs.Cause.{HasCause};
ghost use Rattle.aft_model.specs.DoorKnowledge.{is_open};
ghost use Rattle.aft_model.specs.Membership.{up_now};
ghost use Rattle.aft_node.specs.declared.goes.BootEnd.TheVariants as ends;
ghost use Rattle.aft_turns.specs.Steps.{SameStore, StepsAtDoor};
ghost use Rattle.aft_turns.specs.declared.turn.Where.TheVariants as places;

use crate::pages::scan;
use crate::stage::Stage;
use aft_door::{Door, DoorFault};
use aft_id::{List, Text};
use aft_keeper::Keeper;
use aft_model::{By, Reply};
use aft_node::BootEnd;
use std::alloc::Global;

/// A turn at the door, and how far it leads.
pub(crate) fn step<K: Keeper>(
    alloc: Global,
    door: &mut Door<K>,
    by: By,
    node: u32,
    stage: Stage,
) -> Stage
    requires next { next_at node stage ≡ places.Door }
    requires open { IsTrue (is_open door.old.history) }
    requires node { node ≢ 0 }
    requires fits { Fits stage }
    ensures left { left_at result < left_at stage }
    ensures fits { Fits result }
    ensures steps { may_call_at by node stage door.old.history → StepsAtDoor by (made_at by node stage) (made_at by node result) door.old.history door.new.history }
    ensures cause { HasCause (IsTrue (told_fault_at result)) door.old.faults door.new.faults }
    ensures store { SameStore door.old door.new }
{
    match stage {
        Stage::ComesUp { inc } => come_up(alloc, door, by, node, inc),
        Stage::Scans {
            inc,
            after,
            listed,
            commits,
        } => scan(alloc, door, by, node, inc, after, listed, commits),
        stage => stage,
    }
}

/// The incarnation comes up, and how far that leads. Where another one is up it goes the way of one that is shut out.
fn come_up<K: Keeper>(alloc: Global, door: &mut Door<K>, by: By, node: u32, inc: u32) -> Stage
    requires open { IsTrue (is_open door.old.history) }
    requires node { node ≢ 0 }
    ensures left { left_at result < 315 }
    ensures fits { Fits result }
    ensures steps { may_call_at by node (stages.ComesUp inc) door.old.history → StepsAtDoor by (made_at by node (stages.ComesUp inc)) (made_at by node result) door.old.history door.new.history }
    ensures faults { door.new.faults ≡ door.old.faults }
    ensures works { IsTrue (told_fault_at result) → ⊥ }
    ensures store { SameStore door.old door.new }
{
    if is_other_up(door, node, inc) {
        return stop(inc, down(node, inc));
    }
    up(alloc, door, by, node, inc)
}

/// Whether another incarnation of a node is up.
fn is_other_up<K: Keeper>(door: &Door<K>, node: u32, inc: u32) -> bool
    ensures { result ≡ is_other inc (up_now node door.now.history) }
{
    match door.up_now(node) {
        Some(other) => other != inc,
        None => false,
    }
}

/// The incarnation comes up, unless it is up, where no other is.
fn up<K: Keeper>(alloc: Global, door: &mut Door<K>, by: By, node: u32, inc: u32) -> Stage
    requires open { IsTrue (is_open door.old.history) }
    requires node { node ≢ 0 }
    requires alone { IfSome (up_now node door.old.history) (λ other. other ≡ inc) }
    ensures left { left_at result < 315 }
    ensures fits { Fits result }
    ensures steps { may_call_at by node (stages.ComesUp inc) door.old.history → StepsAtDoor by (made_at by node (stages.ComesUp inc)) (made_at by node result) door.old.history door.new.history }
    ensures faults { door.new.faults ≡ door.old.faults }
    ensures works { IsTrue (told_fault_at result) → ⊥ }
    ensures store { SameStore door.old door.new }
{
    let told = door.up(node, inc, by);
    behind(alloc, node, inc, told)
}

/// How far the coming up leads.
fn behind(alloc: Global, node: u32, inc: u32, told: Result<(), DoorFault>) -> Stage
    ensures { result ≡ up_stage node inc told }
{
    match told {
        Ok(()) => Stage::Scans {
            inc,
            after: Text::from_string(String::new(alloc)),
            listed: 0,
            commits: List::from_vec(Vec::new(alloc)),
        },
        Err(fault) => stop(inc, refusal(fault, node, inc)),
    }
}

/// That a boot is to be stopped with this answer.
pub(crate) fn stop(inc: u32, reply: Reply) -> Stage
    ensures { result ≡ stages.Ends inc (ends.Refused reply) }
{
    Stage::Ends {
        inc,
        end: BootEnd::Refused(reply),
    }
}

/// That an incarnation is shut out.
fn down(node: u32, inc: u32) -> Reply
    ensures { result ≡ Reply.NodeDown node inc }
{
    Reply::NodeDown { node, inc }
}

/// What a start answers where the door refused a call of its incarnation: `StoreFault` where the store failed, `NoMemory` where
/// memory ran out, and else that the incarnation is shut out, as `NodeDown`.
pub(crate) fn refusal(fault: DoorFault, node: u32, inc: u32) -> Reply
    ensures { result ≡ refusal_of node inc fault }
{
    match fault {
        DoorFault::Memory => Reply::NoMemory,
        DoorFault::Failed => Reply::StoreFault,
        _ => down(node, inc),
    }
}
