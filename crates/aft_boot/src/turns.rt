//! A start's turns at its node.

ghost use Rattle.std.specs.Prelude.{◌≡◌, ◌≤◌, ◌<◌};
ghost use Rattle.aft_boot.specs.Booted.{made_at, may_close_at, may_end_at};
ghost use Rattle.aft_boot.specs.BootView.{Fits, begun_stage, left_at, next_at};
ghost use Rattle.aft_boot.specs.declared.stage.Stage.TheVariants as stages;
ghost use Rattle.aft_node.specs.Booting.{MayEndSo};
ghost use Rattle.aft_node.specs.Closing.{MayClose, opens_boot};
ghost use Rattle.aft_turns.specs.Steps.{StepsAtNode};
ghost use Rattle.aft_turns.specs.declared.turn.Where.TheVariants as places;

use crate::stage::Stage;
use aft_model::By;
use aft_node::{BootEnd, BootGo, Node};

/// A turn at the node, and how far it leads.
pub(crate) fn step(node: &mut Node, front: u64, by: By, stage: Stage) -> Stage
    requires next { next_at node.old.number stage ≡ places.Node node.old.number }
    requires room { 1 ≤ node.old.room }
    requires fits { Fits stage }
    requires own { may_close_at by stage node.old.history }
    ensures left { left_at result < left_at stage }
    ensures fits { Fits result }
    ensures steps { may_end_at stage node.old.history → StepsAtNode by front (made_at by node.old.number stage) (made_at by node.old.number result) node.old node.new }
{
    match stage {
        Stage::Begins => begin(node, front, by),
        Stage::Ends { inc, end } => close(node, front, by, inc, end),
        stage => stage,
    }
}

/// The first turn, and how far it leads.
fn begin(node: &mut Node, front: u64, by: By) -> Stage
    requires { 1 ≤ node.old.room }
    ensures left { left_at result < 316 }
    ensures fits { Fits result }
    ensures steps { StepsAtNode by front (made_at by node.old.number stages.Begins) (made_at by node.old.number result) node.old node.new }
{
    node.law();
    let go = node.boot_first(front, by);
    begun(go)
}

/// Where the first turn leads.
fn begun(go: BootGo) -> Stage
    ensures { result ≡ begun_stage go }
{
    match go {
        BootGo::Go(who) => Stage::ComesUp { inc: who.inc },
        BootGo::Answered => Stage::Ended,
    }
}

/// The last turn, which serves what was shown, or tells why it wasn't.
fn close(node: &mut Node, front: u64, by: By, inc: u32, end: BootEnd) -> Stage
    requires room { 1 ≤ node.old.room }
    requires own { MayClose (opens_boot inc) by node.old.history }
    requires may { MayEndSo end }
    ensures over { result ≡ stages.Ended }
    ensures steps { may_end_at (stages.Ends inc end) node.old.history → StepsAtNode by front (made_at by node.old.number (stages.Ends inc end)) (made_at by node.old.number stages.Ended) node.old node.new }
{
    node.boot_end(front, by, inc, end);
    Stage::Ended
}
