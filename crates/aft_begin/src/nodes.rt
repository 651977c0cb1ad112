//! What a line that claims a UUID does at its node, and how far it leads.

ghost use Rattle.aft_begin.specs.Made.{made_at, may_end_at};
ghost use Rattle.aft_begin.specs.View.{FitsAt, behind_admission, left_at};
ghost use Rattle.aft_begin.specs.declared.aim.Aim.TheVariants as aims;
ghost use Rattle.aft_begin.specs.declared.stage.Stage.TheVariants as stages;
ghost use Rattle.aft_model.specs.NodeRules.{is_begin_refusal};
ghost use Rattle.aft_node.specs.Closing.{MayClose, opens_begin};
ghost use Rattle.aft_turns.specs.Steps.{StepsAtNode};
ghost use Rattle.std.specs.Prelude.{◌≡◌, ◌≤◌, ◌<◌, IsTrue, Some};

use crate::aim::Aim;
use crate::stage::Stage;
use aft_model::{Attempt, By, Reply};
use aft_node::{AdmitGo, Node};
use uuid::Uuid;

/// The first turn: an attempt is admitted, or the line is answered.
pub(crate) fn admit(aim: Aim, by: By, uuid: Uuid, node: &mut Node, front: u64) -> Stage
    requires room { 1 ≤ node.old.room }
    ensures steps { StepsAtNode by front (made_at aim by node.old.number uuid stages.Begins) (made_at aim by node.old.number uuid result) node.old node.new }
    ensures fits { FitsAt aim node.old.number uuid result }
    ensures left { left_at aim result < left_at aim stages.Begins }
{
    match aim {
        Aim::Begin => admit_begin(by, uuid, node, front),
        Aim::Forget => admit_forget(by, uuid, node, front),
    }
}

/// That of a begin.
fn admit_begin(by: By, uuid: Uuid, node: &mut Node, front: u64) -> Stage
    requires room { 1 ≤ node.old.room }
    ensures steps { StepsAtNode by front (made_at aims.Begin by node.old.number uuid stages.Begins) (made_at aims.Begin by node.old.number uuid result) node.old node.new }
    ensures fits { FitsAt aims.Begin node.old.number uuid result }
    ensures left { left_at aims.Begin result < 6 }
{
    node.law();
    behind_admission(node.admit(front, by, uuid))
}

/// That of a forget, which joins no attempt.
fn admit_forget(by: By, uuid: Uuid, node: &mut Node, front: u64) -> Stage
    requires room { 1 ≤ node.old.room }
    ensures steps { StepsAtNode by front (made_at aims.Forget by node.old.number uuid stages.Begins) (made_at aims.Forget by node.old.number uuid result) node.old node.new }
    ensures fits { FitsAt aims.Forget node.old.number uuid result }
    ensures left { left_at aims.Forget result < 7 }
{
    node.law();
    behind_admission(node.admit_forget(front, by, uuid))
}

/// How far the first turn leads.
fn behind_admission(go: AdmitGo) -> Stage
    ensures { result ≡ behind_admission go }
{
    match go {
        AdmitGo::Go(_, attempt) => Stage::Claims { attempt },
        AdmitGo::Joined(attempt) => Stage::Ended {
            attempt: Some(attempt),
        },
        AdmitGo::Answered => Stage::Ended { attempt: None },
    }
}

/// The last turn of a begin where neither record nor marker was found: the attempt runs.
pub(crate) fn run(
    aim: Aim,
    by: By,
    uuid: Uuid,
    node: &mut Node,
    front: u64,
    attempt: Attempt,
) -> Stage
    requires room { 1 ≤ node.old.room }
    requires place { attempt.node ≡ node.old.number }
    requires own { MayClose (opens_begin attempt) by node.old.history }
    ensures steps { may_end_at uuid (stages.Runs attempt) node.old.history → StepsAtNode by front (made_at aim by node.old.number uuid (stages.Runs attempt)) (made_at aim by node.old.number uuid result) node.old node.new }
    ensures fits { FitsAt aim node.old.number uuid result }
    ensures over { left_at aim result ≡ 0 }
{
    if node.admitted(front, by, attempt) {
        Stage::Ended {
            attempt: Some(attempt),
        }
    } else {
        Stage::Ended { attempt: None }
    }
}

/// The last turn of a begin that came to nothing, and of a forget: the attempt is taken away, with this answer.
pub(crate) fn give_up(
    aim: Aim,
    by: By,
    uuid: Uuid,
    node: &mut Node,
    front: u64,
    attempt: Attempt,
    reply: Reply,
) -> Stage
    requires room { 1 ≤ node.old.room }
    requires place { attempt.node ≡ node.old.number }
    requires own { MayClose (opens_begin attempt) by node.old.history }
    requires may { IsTrue (is_begin_refusal (Some reply)) }
    ensures steps { may_end_at uuid (stages.GivesUp attempt reply) node.old.history → StepsAtNode by front (made_at aim by node.old.number uuid (stages.GivesUp attempt reply)) (made_at aim by node.old.number uuid result) node.old node.new }
    ensures fits { FitsAt aim node.old.number uuid result }
    ensures over { left_at aim result ≡ 0 }
{
    node.unadmitted(front, by, attempt, reply);
    Stage::Ended { attempt: None }
}
