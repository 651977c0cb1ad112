//! What a commit or an abort does at its node, and how far it leads.

ghost use Rattle.std.specs.Option.{ForSome};
ghost use Rattle.std.specs.Prelude.{◌≡◌, ◌≤◌, ◌<◌, ℕ, Bool, IsTrue, Some};
ghost use Rattle.aft_commit.specs.Asks.{may_close_at, may_end_at};
ghost use Rattle.aft_commit.specs.Made.{made_at};
ghost use Rattle.aft_commit.specs.View.{FitsAt, left_at, next_at, opened_stage, reads_clock_at, told_of};
ghost use Rattle.aft_commit.specs.declared.stage.Stage.TheVariants as stages;
ghost use Rattle.aft_model.specs.NodeRules.{is_doubt, is_own_end};
ghost use Rattle.aft_model.specs.declared.caller.Hold.{Hold};
ghost use Rattle.aft_model.specs.declared.node.NodeAct.TheVariants as acts;
ghost use Rattle.aft_node.specs.Closing.{MayClose, opens_finish};
ghost use Rattle.aft_turns.specs.Steps.{StepsAtNode};
ghost use Rattle.aft_turns.specs.declared.turn.Where.TheVariants as places;

use crate::calls::few_keys;
use crate::outcome::Outcome;
use crate::stage::Stage;
use aft_model::{Attempt, By, Hold, Reply};
use aft_node::{Node, StartGo};
use aft_records::Record;
use uuid::Uuid;

/// A turn at the node, and how far it leads.
pub(crate) fn step(
    node: &mut Node,
    front: u64,
    now: u64,
    by: By,
    hold: &Hold,
    aborts: bool,
    stage: Stage,
) -> Stage
    requires next { next_at hold.now.node stage ≡ places.Node node.old.number }
    requires room { 1 ≤ node.old.room }
    requires attempt { ForSome hold.now.attempt (λ a. a.node ≡ hold.now.node) }
    requires fits { FitsAt hold.now.node stage }
    requires own { may_close_at by stage node.old.history }
    ensures left { left_at result < left_at stage }
    ensures fits { FitsAt hold.now.node result }
    ensures steps { (clock : ℕ) → reads_clock_at stage now clock → may_end_at stage node.old.history → StepsAtNode by front (made_at clock by hold.now aborts stage) (made_at clock by hold.now aborts result) node.old node.new }
{
    match stage {
        Stage::Begins => open(node, front, now, by, hold, aborts),
        Stage::Recorded { attempt, written } => note(node, front, by, attempt, written),
        Stage::Doubts { attempt, reply } => doubt(node, front, by, attempt, reply),
        Stage::Ends {
            attempt,
            uuid,
            outcome,
        } => end(node, front, by, attempt, uuid, outcome),
        Stage::ShutOut { attempt } => shut_out(node, front, by, attempt),
        stage => stage,
    }
}

/// The first turn, and how far it leads.
fn open(node: &mut Node, front: u64, now: u64, by: By, hold: &Hold, aborts: bool) -> Stage
    requires room { 1 ≤ node.old.room }
    requires place { hold.now.node ≡ node.old.number }
    requires attempt { ForSome hold.now.attempt (λ a. a.node ≡ hold.now.node) }
    ensures left { left_at result < 39 }
    ensures fits { FitsAt hold.now.node result }
    ensures steps { StepsAtNode by front (made_at now by hold.now aborts stages.Begins) (made_at now by hold.now aborts result) node.old node.new }
{
    node.law();
    let go = if aborts {
        node.leave(front, by, hold)
    } else {
        node.start(front, by, hold, now)
    };
    opened(go, hold.attempt, aborts)
}

/// Where the first turn leads.
fn opened(go: StartGo, attempt: Option<Attempt>, aborts: bool) -> Stage
    ensures value { result ≡ opened_stage go attempt aborts }
    ensures left { left_at result < 39 }
{
    let Some(attempt) = attempt else {
        return Stage::Ended;
    };
    match go {
        StartGo::Store(_, written, values) => {
            few_keys(&written);
            Stage::Stores {
                attempt,
                written,
                values,
                count: 0,
            }
        }
        StartGo::Settle(_, written, values) => Stage::Settles {
            attempt,
            written,
            values,
        },
        StartGo::Release(_, uuid) => Stage::Releases {
            attempt,
            uuid,
            outcome: Outcome::Left { aborts },
        },
        StartGo::Answered => Stage::Ended,
    }
}

/// The turn behind a record that is there: the node learns of it, or the line is over.
fn note(node: &mut Node, front: u64, by: By, attempt: Attempt, written: Record) -> Stage
    requires room { 1 ≤ node.old.room }
    requires place { attempt.node ≡ node.old.number }
    requires own { MayClose (opens_finish attempt) by node.old.history }
    ensures left { left_at result < 3 }
    ensures fits { FitsAt attempt.node result }
    ensures steps { (clock : ℕ) (hold : Hold) (aborts : Bool) → may_end_at (stages.Recorded attempt written) node.old.history → StepsAtNode by front (made_at clock by hold aborts (stages.Recorded attempt written)) (made_at clock by hold aborts result) node.old node.new }
{
    let Record { commit, origin: _ } = written;
    let id = commit.id;
    if node.stored(front, by, attempt, commit) {
        Stage::Releases {
            attempt,
            uuid: id.uuid,
            outcome: Outcome::Stored(id),
        }
    } else {
        Stage::Ended
    }
}

/// The last turn of a commit of which it isn't known whether it is stored.
fn doubt(node: &mut Node, front: u64, by: By, attempt: Attempt, reply: Reply) -> Stage
    requires room { 1 ≤ node.old.room }
    requires place { attempt.node ≡ node.old.number }
    requires own { MayClose (opens_finish attempt) by node.old.history }
    requires may { IsTrue (is_doubt (Some reply)) }
    ensures over { result ≡ stages.Ended }
    ensures steps { (clock : ℕ) (hold : Hold) (aborts : Bool) → may_end_at (stages.Doubts attempt reply) node.old.history → StepsAtNode by front (made_at clock by hold aborts (stages.Doubts attempt reply)) (made_at clock by hold aborts result) node.old node.new }
{
    node.doubt(front, by, attempt, reply);
    Stage::Ended
}

/// The last turn behind the release: the attempt ends.
fn end(node: &mut Node, front: u64, by: By, attempt: Attempt, uuid: Uuid, outcome: Outcome) -> Stage
    requires room { 1 ≤ node.old.room }
    requires place { attempt.node ≡ node.old.number }
    requires own { MayClose (opens_finish attempt) by node.old.history }
    requires stored { IsTrue (is_own_end node.old.history by (acts.End attempt) (Some (told_of outcome))) }
    ensures over { result ≡ stages.Ended }
    ensures steps { (clock : ℕ) (hold : Hold) (aborts : Bool) → may_end_at (stages.Ends attempt uuid outcome) node.old.history → StepsAtNode by front (made_at clock by hold aborts (stages.Ends attempt uuid outcome)) (made_at clock by hold aborts result) node.old node.new }
{
    node.ended(front, by, attempt, outcome.reply());
    Stage::Ended
}

/// The last turn of an attempt that leaves, and whose incarnation was shut out.
fn shut_out(node: &mut Node, front: u64, by: By, attempt: Attempt) -> Stage
    requires room { 1 ≤ node.old.room }
    requires place { attempt.node ≡ node.old.number }
    ensures over { result ≡ stages.Ended }
    ensures steps { (clock : ℕ) (hold : Hold) (aborts : Bool) → may_end_at (stages.ShutOut attempt) node.old.history → StepsAtNode by front (made_at clock by hold aborts (stages.ShutOut attempt)) (made_at clock by hold aborts result) node.old node.new }
{
    node.answer(
        front,
        by,
        Reply::NodeDown {
            node: attempt.node,
            inc: attempt.inc,
        },
    );
    Stage::Ended
}
