//! A get's turns at its node.

ghost use Rattle.std.specs.Option.{ForSome};
ghost use Rattle.std.specs.Prelude.{◌≡◌, ◌≤◌, ◌<◌, ℕ, List};
ghost use Rattle.aft_node.specs.Closing.{MayClose, opens_fetch};
ghost use Rattle.aft_node.specs.Getting.{MayCome};
ghost use Rattle.aft_read.specs.Made.{made_at, may_close_at, may_end_at};
ghost use Rattle.aft_read.specs.View.{FitsNode, left_at, next_at, picked_stage};
ghost use Rattle.aft_read.specs.declared.stage.Stage.TheVariants as stages;
ghost use Rattle.aft_turns.specs.Steps.{StepsAtNode};
ghost use Rattle.aft_turns.specs.declared.turn.Where.TheVariants as places;

use crate::stage::Stage;
use aft_id::TxnId;
use aft_model::{Attempt, By, Hold, Reply};
use aft_node::{Got, Node, SelectGo};
use aft_records::Key;

/// A turn at the node, and how far it leads.
pub(crate) fn step(node: &mut Node, front: u64, by: By, hold: &Hold, stage: Stage) -> Stage
    requires next { next_at hold.now.node stage ≡ places.Node node.old.number }
    requires room { 1 ≤ node.old.room }
    requires attempt { ForSome hold.now.attempt (λ a. a.node ≡ hold.now.node) }
    requires fits { FitsNode hold.now.node stage }
    requires own { may_close_at by stage node.old.history }
    ensures left { left_at result < left_at stage }
    ensures fits { FitsNode hold.now.node result }
    ensures steps { (asked : List ℕ) → may_end_at stage node.old.history → StepsAtNode by front (made_at node.old.capacity by hold.now asked stage) (made_at node.old.capacity by hold.now asked result) node.old node.new }
{
    match stage {
        Stage::Begins { key } => pick(node, front, by, hold, key),
        Stage::Comes {
            attempt,
            key,
            id,
            got,
            place,
        } => close(node, front, by, attempt, key, id, got, place),
        stage => stage,
    }
}

/// The first turn, and how far it leads.
fn pick(node: &mut Node, front: u64, by: By, hold: &Hold, key: Key) -> Stage
    requires room { 1 ≤ node.old.room }
    requires place { hold.now.node ≡ node.old.number }
    requires attempt { ForSome hold.now.attempt (λ a. a.node ≡ hold.now.node) }
    ensures left { left_at result < 3 }
    ensures fits { FitsNode hold.now.node result }
    ensures steps { StepsAtNode by front (made_at node.old.capacity by hold.now key (stages.Begins key)) (made_at node.old.capacity by hold.now key result) node.old node.new }
{
    let Ok(kept) = key.clone() else {
        node.answer(front, by, Reply::NoMemory);
        return Stage::Ended;
    };
    let go = node.select(front, by, hold, key);
    picked(go, hold.attempt, kept)
}

/// Where a pick leads.
fn picked(go: SelectGo, attempt: Option<Attempt>, key: Key) -> Stage
    ensures { result ≡ picked_stage go attempt key }
{
    match (go, attempt) {
        (SelectGo::Fetch(_, id), Some(attempt)) => Stage::Fetches { attempt, key, id },
        _ => Stage::Ended,
    }
}

/// The last turn, which tells what came of the fetch.
fn close(
    node: &mut Node,
    front: u64,
    by: By,
    attempt: Attempt,
    key: Key,
    id: TxnId,
    got: Got,
    place: u64,
) -> Stage
    requires room { 1 ≤ node.old.room }
    requires place { attempt.node ≡ node.old.number }
    requires own { MayClose (opens_fetch attempt key id) by node.old.history }
    requires may { MayCome id got }
    ensures over { result ≡ stages.Ended }
    ensures steps { (hold : Hold) (asked : List ℕ) → hold.node ≡ node.old.number → may_end_at (stages.Comes attempt key id got place) node.old.history → StepsAtNode by front (made_at node.old.capacity by hold asked (stages.Comes attempt key id got place)) (made_at node.old.capacity by hold asked stages.Ended) node.old node.new }
{
    node.value(front, by, attempt, key, id, got, place);
    Stage::Ended
}
