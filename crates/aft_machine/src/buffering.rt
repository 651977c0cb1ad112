//! How far a put has come, and its turn at the node.

ghost use Rattle.std.specs.Option.{ForSome};
ghost use Rattle.std.specs.Prelude.{◌≡◌, ◌≤◌, ◌<◌, List, ℕ, length};
ghost use Rattle.aft_machine.specs.PutMade.{made_at};
ghost use Rattle.aft_machine.specs.PutView.{FitsAt, left_at, next_at};
ghost use Rattle.aft_machine.specs.declared.buffering.Stage.TheVariants as stages;
ghost use Rattle.aft_turns.specs.Steps.{StepsAtNode};
ghost use Rattle.aft_turns.specs.declared.turn.Where.TheVariants as places;

use aft_id::Bytes;
use aft_model::{By, Hold};
use aft_node::Node;
use aft_records::Key;

/// How far a put has come.
#[derive(Debug, Drop)]
pub enum Stage {
    /// Nothing is done: the attempt is to buffer this value for this key.
    Begins { key: Key, value: Bytes },
    /// It is answered.
    Ended,
}

/// A turn at the node, and how far it leads.
pub(crate) fn step(node: &mut Node, front: u64, by: By, hold: &Hold, stage: Stage) -> Stage
    requires next { next_at hold.now.node stage ≡ places.Node node.old.number }
    requires room { 1 ≤ node.old.room }
    requires attempt { ForSome hold.now.attempt (λ a. a.node ≡ hold.now.node) }
    requires fits { FitsAt stage }
    ensures left { left_at result < left_at stage }
    ensures fits { FitsAt result }
    ensures steps { (key value : List ℕ) → StepsAtNode by front (made_at by hold.now key value stage) (made_at by hold.now key value result) node.old node.new }
{
    match stage {
        Stage::Begins { key, value } => put(node, front, by, hold, key, value),
        stage => stage,
    }
}

/// The one turn, behind which it is over.
fn put(node: &mut Node, front: u64, by: By, hold: &Hold, key: Key, value: Bytes) -> Stage
    requires room { 1 ≤ node.old.room }
    requires place { hold.now.node ≡ node.old.number }
    requires attempt { ForSome hold.now.attempt (λ a. a.node ≡ hold.now.node) }
    requires short { length value ≤ 4096 }
    ensures over { result ≡ stages.Ended }
    ensures steps { (asked given : List ℕ) → StepsAtNode by front (made_at by hold.now asked given (stages.Begins key value)) (made_at by hold.now asked given stages.Ended) node.old node.new }
{
    node.put(front, by, hold, key, value);
    Stage::Ended
}
