//! A put.

ghost use Rattle.std.specs.Option.{ForSome};
ghost use Rattle.std.specs.Prelude.{◌≡◌, ◌≢◌, ◌≤◌, ◌<◌, ℕ, IsTrue, List, length};
ghost use Rattle.aft_lines.specs.LineCourse.{answers_last};
ghost use Rattle.aft_lines.specs.LineView.{LineView};
ghost use Rattle.aft_machine.specs.PutMade.{Made};
ghost use Rattle.aft_machine.specs.PutView.{left_of, next_of};
ghost use Rattle.aft_model.specs.declared.door.DoorEntry.{DoorEntry};
ghost use Rattle.aft_model.specs.declared.script.Command.TheVariants as commands;
ghost use Rattle.aft_turns.specs.Stands.{EndsRightly, GoesRightly, IsUnanswered, RanSo, SeesOwn, last_sees};
ghost use Rattle.aft_turns.specs.Steps.{StepsAtNode};
ghost use Rattle.aft_turns.specs.Trail.{Trail, no_trail};
ghost use Rattle.aft_turns.specs.declared.turn.Where.TheVariants as places;

use crate::buffering::{Stage, step};
use aft_id::Bytes;
use aft_model::{By, Hold};
use aft_node::Node;
use aft_records::Key;
use aft_turns::Where;
use std::marker::Model;
use std::mem::replace;
use std::snapshot::Snapshot;

/// A put of a value for a key by a client, as a machine: its one turn is made at the node of what the client holds. Contracts see
/// its line, what the client holds, the key, the value, and how far it has come.
#[derive(Drop)]
pub struct Putting {
    by: By,
    hold: Hold,
    /// The key and the value, for contracts alone.
    key: Snapshot<Key>,
    value: Snapshot<Bytes>,
    stage: Stage,
}

impl Model for Putting {
    ghost use Rattle.std.specs.Option.{ForSome};
    ghost use Rattle.std.specs.Prelude.{◌≡◌};
    ghost use Rattle.aft_machine.specs.PutView.{FitsAt, PutView};

    ghost Value = { PutView };

    ghost view = { λ p. record { by = p.by; hold = p.hold; key = p.key.value; value = p.value.value; stage = p.stage } };

    ghost invariant = { λ p. ForSome p.hold.attempt (λ a. a.node ≡ p.hold.node) × FitsAt p.stage };
}

impl Putting {
    /// A put, of a value of at most 4,096 bytes, of which nothing is done.
    pub fn new(by: By, hold: Hold, key: Key, value: Bytes) -> Putting
        requires node { ForSome hold.attempt (λ a. a.node ≡ hold.node) }
        requires short { length value ≤ 4096 }
        ensures by { result.by ≡ by }
        ensures hold { result.hold ≡ hold }
        ensures key { result.key ≡ key }
        ensures value { result.value ≡ value }
        ensures made { Made result no_trail }
    {
        let kept_key = Snapshot::of(&key);
        let kept_value = Snapshot::of(&value);
        Putting {
            by,
            hold,
            key: kept_key,
            value: kept_value,
            stage: Stage::Begins { key, value },
        }
    }

    /// Where its next turn is made.
    pub fn next(&self) -> Where
        ensures { result ≡ next_of self.now }
    {
        match &self.stage {
            Stage::Begins { .. } => Where::Node(self.hold.node),
            Stage::Ended => Where::Done,
        }
    }

    /// How many turns are left: 1 at first.
    pub fn left(&self) -> u32
        ensures { result ≡ left_of self.now }
    {
        match &self.stage {
            Stage::Begins { .. } => 1,
            Stage::Ended => 0,
        }
    }

    /// What its client holds, which a put leaves as it was.
    pub fn hold(&self) -> Hold
        ensures { result ≡ self.now.hold }
    {
        self.hold
    }

    /// Its turn at the node, whose line has seen so many of the door's entries. A put doesn't ask what time it is.
    pub fn at_node(&mut self, node: &mut Node, front: u64, _now: u64)
        requires next { next_of self.old ≡ places.Node node.old.number }
        requires room { 1 ≤ node.old.room }
        ensures by { self.new.by ≡ self.old.by }
        ensures hold { self.new.hold ≡ self.old.hold }
        ensures key { self.new.key ≡ self.old.key }
        ensures value { self.new.value ≡ self.old.value }
        ensures left { left_of self.new < left_of self.old }
        ensures steps { StepsAtNode self.old.by front (Made self.old) (Made self.new) node.old node.new }
    {
        let stage = replace(&mut self.stage, Stage::Ended);
        self.stage = step(node, front, self.by, &self.hold, stage);
    }

    /// What stands of its line, by the turns that it has made: they are a beginning of a put's course, made rightly, and answer
    /// nothing before the last. Once it is over they are the whole course, and what is answered has its cause. Its turn at the node
    /// asks nothing of the door.
    pub fn so_far(&self)
        ensures goes { (capacity : ℕ) (trail : Trail) (view : LineView) → Made self.now trail → RanSo (commands.Put self.now.key self.now.value) self.now.hold capacity trail view → GoesRightly view }
        ensures unanswered { (capacity : ℕ) (trail : Trail) (view : LineView) → Made self.now trail → RanSo (commands.Put self.now.key self.now.value) self.now.hold capacity trail view → 1 ≤ left_of self.now → IsUnanswered view }
        ensures ends { (capacity : ℕ) (trail : Trail) (view : LineView) → Made self.now trail → RanSo (commands.Put self.now.key self.now.value) self.now.hold capacity trail view → next_of self.now ≡ places.Done → EndsRightly view }
        ensures answers { (trail : Trail) → Made self.now trail → next_of self.now ≡ places.Done → IsTrue (answers_last trail.turns) }
        ensures going { next_of self.now ≢ places.Done → 1 ≤ left_of self.now }
        ensures sees { (trail : Trail) (seen : List DoorEntry) → Made self.now trail → IsTrue (last_sees seen trail.turns) }
    {}
}
