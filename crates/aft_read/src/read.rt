//! A get.

ghost use Rattle.std.specs.Option.{ForSome};
ghost use Rattle.std.specs.Prelude.{◌≡◌, ◌≢◌, ◌≤◌, ◌<◌, ℕ, IsTrue, List};
ghost use Rattle.aft_keeper.specs.Cause.{HasCause};
ghost use Rattle.aft_lines.specs.LineCourse.{answers_last};
ghost use Rattle.aft_lines.specs.LineView.{LineView};
ghost use Rattle.aft_model.specs.DoorKnowledge.{is_open};
ghost use Rattle.aft_model.specs.declared.door.DoorEntry.{DoorEntry};
ghost use Rattle.aft_model.specs.declared.script.Command.TheVariants as commands;
ghost use Rattle.aft_read.specs.Made.{HasComeUp, Made, MayEnd, may_close, told_fault};
ghost use Rattle.aft_read.specs.View.{left_of, next_of};
ghost use Rattle.aft_turns.specs.Stands.{EndsRightly, GoesRightly, HasLooked, IsUnanswered, RanSo, SeesOwn, last_sees};
ghost use Rattle.aft_turns.specs.Steps.{SameStore, StepsAtDoor, StepsAtNode};
ghost use Rattle.aft_turns.specs.Trail.{Trail, no_trail};
ghost use Rattle.aft_turns.specs.declared.turn.Where.TheVariants as places;

use crate::stage::Stage;
use crate::{fetch, turns};
use aft_door::Door;
use aft_keeper::Keeper;
use aft_model::{By, Hold};
use aft_node::Node;
use aft_records::Key;
use aft_turns::Where;
use std::alloc::Global;
use std::marker::Model;
use std::mem::replace;
use std::snapshot::Snapshot;

/// A get of a key by a client, as a machine: its turns are made one by one, at the node of what the client holds and at the door.
/// Contracts see its line, what the client holds, the key, and how far it has come.
#[derive(Drop)]
pub struct Read {
    alloc: Global,
    by: By,
    hold: Hold,
    /// The key, for contracts alone.
    asked: Snapshot<Key>,
    stage: Stage,
}

impl Model for Read {
    ghost use Rattle.std.specs.Option.{ForSome};
    ghost use Rattle.std.specs.Prelude.{◌≡◌};
    ghost use Rattle.aft_read.specs.View.{FitsNode, ReadView};

    ghost Value = { ReadView };

    ghost view = { λ r. record { by = r.by; hold = r.hold; key = r.asked.value; stage = r.stage } };

    ghost invariant = { λ r. ForSome r.hold.attempt (λ a. a.node ≡ r.hold.node) × FitsNode r.hold.node r.stage };
}

impl Read {
    /// A get of which nothing is done.
    pub fn new(alloc: Global, by: By, hold: Hold, key: Key) -> Read
        requires node { ForSome hold.attempt (λ a. a.node ≡ hold.node) }
        ensures by { result.by ≡ by }
        ensures hold { result.hold ≡ hold }
        ensures key { result.key ≡ key }
        ensures made { (capacity : ℕ) → Made capacity result no_trail }
    {
        let asked = Snapshot::of(&key);
        Read {
            alloc,
            by,
            hold,
            asked,
            stage: Stage::Begins { key },
        }
    }

    /// Where its next turn is made.
    pub fn next(&self) -> Where
        ensures { result ≡ next_of self.now }
    {
        match &self.stage {
            Stage::Begins { .. } | Stage::Comes { .. } => Where::Node(self.hold.node),
            Stage::Fetches { .. } => Where::Door,
            Stage::Ended => Where::Done,
        }
    }

    /// How many turns are left at most: 3 at first.
    pub fn left(&self) -> u32
        ensures { result ≡ left_of self.now }
    {
        match &self.stage {
            Stage::Begins { .. } => 3,
            Stage::Fetches { .. } => 2,
            Stage::Comes { .. } => 1,
            Stage::Ended => 0,
        }
    }

    /// What its client holds, which a get leaves as it was.
    pub fn hold(&self) -> Hold
        ensures { result ≡ self.now.hold }
    {
        self.hold
    }

    /// Its turn at the node, whose line has seen so many of the door's entries. A get doesn't ask what time it is.
    pub fn at_node(&mut self, node: &mut Node, front: u64, _now: u64)
        requires next { next_of self.old ≡ places.Node node.old.number }
        requires room { 1 ≤ node.old.room }
        requires own { may_close self.old node.old.history }
        ensures by { self.new.by ≡ self.old.by }
        ensures hold { self.new.hold ≡ self.old.hold }
        ensures key { self.new.key ≡ self.old.key }
        ensures left { left_of self.new < left_of self.old }
        ensures steps { MayEnd self.old node.old.history → StepsAtNode self.old.by front (Made node.old.capacity self.old) (Made node.old.capacity self.new) node.old node.new }
    {
        let stage = replace(&mut self.stage, Stage::Ended);
        self.stage = turns::step(node, front, self.by, &self.hold, stage);
    }

    /// Its turn at the door.
    pub fn at_door<K: Keeper>(&mut self, door: &mut Door<K>)
        requires next { next_of self.old ≡ places.Door }
        requires open { IsTrue (is_open door.old.history) }
        ensures by { self.new.by ≡ self.old.by }
        ensures hold { self.new.hold ≡ self.old.hold }
        ensures key { self.new.key ≡ self.old.key }
        ensures left { left_of self.new < left_of self.old }
        ensures steps { (capacity : ℕ) → HasComeUp self.old door.old.history → StepsAtDoor self.old.by (Made capacity self.old) (Made capacity self.new) door.old.history door.new.history }
        ensures cause { HasCause (IsTrue (told_fault self.new)) door.old.faults door.new.faults }
        ensures store { SameStore door.old door.new }
    {
        let stage = replace(&mut self.stage, Stage::Ended);
        self.stage = fetch::step(self.alloc, door, self.by, self.hold.node, stage);
    }

    /// What stands of its line, by the turns that it has made: they are a beginning of a get's course, made rightly, and answer
    /// nothing before the last. Once it is over they are the whole course, and what is answered has its cause. A turn at the node
    /// has seen at the door what it asks. Whatever its last turn has seen there, one that is over has answered by its last turn and
    /// by no other, and one that isn't over has a turn left.
    pub fn so_far(&self)
        ensures goes { (capacity : ℕ) (trail : Trail) (view : LineView) → Made capacity self.now trail → RanSo (commands.Get self.now.key) self.now.hold capacity trail view → GoesRightly view }
        ensures unanswered { (capacity : ℕ) (trail : Trail) (view : LineView) → Made capacity self.now trail → RanSo (commands.Get self.now.key) self.now.hold capacity trail view → 1 ≤ left_of self.now → IsUnanswered view }
        ensures ends { (capacity : ℕ) (trail : Trail) (view : LineView) → Made capacity self.now trail → RanSo (commands.Get self.now.key) self.now.hold capacity trail view → next_of self.now ≡ places.Done → HasLooked trail view → EndsRightly view }
        ensures answers { (capacity : ℕ) (trail : Trail) → Made capacity self.now trail → next_of self.now ≡ places.Done → IsTrue (answers_last trail.turns) }
        ensures going { next_of self.now ≢ places.Done → 1 ≤ left_of self.now }
        ensures sees { (capacity : ℕ) (trail : Trail) (seen : List DoorEntry) → Made capacity self.now trail → SeesOwn self.now.by trail.turns seen → IsTrue (last_sees seen trail.turns) }
    {}
}
