//! A begin.

ghost use Rattle.std.specs.Option.{ForSome};
ghost use Rattle.std.specs.Prelude.{◌≡◌, ◌≢◌, ◌≤◌, ◌<◌, ℕ, IsTrue, List};
ghost use Rattle.aft_begin.specs.Made.{Made, MayCall, MayEnd, may_close, told_fault};
ghost use Rattle.aft_begin.specs.View.{hold_of, left_of, next_of};
ghost use Rattle.aft_begin.specs.declared.aim.Aim.TheVariants as aims;
ghost use Rattle.aft_keeper.specs.Cause.{HasCause};
ghost use Rattle.aft_lines.specs.LineCourse.{answers_last};
ghost use Rattle.aft_lines.specs.LineView.{LineView};
ghost use Rattle.aft_lines.specs.Lines.{attempt_of};
ghost use Rattle.aft_model.specs.DoorKnowledge.{is_open};
ghost use Rattle.aft_model.specs.declared.caller.Hold.{Hold};
ghost use Rattle.aft_model.specs.declared.door.DoorEntry.{DoorEntry};
ghost use Rattle.aft_model.specs.declared.script.Command.TheVariants as commands;
ghost use Rattle.aft_turns.specs.Stands.{EndsRightly, GoesRightly, HasLooked, IsUnanswered, RanSo, SeesOwn, last_sees};
ghost use Rattle.aft_turns.specs.Steps.{FrontsWithin, SameStore, StepsAtDoor, StepsAtNode};
ghost use Rattle.aft_turns.specs.Trail.{Trail, no_trail};
ghost use Rattle.aft_turns.specs.declared.turn.Where.TheVariants as places;

use crate::aim::Aim;
use crate::claiming::Claiming;
use aft_door::Door;
use aft_keeper::Keeper;
use aft_model::{By, Hold};
use aft_node::Node;
use aft_turns::Where;
use std::alloc::Global;
use std::marker::Model;
use uuid::Uuid;

/// A begin of a UUID at a node, as a machine: its turns are made one by one, at the node and at the door. Contracts see its line,
/// the node, the UUID, and how far it has come.
#[derive(Drop)]
pub struct Begin {
    line: Claiming,
}

impl Model for Begin {
    ghost use Rattle.std.specs.Prelude.{◌≡◌};
    ghost use Rattle.aft_begin.specs.View.{ClaimView};
    ghost use Rattle.aft_begin.specs.declared.aim.Aim.TheVariants as aims;

    ghost Value = { ClaimView };

    ghost view = { λ b. b.line };

    ghost invariant = { λ b. b.line.aim ≡ aims.Begin };
}

impl Begin {
    /// A begin of which nothing is done.
    pub fn new(alloc: Global, by: By, node: u32, uuid: Uuid) -> Begin
        ensures by { result.by ≡ by }
        ensures node { result.node ≡ node }
        ensures uuid { result.uuid ≡ uuid }
        ensures left { left_of result ≡ 6 }
        ensures made { Made result no_trail }
    {
        Begin {
            line: Claiming::new(alloc, by, node, uuid, Aim::Begin),
        }
    }

    /// Where its next turn is made.
    pub fn next(&self) -> Where
        ensures { result ≡ next_of self.now }
    {
        self.line.next()
    }

    /// How many turns are left at most: 6 at first.
    pub fn left(&self) -> u32
        ensures { result ≡ left_of self.now }
    {
        self.line.left()
    }

    /// What its client holds once it is over: its node, and the attempt that runs or was joined, if one was, which is of the node.
    pub fn hold(&self) -> Hold
        ensures hold { result ≡ hold_of self.now }
        ensures own { ForSome result.attempt (λ a. a.node ≡ result.node) }
    {
        Hold {
            node: self.line.node(),
            attempt: self.line.given(),
        }
    }

    /// Its turn at the node, whose line has seen so many of the door's entries. A begin doesn't ask what time it is.
    pub fn at_node(&mut self, node: &mut Node, front: u64, _now: u64)
        requires next { next_of self.old ≡ places.Node node.old.number }
        requires room { 1 ≤ node.old.room }
        requires own { may_close self.old node.old.history }
        ensures by { self.new.by ≡ self.old.by }
        ensures node { self.new.node ≡ self.old.node }
        ensures uuid { self.new.uuid ≡ self.old.uuid }
        ensures left { left_of self.new < left_of self.old }
        ensures steps { MayEnd self.old node.old.history → StepsAtNode self.old.by front (Made self.old) (Made self.new) node.old node.new }
    {
        self.line.at_node(node, front);
    }

    /// Its turn at the door.
    pub fn at_door<K: Keeper>(&mut self, door: &mut Door<K>)
        requires next { next_of self.old ≡ places.Door }
        requires open { IsTrue (is_open door.old.history) }
        ensures by { self.new.by ≡ self.old.by }
        ensures node { self.new.node ≡ self.old.node }
        ensures uuid { self.new.uuid ≡ self.old.uuid }
        ensures left { left_of self.new < left_of self.old }
        ensures steps { MayCall self.old door.old.history → StepsAtDoor self.old.by (λ trail. Made self.old trail × FrontsWithin door.old.history trail.turns) (Made self.new) door.old.history door.new.history }
        ensures cause { HasCause (IsTrue (told_fault self.new)) door.old.faults door.new.faults }
        ensures store { SameStore door.old door.new }
    {
        self.line.law_begin();
        self.line.at_door(door);
    }

    /// What stands of its line, by the turns that it has made: they are a beginning of a begin's course, made rightly, and answer
    /// nothing before the last. Once it is over they are the whole course, what is answered has its cause, and what it gives its
    /// client is what the last turn says. A turn at the node has seen at the door what it asks. Whatever its last turn has seen
    /// there, one that is over has answered by its last turn and by no other, and one that isn't over has a turn left.
    pub fn so_far(&self)
        ensures goes { (hold : Hold) (capacity : ℕ) (trail : Trail) (view : LineView) → Made self.now trail → RanSo (commands.Begin self.now.uuid self.now.node) hold capacity trail view → (next_of self.now ≡ places.Done → HasLooked trail view) → GoesRightly view }
        ensures unanswered { (hold : Hold) (capacity : ℕ) (trail : Trail) (view : LineView) → Made self.now trail → RanSo (commands.Begin self.now.uuid self.now.node) hold capacity trail view → 1 ≤ left_of self.now → IsUnanswered view }
        ensures ends { (hold : Hold) (capacity : ℕ) (trail : Trail) (view : LineView) → Made self.now trail → RanSo (commands.Begin self.now.uuid self.now.node) hold capacity trail view → next_of self.now ≡ places.Done → HasLooked trail view → EndsRightly view }
        ensures answers { (trail : Trail) → Made self.now trail → next_of self.now ≡ places.Done → IsTrue (answers_last trail.turns) }
        ensures going { next_of self.now ≢ places.Done → 1 ≤ left_of self.now }
        ensures gives { (trail : Trail) → Made self.now trail → next_of self.now ≡ places.Done → attempt_of trail.turns ≡ (hold_of self.now).attempt }
        ensures sees { (trail : Trail) (seen : List DoorEntry) → Made self.now trail → SeesOwn self.now.by trail.turns seen → IsTrue (last_sees seen trail.turns) }
        ensures aim { self.now.aim ≡ aims.Begin }
    {
        self.line.so_far();
    }
}
