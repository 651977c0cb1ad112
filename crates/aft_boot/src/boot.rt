//! A start.

ghost use Rattle.std.specs.Prelude.{◌≡◌, ◌≢◌, ◌≤◌, ◌<◌, ◌-◌, ◌/◌, ℕ, IsTrue, List};
ghost use Rattle.aft_boot.specs.Booted.{BeginsWith, Made, MayCall, MayEnd, may_close, told_fault};
ghost use Rattle.aft_boot.specs.BootView.{left_of, next_of};
ghost use Rattle.aft_keeper.specs.Cause.{HasCause};
ghost use Rattle.aft_lines.specs.LineCourse.{answers_last};
ghost use Rattle.aft_lines.specs.LineView.{LineView};
ghost use Rattle.aft_model.specs.DoorKnowledge.{is_open};
ghost use Rattle.aft_model.specs.declared.caller.Hold.{Hold};
ghost use Rattle.aft_model.specs.declared.door.DoorEntry.{DoorEntry};
ghost use Rattle.aft_model.specs.declared.script.Command.TheVariants as commands;
ghost use Rattle.aft_turns.specs.Stands.{EndsRightly, GoesRightly, HasLooked, IsUnanswered, RanSo, SeesOwn, last_sees};
ghost use Rattle.aft_turns.specs.Steps.{SameStore, StepsAtDoor, StepsAtNode};
ghost use Rattle.aft_turns.specs.Trail.{Trail, no_trail};
ghost use Rattle.aft_turns.specs.declared.turn.Where.TheVariants as places;

use crate::stage::Stage;
use crate::{comings, turns};
use aft_door::Door;
use aft_keeper::Keeper;
use aft_model::By;
use aft_node::Node;
use aft_turns::Where;
use std::alloc::Global;
use std::marker::Model;
use std::mem::replace;

/// A start of a node, as a machine: its turns are made one by one, at the node and at the door. Contracts see its line, the node,
/// and how far it has come.
#[derive(Drop)]
pub struct Boot {
    alloc: Global,
    by: By,
    node: u32,
    stage: Stage,
}

impl Model for Boot {
    ghost use Rattle.std.specs.Prelude.{◌≢◌};
    ghost use Rattle.aft_boot.specs.BootView.{BootView, Fits};

    ghost Value = { BootView };

    ghost view = { λ b. record { by = b.by; node = b.node; stage = b.stage } };

    ghost invariant = { λ b. (b.node ≢ 0) × Fits b.stage };
}

impl Boot {
    /// A start of which nothing is done, of a node that isn't the office.
    pub fn new(alloc: Global, by: By, node: u32) -> Boot
        requires { node ≢ 0 }
        ensures by { result.by ≡ by }
        ensures node { result.node ≡ node }
        ensures made { Made result no_trail }
    {
        Boot {
            alloc,
            by,
            node,
            stage: Stage::Begins,
        }
    }

    /// Where its next turn is made.
    pub fn next(&self) -> Where
        ensures { result ≡ next_of self.now }
    {
        match &self.stage {
            Stage::Begins | Stage::Ends { .. } => Where::Node(self.node),
            Stage::ComesUp { .. } | Stage::Scans { .. } => Where::Door,
            Stage::Ended => Where::Done,
        }
    }

    /// How many turns are left at most: 316 at first.
    pub fn left(&self) -> u32
        ensures { result ≡ left_of self.now }
    {
        match &self.stage {
            Stage::Begins => 316,
            Stage::ComesUp { .. } => 315,
            Stage::Scans { listed, .. } => left_behind(*listed),
            Stage::Ends { .. } => 1,
            Stage::Ended => 0,
        }
    }

    /// Its turn at the node, whose line has seen so many of the door's entries. A start doesn't ask what time it is.
    pub fn at_node(&mut self, node: &mut Node, front: u64, _now: u64)
        requires next { next_of self.old ≡ places.Node node.old.number }
        requires room { 1 ≤ node.old.room }
        requires own { may_close self.old node.old.history }
        ensures by { self.new.by ≡ self.old.by }
        ensures node { self.new.node ≡ self.old.node }
        ensures left { left_of self.new < left_of self.old }
        ensures steps { MayEnd self.old node.old.history → StepsAtNode self.old.by front (Made self.old) (Made self.new) node.old node.new }
    {
        let stage = replace(&mut self.stage, Stage::Ended);
        self.stage = turns::step(node, front, self.by, stage);
    }

    /// Its turn at the door.
    pub fn at_door<K: Keeper>(&mut self, door: &mut Door<K>)
        requires next { next_of self.old ≡ places.Door }
        requires open { IsTrue (is_open door.old.history) }
        ensures by { self.new.by ≡ self.old.by }
        ensures node { self.new.node ≡ self.old.node }
        ensures left { left_of self.new < left_of self.old }
        ensures steps { MayCall self.old door.old.history → StepsAtDoor self.old.by (Made self.old) (Made self.new) door.old.history door.new.history }
        ensures cause { HasCause (IsTrue (told_fault self.new)) door.old.faults door.new.faults }
        ensures store { SameStore door.old door.new }
    {
        let stage = replace(&mut self.stage, Stage::Ended);
        self.stage = comings::step(self.alloc, door, self.by, self.node, stage);
    }

    /// What stands of its line, by the turns that it has made: they are a beginning of a start's course, made rightly, and answer
    /// nothing before the last. Once it is over they are the whole course, and what is answered has its cause. A turn at the node
    /// has seen at the door what it asks. Whatever its last turn has seen there, one that is over has answered by its last turn and
    /// by no other, and one that isn't over has a turn left.
    pub fn so_far(&self)
        ensures goes { (hold : Hold) (capacity : ℕ) (trail : Trail) (view : LineView) → Made self.now trail → RanSo (commands.Start self.now.node) hold capacity trail view → GoesRightly view }
        ensures unanswered { (hold : Hold) (capacity : ℕ) (trail : Trail) (view : LineView) → Made self.now trail → RanSo (commands.Start self.now.node) hold capacity trail view → 1 ≤ left_of self.now → IsUnanswered view }
        ensures ends { (hold : Hold) (capacity : ℕ) (trail : Trail) (view : LineView) → Made self.now trail → RanSo (commands.Start self.now.node) hold capacity trail view → next_of self.now ≡ places.Done → HasLooked trail view → EndsRightly view }
        ensures answers { (trail : Trail) → Made self.now trail → next_of self.now ≡ places.Done → IsTrue (answers_last trail.turns) }
        ensures going { next_of self.now ≢ places.Done → 1 ≤ left_of self.now }
        ensures sees { (trail : Trail) (seen : List DoorEntry) → Made self.now trail → SeesOwn self.now.by trail.turns seen → BeginsWith trail.look seen → IsTrue (last_sees seen trail.turns) }
    {
        let _ = &self.stage;
    }
}

/// How many turns are left at most where a scan has listed so many names: a page of 64 names each, and the last one.
fn left_behind(listed: usize) -> u32
    requires { listed ≤ 20000 }
    ensures { result ≡ 314 - listed / 64 }
{
    314 - (listed / 64) as u32
}
