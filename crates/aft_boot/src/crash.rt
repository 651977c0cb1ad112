//! A crash.

ghost use Rattle.std.specs.Prelude.{◌≡◌, ◌≢◌, ◌≤◌, ◌<◌, ℕ, IsTrue, List};
ghost use Rattle.aft_boot.specs.Crashed.{Made, made_at};
ghost use Rattle.aft_boot.specs.CrashView.{left_at, left_of, next_at, next_of};
ghost use Rattle.aft_boot.specs.declared.fencing.Fencing.TheVariants as stages;
ghost use Rattle.aft_lines.specs.LineCourse.{answers_last};
ghost use Rattle.aft_lines.specs.LineView.{LineView};
ghost use Rattle.aft_model.specs.DoorKnowledge.{is_open};
ghost use Rattle.aft_model.specs.declared.caller.Hold.{Hold};
ghost use Rattle.aft_model.specs.declared.door.DoorEntry.{DoorEntry};
ghost use Rattle.aft_model.specs.declared.script.Command.TheVariants as commands;
ghost use Rattle.aft_turns.specs.Stands.{EndsRightly, GoesRightly, HasLooked, IsUnanswered, LooksLate, RanSo, SeesOwn, last_sees};
ghost use Rattle.aft_turns.specs.Steps.{SameStore, StepsAtDoor, StepsAtNode};
ghost use Rattle.aft_turns.specs.Trail.{Trail, no_trail};
ghost use Rattle.aft_turns.specs.declared.turn.Where.TheVariants as places;

use crate::fencing::Fencing;
use aft_door::Door;
use aft_keeper::Keeper;
use aft_model::By;
use aft_node::Node;
use aft_turns::Where;
use std::marker::Model;

/// A crash of a node, as a machine: its turns are made one by one, at the door and at the node. It takes no memory. Contracts see
/// its line, the node, and how far it has come.
#[derive(Drop)]
pub struct Crash {
    by: By,
    node: u32,
    stage: Fencing,
}

impl Model for Crash {
    ghost use Rattle.std.specs.Prelude.{◌≢◌};
    ghost use Rattle.aft_boot.specs.CrashView.{CrashView};

    ghost Value = { CrashView };

    ghost view = { λ c. record { by = c.by; node = c.node; stage = c.stage } };

    ghost invariant = { λ c. c.node ≢ 0 };
}

impl Crash {
    /// A crash of which nothing is done, of a node that isn't the office.
    pub fn new(by: By, node: u32) -> Crash
        requires { node ≢ 0 }
        ensures by { result.by ≡ by }
        ensures node { result.node ≡ node }
        ensures made { Made result no_trail }
    {
        Crash {
            by,
            node,
            stage: Fencing::Begins,
        }
    }

    /// Where its next turn is made.
    pub fn next(&self) -> Where
        ensures { result ≡ next_of self.now }
    {
        match self.stage {
            Fencing::Begins => Where::Door,
            Fencing::Tells { .. } => Where::Node(self.node),
            Fencing::Ended => Where::Done,
        }
    }

    /// How many turns are left at most: 2 at first.
    pub fn left(&self) -> u32
        ensures { result ≡ left_of self.now }
    {
        match self.stage {
            Fencing::Begins => 2,
            Fencing::Tells { .. } => 1,
            Fencing::Ended => 0,
        }
    }

    /// Its turn at the node, whose line has seen so many of the door's entries. A crash doesn't ask what time it is.
    pub fn at_node(&mut self, node: &mut Node, front: u64, _now: u64)
        requires next { next_of self.old ≡ places.Node node.old.number }
        requires room { 1 ≤ node.old.room }
        ensures by { self.new.by ≡ self.old.by }
        ensures node { self.new.node ≡ self.old.node }
        ensures left { left_of self.new < left_of self.old }
        ensures steps { StepsAtNode self.old.by front (Made self.old) (Made self.new) node.old node.new }
    {
        self.stage = tell(node, front, self.by, self.stage);
    }

    /// Its turn at the door.
    pub fn at_door<K: Keeper>(&mut self, door: &mut Door<K>)
        requires next { next_of self.old ≡ places.Door }
        requires open { IsTrue (is_open door.old.history) }
        ensures by { self.new.by ≡ self.old.by }
        ensures node { self.new.node ≡ self.old.node }
        ensures left { left_of self.new < left_of self.old }
        ensures steps { StepsAtDoor self.old.by (Made self.old) (Made self.new) door.old.history door.new.history }
        ensures faults { door.new.faults ≡ door.old.faults }
        ensures store { SameStore door.old door.new }
    {
        let fenced = door.fence(self.node, self.by);
        self.stage = Fencing::Tells { fenced };
    }

    /// What stands of its line, by the turns that it has made: they are a beginning of a crash's course, made rightly, and answer
    /// nothing before the last. Once it is over they are the whole course, and what is answered has its cause. A turn at the node
    /// has seen at the door what it asks. Whatever its last turn has seen there, one that is over has answered by its last turn and
    /// by no other, and one that isn't over has a turn left.
    pub fn so_far(&self)
        ensures goes { (hold : Hold) (capacity : ℕ) (trail : Trail) (view : LineView) → Made self.now trail → RanSo (commands.Crash self.now.node) hold capacity trail view → GoesRightly view }
        ensures unanswered { (hold : Hold) (capacity : ℕ) (trail : Trail) (view : LineView) → Made self.now trail → RanSo (commands.Crash self.now.node) hold capacity trail view → 1 ≤ left_of self.now → IsUnanswered view }
        ensures ends { (hold : Hold) (capacity : ℕ) (trail : Trail) (view : LineView) → Made self.now trail → RanSo (commands.Crash self.now.node) hold capacity trail view → next_of self.now ≡ places.Done → HasLooked trail view → LooksLate trail view → EndsRightly view }
        ensures answers { (trail : Trail) → Made self.now trail → next_of self.now ≡ places.Done → IsTrue (answers_last trail.turns) }
        ensures going { next_of self.now ≢ places.Done → 1 ≤ left_of self.now }
        ensures sees { (trail : Trail) (seen : List DoorEntry) → Made self.now trail → SeesOwn self.now.by trail.turns seen → IsTrue (last_sees seen trail.turns) }
    {}
}

/// The turn at the node, and how far it leads.
fn tell(node: &mut Node, front: u64, by: By, stage: Fencing) -> Fencing
    requires next { next_at node.old.number stage ≡ places.Node node.old.number }
    requires room { 1 ≤ node.old.room }
    ensures left { left_at result < left_at stage }
    ensures steps { StepsAtNode by front (made_at by node.old.number stage) (made_at by node.old.number result) node.old node.new }
{
    match stage {
        Fencing::Tells { fenced } => go_down(node, front, by, fenced),
        stage => stage,
    }
}

/// The node goes down, or answers that it needn't.
fn go_down(node: &mut Node, front: u64, by: By, fenced: Option<u32>) -> Fencing
    requires { 1 ≤ node.old.room }
    ensures over { result ≡ stages.Ended }
    ensures steps { StepsAtNode by front (made_at by node.old.number (stages.Tells fenced)) (made_at by node.old.number stages.Ended) node.old node.new }
{
    node.down(front, by, fenced);
    Fencing::Ended
}
