//! A forget.

ghost use Rattle.std.specs.Prelude.{◌≡◌, ◌≢◌, ◌≤◌, ◌<◌, ℕ, IsTrue, List};
ghost use Rattle.aft_begin.specs.Made.{Knows, Made, MayCall, MayEnd, may_close, told_fault};
ghost use Rattle.aft_begin.specs.View.{left_of, next_of};
ghost use Rattle.aft_begin.specs.declared.aim.Aim.TheVariants as aims;
ghost use Rattle.aft_keeper.specs.Cause.{HasCause};
ghost use Rattle.aft_lines.specs.LineCourse.{answers_last};
ghost use Rattle.aft_lines.specs.LineView.{LineView};
ghost use Rattle.aft_model.specs.DoorKnowledge.{is_open};
ghost use Rattle.aft_model.specs.declared.caller.Hold.{Hold};
ghost use Rattle.aft_model.specs.declared.door.DoorEntry.{DoorEntry};
ghost use Rattle.aft_model.specs.declared.script.Command.TheVariants as commands;
ghost use Rattle.aft_turns.specs.Stands.{EndsRightly, GoesRightly, HasLooked, IsUnanswered, RanSo, SeesOwn, last_sees};
ghost use Rattle.aft_turns.specs.Steps.{FrontsWithin, SameStore, StepsAtDoor, StepsAtNode};
ghost use Rattle.aft_turns.specs.Trail.{Trail, no_trail};
ghost use Rattle.aft_turns.specs.declared.turn.Where.TheVariants as places;

use crate::aim::Aim;
use crate::claiming::Claiming;
use aft_door::Door;
use aft_keeper::Keeper;
use aft_model::By;
use aft_node::Node;
use aft_turns::Where;
use std::alloc::Global;
use std::marker::Model;
use uuid::Uuid;

/// A forget of a UUID at a node, as a machine: its turns are made one by one, at the node and at the door. What its client holds
/// stays. Contracts see its line, the node, the UUID, and how far it has come.
#[derive(Drop)]
pub struct Forget {
    line: Claiming,
}

impl Model for Forget {
    ghost use Rattle.std.specs.Prelude.{◌≡◌};
    ghost use Rattle.aft_begin.specs.View.{ClaimView};
    ghost use Rattle.aft_begin.specs.declared.aim.Aim.TheVariants as aims;

    ghost Value = { ClaimView };

    ghost view = { λ b. b.line };

    ghost invariant = { λ b. b.line.aim ≡ aims.Forget };
}

impl Forget {
    /// A forget of which nothing is done.
    pub fn new(alloc: Global, by: By, node: u32, uuid: Uuid) -> Forget
        ensures by { result.by ≡ by }
        ensures node { result.node ≡ node }
        ensures uuid { result.uuid ≡ uuid }
        ensures left { left_of result ≡ 7 }
        ensures made { Made result no_trail }
    {
        Forget {
            line: Claiming::new(alloc, by, node, uuid, Aim::Forget),
        }
    }

    /// Where its next turn is made.
    pub fn next(&self) -> Where
        ensures { result ≡ next_of self.now }
    {
        self.line.next()
    }

    /// How many turns are left at most: 7 at first.
    pub fn left(&self) -> u32
        ensures { result ≡ left_of self.now }
    {
        self.line.left()
    }

    /// Its turn at the node, whose line has seen so many of the door's entries. A forget doesn't ask what time it is.
    pub fn at_node(&mut self, node: &mut Node, front: u64, _now: u64)
        requires next { next_of self.old ≡ places.Node node.old.number }
        requires room { 1 ≤ node.old.room }
        requires own { may_close self.old node.old.history }
        ensures by { self.new.by ≡ self.old.by }
        ensures node { self.new.node ≡ self.old.node }
        ensures uuid { self.new.uuid ≡ self.old.uuid }
        ensures left { left_of self.new < left_of self.old }
        ensures steps { MayEnd self.old node.old.history → StepsAtNode self.old.by front (Made self.old) (Made self.new) node.old node.new }
    {
        self.line.at_node(node, front);
    }

    /// Its turn at the door. Where that is the delete, the door has seen the claim and the short marker behind it.
    pub fn at_door<K: Keeper>(&mut self, door: &mut Door<K>)
        requires next { next_of self.old ≡ places.Door }
        requires open { IsTrue (is_open door.old.history) }
        requires knows { Knows self.old door.old.history }
        ensures by { self.new.by ≡ self.old.by }
        ensures node { self.new.node ≡ self.old.node }
        ensures uuid { self.new.uuid ≡ self.old.uuid }
        ensures left { left_of self.new < left_of self.old }
        ensures steps { MayCall self.old door.old.history → StepsAtDoor self.old.by (λ trail. Made self.old trail × FrontsWithin door.old.history trail.turns) (Made self.new) door.old.history door.new.history }
        ensures cause { HasCause (IsTrue (told_fault self.new)) door.old.faults door.new.faults }
        ensures store { SameStore door.old door.new }
    {
        self.line.at_door(door);
    }

    /// What stands of its line, by the turns that it has made: they are a beginning of a forget's course, made rightly, and answer
    /// nothing before the last. Once it is over they are the whole course, and what is answered has its cause. A turn at the node
    /// has seen at the door what it asks, and whoever has seen its entries there knows what its next turn at the door asks. Whatever
    /// its last turn has seen there, one that is over has answered by its last turn and by no other, and one that isn't over has a
    /// turn left.
    pub fn so_far(&self)
        ensures goes { (hold : Hold) (capacity : ℕ) (trail : Trail) (view : LineView) → Made self.now trail → RanSo (commands.Forget self.now.uuid self.now.node) hold capacity trail view → (next_of self.now ≡ places.Done → HasLooked trail view) → GoesRightly view }
        ensures unanswered { (hold : Hold) (capacity : ℕ) (trail : Trail) (view : LineView) → Made self.now trail → RanSo (commands.Forget self.now.uuid self.now.node) hold capacity trail view → 1 ≤ left_of self.now → IsUnanswered view }
        ensures ends { (hold : Hold) (capacity : ℕ) (trail : Trail) (view : LineView) → Made self.now trail → RanSo (commands.Forget self.now.uuid self.now.node) hold capacity trail view → next_of self.now ≡ places.Done → HasLooked trail view → EndsRightly view }
        ensures answers { (trail : Trail) → Made self.now trail → next_of self.now ≡ places.Done → IsTrue (answers_last trail.turns) }
        ensures going { next_of self.now ≢ places.Done → 1 ≤ left_of self.now }
        ensures sees { (trail : Trail) (seen : List DoorEntry) → Made self.now trail → SeesOwn self.now.by trail.turns seen → IsTrue (last_sees seen trail.turns) }
        ensures knows { (trail : Trail) (seen : List DoorEntry) → Made self.now trail → SeesOwn self.now.by trail.turns seen → Knows self.now seen }
        ensures aim { self.now.aim ≡ aims.Forget }
    {
        self.line.so_far();
    }
}
