//! A line that claims a UUID: what a begin and a forget share.

ghost use Rattle.std.specs.Option.{ForSome};
ghost use Rattle.std.specs.Prelude.{◌≡◌, ◌≢◌, ◌≤◌, ◌<◌, ℕ, IsTrue, List};
ghost use Rattle.aft_begin.specs.Made.{Knows, Made, MayCall, MayEnd, may_close, told_fault};
ghost use Rattle.aft_begin.specs.View.{asks, given_at, hold_of, left_of, next_of};
ghost use Rattle.aft_begin.specs.declared.aim.Aim.TheVariants as aims;
ghost use Rattle.aft_begin.specs.declared.stage.Stage.TheVariants as stages;
ghost use Rattle.aft_keeper.specs.Cause.{HasCause};
ghost use Rattle.aft_lines.specs.LineCourse.{answers_last};
ghost use Rattle.aft_lines.specs.LineView.{LineView};
ghost use Rattle.aft_lines.specs.Lines.{attempt_of};
ghost use Rattle.aft_model.specs.DoorKnowledge.{is_open};
ghost use Rattle.aft_model.specs.declared.caller.Hold.{Hold};
ghost use Rattle.aft_model.specs.declared.door.DoorEntry.{DoorEntry};
ghost use Rattle.aft_turns.specs.Stands.{EndsRightly, GoesRightly, HasLooked, IsUnanswered, RanSo, SeesOwn, last_sees};
ghost use Rattle.aft_turns.specs.Steps.{FrontsWithin, SameStore, StepsAtDoor, StepsAtNode};
ghost use Rattle.aft_turns.specs.Trail.{Trail, no_trail};
ghost use Rattle.aft_turns.specs.declared.turn.Where.TheVariants as places;

use crate::aim::{Aim, spare};
use crate::doors::{claims, forgets, lets_go, seeks};
use crate::nodes::{admit, give_up, run};
use crate::sought::Sought;
use crate::stage::Stage;
use aft_door::Door;
use aft_keeper::Keeper;
use aft_model::{Attempt, By};
use aft_node::Node;
use aft_turns::Where;
use std::alloc::Global;
use std::marker::Model;
use std::mem::replace;
use uuid::Uuid;

/// A line that claims a UUID at a node, as a machine. Contracts see its line, the node, the UUID, what it claims that for, and how
/// far it has come.
#[derive(Drop)]
pub(crate) struct Claiming {
    alloc: Global,
    by: By,
    node: u32,
    uuid: Uuid,
    aim: Aim,
    stage: Stage,
}

impl Model for Claiming {
    ghost use Rattle.aft_begin.specs.View.{ClaimView, FitsAt};

    ghost Value = { ClaimView };

    ghost view = { λ l. record { by = l.by; node = l.node; uuid = l.uuid; aim = l.aim; stage = l.stage } };

    ghost invariant = { λ l. FitsAt l.aim l.node l.uuid l.stage };
}

impl Claiming {
    /// One of which nothing is done.
    pub(crate) fn new(alloc: Global, by: By, node: u32, uuid: Uuid, aim: Aim) -> Claiming
        ensures by { result.by ≡ by }
        ensures node { result.node ≡ node }
        ensures uuid { result.uuid ≡ uuid }
        ensures aim { result.aim ≡ aim }
        ensures stage { result.stage ≡ stages.Begins }
        ensures made { Made result no_trail }
    {
        Claiming {
            alloc,
            by,
            node,
            uuid,
            aim,
            stage: Stage::Begins,
        }
    }

    /// Its node.
    pub(crate) fn node(&self) -> u32
        ensures { result ≡ self.now.node }
    {
        self.node
    }

    /// Where its next turn is made.
    pub(crate) fn next(&self) -> Where
        ensures { result ≡ next_of self.now }
    {
        match &self.stage {
            Stage::Begins | Stage::Runs { .. } | Stage::GivesUp { .. } => Where::Node(self.node),
            Stage::Claims { .. }
            | Stage::Seeks { .. }
            | Stage::Forgets { .. }
            | Stage::LetsGo { .. } => Where::Door,
            Stage::Ended { .. } => Where::Done,
        }
    }

    /// How many turns are left at most.
    pub(crate) fn left(&self) -> u32
        ensures { result ≡ left_of self.now }
    {
        let spare = spare(self.aim);
        match &self.stage {
            Stage::Begins => 6 + spare,
            Stage::Claims { .. } => 5 + spare,
            Stage::Seeks {
                sought: Sought::Record,
                ..
            } => 4 + spare,
            Stage::Seeks {
                sought: Sought::Marker,
                ..
            } => 3 + spare,
            Stage::Forgets { .. } => 3,
            Stage::LetsGo { .. } => 2,
            Stage::Runs { .. } | Stage::GivesUp { .. } => 1,
            Stage::Ended { .. } => 0,
        }
    }

    /// The attempt that it gives its client, once it is over.
    pub(crate) fn given(&self) -> Option<Attempt>
        ensures given { result ≡ given_at self.now.stage }
        ensures own { ForSome result (λ a. a.node ≡ self.now.node) }
    {
        match &self.stage {
            Stage::Ended { attempt } => *attempt,
            _ => None,
        }
    }

    /// Its turn at the node, whose line has seen so many of the door's entries.
    pub(crate) fn at_node(&mut self, node: &mut Node, front: u64)
        requires next { next_of self.old ≡ places.Node node.old.number }
        requires room { 1 ≤ node.old.room }
        requires own { may_close self.old node.old.history }
        ensures by { self.new.by ≡ self.old.by }
        ensures node { self.new.node ≡ self.old.node }
        ensures uuid { self.new.uuid ≡ self.old.uuid }
        ensures aim { self.new.aim ≡ self.old.aim }
        ensures left { left_of self.new < left_of self.old }
        ensures steps { MayEnd self.old node.old.history → StepsAtNode self.old.by front (Made self.old) (Made self.new) node.old node.new }
    {
        self.stage = match replace(&mut self.stage, Stage::Ended { attempt: None }) {
            Stage::Begins => admit(self.aim, self.by, self.uuid, node, front),
            Stage::Runs { attempt } => run(self.aim, self.by, self.uuid, node, front, attempt),
            Stage::GivesUp { attempt, reply } => {
                give_up(self.aim, self.by, self.uuid, node, front, attempt, reply)
            }
            stage => stage,
        };
    }

    /// Its turn at the door.
    pub(crate) fn at_door<K: Keeper>(&mut self, door: &mut Door<K>)
        requires next { next_of self.old ≡ places.Door }
        requires open { IsTrue (is_open door.old.history) }
        requires knows { Knows self.old door.old.history }
        ensures by { self.new.by ≡ self.old.by }
        ensures node { self.new.node ≡ self.old.node }
        ensures uuid { self.new.uuid ≡ self.old.uuid }
        ensures aim { self.new.aim ≡ self.old.aim }
        ensures left { left_of self.new < left_of self.old }
        ensures steps { MayCall self.old door.old.history → StepsAtDoor self.old.by (λ trail. Made self.old trail × FrontsWithin door.old.history trail.turns) (Made self.new) door.old.history door.new.history }
        ensures cause { HasCause (IsTrue (told_fault self.new)) door.old.faults door.new.faults }
        ensures store { SameStore door.old door.new }
    {
        self.stage = match replace(&mut self.stage, Stage::Ended { attempt: None }) {
            Stage::Claims { attempt } => claims(self.aim, door, self.by, self.uuid, attempt),
            Stage::Seeks { attempt, sought } => {
                seeks(
                    self.aim, self.alloc, door, self.by, self.uuid, attempt, sought,
                )
            }
            Stage::Forgets { attempt, id } => {
                forgets(self.aim, door, self.by, self.uuid, attempt, id)
            }
            Stage::LetsGo { attempt, reply } => {
                lets_go(self.aim, door, self.by, self.uuid, attempt, reply)
            }
            stage => stage,
        };
    }

    /// A begin deletes nothing, so that the door asks nothing of what it has found.
    pub(crate) fn law_begin(&self)
        ensures { (history : List DoorEntry) → self.now.aim ≡ aims.Begin → Knows self.now history }
    {
        let _ = &self.stage;
    }

    /// What stands of its line, by the turns that it has made. Once it is over the last of them has answered and no other, whatever
    /// that has seen at the door; and one that isn't over has a turn left.
    pub(crate) fn so_far(&self)
        ensures goes { (hold : Hold) (capacity : ℕ) (trail : Trail) (view : LineView) → Made self.now trail → RanSo (asks self.now.aim self.now.uuid self.now.node) hold capacity trail view → (next_of self.now ≡ places.Done → HasLooked trail view) → GoesRightly view }
        ensures unanswered { (hold : Hold) (capacity : ℕ) (trail : Trail) (view : LineView) → Made self.now trail → RanSo (asks self.now.aim self.now.uuid self.now.node) hold capacity trail view → 1 ≤ left_of self.now → IsUnanswered view }
        ensures ends { (hold : Hold) (capacity : ℕ) (trail : Trail) (view : LineView) → Made self.now trail → RanSo (asks self.now.aim self.now.uuid self.now.node) hold capacity trail view → next_of self.now ≡ places.Done → HasLooked trail view → EndsRightly view }
        ensures answers { (trail : Trail) → Made self.now trail → next_of self.now ≡ places.Done → IsTrue (answers_last trail.turns) }
        ensures going { next_of self.now ≢ places.Done → 1 ≤ left_of self.now }
        ensures gives { (trail : Trail) → Made self.now trail → next_of self.now ≡ places.Done → attempt_of trail.turns ≡ (hold_of self.now).attempt }
        ensures sees { (trail : Trail) (seen : List DoorEntry) → Made self.now trail → SeesOwn self.now.by trail.turns seen → IsTrue (last_sees seen trail.turns) }
        ensures knows { (trail : Trail) (seen : List DoorEntry) → Made self.now trail → SeesOwn self.now.by trail.turns seen → Knows self.now seen }
    {}
}
