//! A commit or an abort.

ghost use Rattle.std.specs.Option.{ForSome};
ghost use Rattle.std.specs.List.{list_all};
ghost use Rattle.std.specs.Prelude.{◌≡◌, ◌≢◌, ◌≤◌, ◌<◌, ◌++◌, ℕ, IsTrue, List, false, true};
ghost use Rattle.aft_commit.specs.Asks.{KnewUnused, MayCall, MayEnd, may_close, may_put};
ghost use Rattle.aft_commit.specs.Made.{Made, command_of, turn_reads};
ghost use Rattle.aft_commit.specs.Told.{entries_by};
ghost use Rattle.aft_commit.specs.View.{IsStorable, ReadsClock, has_failed, left_of, next_of};
ghost use Rattle.aft_keeper.specs.Cause.{HasCause};
ghost use Rattle.aft_lines.specs.LegalTrace.{is_clock_time};
ghost use Rattle.aft_lines.specs.LineCourse.{answers_last};
ghost use Rattle.aft_lines.specs.LineView.{LineView};
ghost use Rattle.aft_model.specs.DoorKnowledge.{is_open};
ghost use Rattle.aft_model.specs.NodeSights.{own_entries};
ghost use Rattle.aft_model.specs.declared.door.DoorEntry.{DoorEntry};
ghost use Rattle.aft_turns.specs.Stands.{EndsRightly, GoesRightly, HasLooked, IsUnanswered, RanSo, SeesOwn, last_sees};
ghost use Rattle.aft_turns.specs.Steps.{SameStore, StepsAtDoor, StepsAtNode};
ghost use Rattle.aft_turns.specs.Trail.{Trail, no_trail};
ghost use Rattle.aft_turns.specs.declared.turn.Where.TheVariants as places;

use crate::stage::Stage;
use crate::{doors, nodes};
use aft_door::Door;
use aft_keeper::Keeper;
use aft_model::{By, Hold};
use aft_node::Node;
use aft_turns::Where;
use std::alloc::Global;
use std::marker::Model;
use std::mem::replace;

/// A commit or an abort by a client, as a machine: its turns are made one by one, at the node of what the client holds and at the
/// door. Contracts see its line, what the client holds, whether it is an abort, and how far it has come.
#[derive(Drop)]
pub struct Finish {
    alloc: Global,
    by: By,
    hold: Hold,
    aborts: bool,
    stage: Stage,
}

impl Model for Finish {
    ghost use Rattle.std.specs.Option.{ForSome};
    ghost use Rattle.std.specs.Prelude.{◌≡◌};
    ghost use Rattle.aft_commit.specs.View.{FinishView, FitsAt};

    ghost Value = { FinishView };

    ghost view = { λ f. record { by = f.by; hold = f.hold; aborts = f.aborts; stage = f.stage } };

    ghost invariant = { λ f. ForSome f.hold.attempt (λ a. a.node ≡ f.hold.node) × FitsAt f.hold.node f.stage };
}

impl Finish {
    /// A commit of which nothing is done.
    pub fn commit(alloc: Global, by: By, hold: Hold) -> Finish
        requires node { ForSome hold.attempt (λ a. a.node ≡ hold.node) }
        ensures by { result.by ≡ by }
        ensures hold { result.hold ≡ hold }
        ensures commits { result.aborts ≡ false }
        ensures made { (clock : ℕ) → Made clock result no_trail }
    {
        Finish {
            alloc,
            by,
            hold,
            aborts: false,
            stage: Stage::Begins,
        }
    }

    /// An abort of which nothing is done.
    pub fn abort(alloc: Global, by: By, hold: Hold) -> Finish
        requires node { ForSome hold.attempt (λ a. a.node ≡ hold.node) }
        ensures by { result.by ≡ by }
        ensures hold { result.hold ≡ hold }
        ensures aborts { result.aborts ≡ true }
        ensures made { (clock : ℕ) → Made clock result no_trail }
    {
        Finish {
            alloc,
            by,
            hold,
            aborts: true,
            stage: Stage::Begins,
        }
    }

    /// Where its next turn is made.
    pub fn next(&self) -> Where
        ensures { result ≡ next_of self.now }
    {
        match &self.stage {
            Stage::Begins
            | Stage::Recorded { .. }
            | Stage::Doubts { .. }
            | Stage::Ends { .. }
            | Stage::ShutOut { .. } => Where::Node(self.hold.node),
            Stage::Settles { .. }
            | Stage::Stores { .. }
            | Stage::Failed { .. }
            | Stage::Releases { .. } => Where::Door,
            Stage::Ended => Where::Done,
        }
    }

    /// How many turns are left at most: 39 at first.
    pub fn left(&self) -> u32
        ensures value { result ≡ left_of self.now }
        ensures most { result ≤ 39 }
    {
        match &self.stage {
            Stage::Begins => 39,
            Stage::Settles { .. } => 38,
            Stage::Stores { written, count, .. } => {
                let keys = written.commit.keys.list();
                keys.len().saturating_sub(*count) as u32 + 5
            }
            Stage::Failed { .. } => 4,
            Stage::Recorded { .. } => 3,
            Stage::Releases { .. } => 2,
            Stage::Doubts { .. } | Stage::Ends { .. } | Stage::ShutOut { .. } => 1,
            Stage::Ended => 0,
        }
    }

    /// What its client holds, which a commit or an abort leaves as it was.
    pub fn hold(&self) -> Hold
        ensures { result ≡ self.now.hold }
    {
        self.hold
    }

    /// Its turn at the node, whose line has seen so many of the door's entries, at this time of the clock (milliseconds since 1970).
    pub fn at_node(&mut self, node: &mut Node, front: u64, now: u64)
        requires next { next_of self.old ≡ places.Node node.old.number }
        requires room { 1 ≤ node.old.room }
        requires own { may_close self.old node.old.history }
        ensures by { self.new.by ≡ self.old.by }
        ensures hold { self.new.hold ≡ self.old.hold }
        ensures aborts { self.new.aborts ≡ self.old.aborts }
        ensures left { left_of self.new < left_of self.old }
        ensures steps { (clock : ℕ) → ReadsClock self.old now clock → MayEnd self.old node.old.history → StepsAtNode self.old.by front (Made clock self.old) (Made clock self.new) node.old node.new }
    {
        let stage = replace(&mut self.stage, Stage::Ended);
        self.stage = nodes::step(node, front, now, self.by, &self.hold, self.aborts, stage);
    }

    /// Its turn at the door.
    pub fn at_door<K: Keeper>(&mut self, door: &mut Door<K>)
        requires next { next_of self.old ≡ places.Door }
        requires open { IsTrue (is_open door.old.history) }
        requires storable { IsStorable self.old }
        requires knows { may_put self.old door.old.history }
        ensures by { self.new.by ≡ self.old.by }
        ensures hold { self.new.hold ≡ self.old.hold }
        ensures aborts { self.new.aborts ≡ self.old.aborts }
        ensures left { left_of self.new < left_of self.old }
        ensures steps { (clock : ℕ) → MayCall self.old door.old.history → StepsAtDoor self.old.by (Made clock self.old) (Made clock self.new) door.old.history door.new.history }
        ensures cause { HasCause (IsTrue (has_failed self.old self.new)) door.old.faults door.new.faults }
        ensures store { SameStore door.old door.new }
    {
        let stage = replace(&mut self.stage, Stage::Ended);
        self.stage = doors::step(
            self.alloc,
            door,
            self.by,
            self.hold.node,
            self.aborts,
            stage,
        );
    }

    /// What stands of its line, by the turns that it has made: they are a beginning of the course of a commit or an abort, made
    /// rightly, and answer nothing before the last. Once it is over they are the whole course, and what is answered has its cause,
    /// of a line whose clock is the one that the first turn read, where it tells one. A turn at the node has seen at the door what
    /// it asks, and a commit that was fixed read that clock. Where its attempt's incarnation knew before the line that the UUID was
    /// unused, it knows of each put what it must. Whatever its last turn has seen at the door, one that is over has answered by its
    /// last turn and by no other, and one that isn't over has a turn left.
    pub fn so_far(&self)
        ensures goes { (clock capacity : ℕ) (trail : Trail) (view : LineView) → Made clock self.now trail → RanSo (command_of self.now.aborts) self.now.hold capacity trail view → (next_of self.now ≡ places.Done → HasLooked trail view) → GoesRightly view }
        ensures unanswered { (clock capacity : ℕ) (trail : Trail) (view : LineView) → Made clock self.now trail → RanSo (command_of self.now.aborts) self.now.hold capacity trail view → 1 ≤ left_of self.now → IsUnanswered view }
        ensures ends { (clock capacity : ℕ) (trail : Trail) (view : LineView) → Made clock self.now trail → RanSo (command_of self.now.aborts) self.now.hold capacity trail view → IsTrue (is_clock_time view.clock clock) → next_of self.now ≡ places.Done → HasLooked trail view → EndsRightly view }
        ensures answers { (clock : ℕ) (trail : Trail) → Made clock self.now trail → next_of self.now ≡ places.Done → IsTrue (answers_last trail.turns) }
        ensures going { next_of self.now ≢ places.Done → 1 ≤ left_of self.now }
        ensures sees { (clock : ℕ) (trail : Trail) (seen : List DoorEntry) → Made clock self.now trail → SeesOwn self.now.by trail.turns seen → IsTrue (last_sees seen trail.turns) }
        ensures knows { (clock : ℕ) (trail : Trail) (before since : List DoorEntry) → Made clock self.now trail → KnewUnused self.now before → own_entries self.now.by since ≡ entries_by self.now.by trail.turns → may_put self.now (before ++ since) }
        ensures reads { (clock : ℕ) (trail : Trail) → Made clock self.now trail → IsTrue (list_all (turn_reads clock) trail.turns) }
    {}
}
