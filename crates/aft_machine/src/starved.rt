//! A put or a get for which memory was wanting.

ghost use Rattle.std.specs.Option.{ForSome};
ghost use Rattle.std.specs.Prelude.{◌≡◌, ◌≢◌, ◌≤◌, ◌<◌, ℕ, IsTrue, List};
ghost use Rattle.aft_lines.specs.LineCourse.{answers_last};
ghost use Rattle.aft_lines.specs.LineView.{LineView};
ghost use Rattle.aft_machine.specs.Starved.{Made, is_copied, left_of, next_of};
ghost use Rattle.aft_model.specs.declared.door.DoorEntry.{DoorEntry};
ghost use Rattle.aft_turns.specs.Stands.{EndsRightly, GoesRightly, HasLooked, IsUnanswered, RanSo, SeesOwn, last_sees};
ghost use Rattle.aft_turns.specs.Steps.{StepsAtNode};
ghost use Rattle.aft_turns.specs.Trail.{Trail, no_trail};
ghost use Rattle.aft_turns.specs.declared.turn.Where.TheVariants as places;

use aft_model::{By, Command, Hold, Reply};
use aft_node::Node;
use aft_turns::Where;
use std::marker::Model;
use std::snapshot::Snapshot;

/// A put or a get whose key or value couldn't be copied, as a machine: its one turn, at the node of what its client holds, answers
/// `no-memory`. Contracts see its line, what the client holds, what it asked, and whether it is answered.
#[derive(Drop)]
pub struct Starved {
    by: By,
    hold: Hold,
    /// What was asked, for contracts alone.
    order: Snapshot<Command>,
    over: bool,
}

impl Model for Starved {
    ghost use Rattle.std.specs.Option.{ForSome};
    ghost use Rattle.std.specs.Prelude.{◌≡◌, IsTrue};
    ghost use Rattle.aft_machine.specs.Starved.{StarvedView, is_copied};

    ghost Value = { StarvedView };

    ghost view = { λ s. record { by = s.by; hold = s.hold; command = s.order.value; over = s.over } };

    ghost invariant = { λ s. ForSome s.hold.attempt (λ a. a.node ≡ s.hold.node) × IsTrue (is_copied s.order.value) };
}

impl Starved {
    /// A put or a get, of which nothing is done.
    pub fn new(by: By, hold: Hold, order: &Command) -> Starved
        requires node { ForSome hold.attempt (λ a. a.node ≡ hold.node) }
        requires copied { IsTrue (is_copied order.now) }
        ensures by { result.by ≡ by }
        ensures hold { result.hold ≡ hold }
        ensures command { result.command ≡ order.now }
        ensures made { Made result no_trail }
    {
        Starved {
            by,
            hold,
            order: Snapshot::of(order),
            over: false,
        }
    }

    /// Where its next turn is made.
    pub fn next(&self) -> Where
        ensures { result ≡ next_of self.now }
    {
        if self.over {
            Where::Done
        } else {
            Where::Node(self.hold.node)
        }
    }

    /// How many turns are left: 1 at first.
    pub fn left(&self) -> u32
        ensures { result ≡ left_of self.now }
    {
        if self.over { 0 } else { 1 }
    }

    /// What its client holds, which it leaves as it was.
    pub fn hold(&self) -> Hold
        ensures { result ≡ self.now.hold }
    {
        self.hold
    }

    /// Its turn at the node, whose line has seen so many of the door's entries. It doesn't ask what time it is.
    pub fn at_node(&mut self, node: &mut Node, front: u64, _now: u64)
        requires next { next_of self.old ≡ places.Node node.old.number }
        requires room { 1 ≤ node.old.room }
        ensures by { self.new.by ≡ self.old.by }
        ensures hold { self.new.hold ≡ self.old.hold }
        ensures command { self.new.command ≡ self.old.command }
        ensures left { left_of self.new < left_of self.old }
        ensures steps { StepsAtNode self.old.by front (Made self.old) (Made self.new) node.old node.new }
    {
        node.answer(front, self.by, Reply::NoMemory);
        self.over = true;
    }

    /// What stands of its line, as of any put and get.
    pub fn so_far(&self)
        ensures goes { (capacity : ℕ) (trail : Trail) (view : LineView) → Made self.now trail → RanSo self.now.command self.now.hold capacity trail view → GoesRightly view }
        ensures unanswered { (capacity : ℕ) (trail : Trail) (view : LineView) → Made self.now trail → RanSo self.now.command self.now.hold capacity trail view → 1 ≤ left_of self.now → IsUnanswered view }
        ensures ends { (capacity : ℕ) (trail : Trail) (view : LineView) → Made self.now trail → RanSo self.now.command self.now.hold capacity trail view → next_of self.now ≡ places.Done → HasLooked trail view → EndsRightly view }
        ensures answers { (trail : Trail) → Made self.now trail → next_of self.now ≡ places.Done → IsTrue (answers_last trail.turns) }
        ensures going { next_of self.now ≢ places.Done → 1 ≤ left_of self.now }
        ensures copied { IsTrue (is_copied self.now.command) }
        ensures sees { (trail : Trail) (seen : List DoorEntry) → Made self.now trail → SeesOwn self.now.by trail.turns seen → IsTrue (last_sees seen trail.turns) }
    {
        let _over = self.over;
    }
}
