//! Any line that keeps to one node and the door.

ghost use Rattle.std.specs.Option.{ForSome};
ghost use Rattle.std.specs.Prelude.{◌≡◌, ◌≢◌, ◌≤◌, ◌<◌, ℕ, IfOk, IsTrue, List, Option};
ghost use Rattle.aft_keeper.specs.Cause.{HasCause};
ghost use Rattle.aft_lines.specs.LegalTrace.{is_clock_time};
ghost use Rattle.aft_lines.specs.LineCourse.{answers_last};
ghost use Rattle.aft_lines.specs.LineView.{LineView};
ghost use Rattle.aft_machine.specs.Asks.{IsStorable, Knows, MayCall, MayEnd, may_close, told_fault};
ghost use Rattle.aft_machine.specs.OneNode.{AimsSo, GivesSo, HasMachine, Holds, by_of, command_of, hold_behind, is_over, left_of, made_of, next_of};
ghost use Rattle.aft_model.specs.DoorKnowledge.{is_open};
ghost use Rattle.aft_model.specs.declared.caller.Hold.{Hold};
ghost use Rattle.aft_turns.specs.Stands.{IsUnanswered, RanSo};
ghost use Rattle.aft_turns.specs.Steps.{FrontsWithin, SameStore, StepsAtDoor, StepsAtNode};
ghost use Rattle.aft_turns.specs.Trail.{Trail, no_trail};
ghost use Rattle.aft_turns.specs.declared.turn.Where.TheVariants as places;
ghost use Rattle.law_driver.specs.Driven.{Promises};

use crate::putting::Putting;
use crate::starved::Starved;
use aft_begin::{Begin, Forget};
use aft_boot::{Boot, Crash};
use aft_commit::Finish;
use aft_door::Door;
use aft_id::Bytes;
use aft_keeper::Keeper;
use aft_model::{By, Command, Hold};
use aft_node::Node;
use aft_read::Read;
use aft_records::Key;
use aft_turns::Where;
use std::alloc::{AllocError, Global};

/// The machine of a line that keeps to one node and the door. Contracts see that of its own kind.
#[derive(Drop)]
pub enum Machine {
    Begin(Begin),
    /// A forget, and what its client holds.
    Forget(Forget, Hold),
    Read(Read),
    /// A commit or an abort.
    Finish(Finish),
    Put(Putting),
    /// A put or a get for which memory was wanting.
    Starve(Starved),
    /// A crash, and what its client holds.
    Crash(Crash, Hold),
    /// A start, and what its client holds.
    Start(Boot, Hold),
}

/// A copy of a key and of a value.
fn copies(key: &Key, value: &Bytes) -> Result<(Key, Bytes), AllocError>
    ensures key { IfOk result (λ both. both.0 ≡ key.now) }
    ensures value { IfOk result (λ both. both.1 ≡ value.now) }
{
    Ok((key.clone()?, value.clone()?))
}

impl Machine {
    /// The machine of a line that asks this, of a client that holds this, of which nothing is done. Where memory is wanting to copy
    /// a key or a value, it is one that answers so.
    pub fn new(alloc: Global, by: By, hold: Hold, order: &Command) -> Machine
        requires node { ForSome hold.attempt (λ a. a.node ≡ hold.node) }
        requires kind { HasMachine order.now }
        ensures by { by_of result ≡ by }
        ensures command { command_of result ≡ order.now }
        ensures held { Holds result hold }
        ensures made { (capacity clock : ℕ) → made_of capacity clock result no_trail }
    {
        match order {
            Command::Begin { uuid, node } => { Machine::Begin(Begin::new(alloc, by, *node, *uuid)) }
            Command::Forget { uuid, node } => {
                Machine::Forget(Forget::new(alloc, by, *node, *uuid), hold)
            }
            Command::Put { key, value } => {
                match copies(key, value) {
                    Ok((key, value)) => Machine::Put(Putting::new(by, hold, key, value)),
                    Err(_) => Machine::Starve(Starved::new(by, hold, order)),
                }
            }
            Command::Get { key } => {
                let copy: Result<Key, AllocError> = key.clone();
                match copy {
                    Ok(key) => Machine::Read(Read::new(alloc, by, hold, key)),
                    Err(_) => Machine::Starve(Starved::new(by, hold, order)),
                }
            }
            Command::Commit => Machine::Finish(Finish::commit(alloc, by, hold)),
            Command::Abort => Machine::Finish(Finish::abort(alloc, by, hold)),
            Command::Crash { node } => Machine::Crash(Crash::new(by, *node), hold),
            Command::Start { node } => Machine::Start(Boot::new(alloc, by, *node), hold),
            _ => unreachable!(),
        }
    }

    /// Where its next turn is made.
    pub fn next(&self) -> Where
        ensures { result ≡ next_of self.now }
    {
        match self {
            Machine::Begin(line) => line.next(),
            Machine::Forget(line, _) => line.next(),
            Machine::Read(line) => line.next(),
            Machine::Finish(line) => line.next(),
            Machine::Put(line) => line.next(),
            Machine::Starve(line) => line.next(),
            Machine::Crash(line, _) => line.next(),
            Machine::Start(line, _) => line.next(),
        }
    }

    /// How many turns are left at most: at first 316 of a start, and 39 of any other line.
    pub fn left(&self) -> u32
        ensures { result ≡ left_of self.now }
    {
        match self {
            Machine::Begin(line) => line.left(),
            Machine::Forget(line, _) => line.left(),
            Machine::Read(line) => line.left(),
            Machine::Finish(line) => line.left(),
            Machine::Put(line) => line.left(),
            Machine::Starve(line) => line.left(),
            Machine::Crash(line, _) => line.left(),
            Machine::Start(line, _) => line.left(),
        }
    }

    /// What its client holds behind the line: of a begin that is over its node and the attempt that it gives, and of any other
    /// line what it held before. Its attempt is of its node, if that was so before.
    pub fn hold(&self) -> Hold
        ensures hold { result ≡ hold_behind self.now }
        ensures own { (before : Hold) → Holds self.now before → ForSome before.attempt (λ a. a.node ≡ before.node) → ForSome result.attempt (λ a. a.node ≡ result.node) }
    {
        match self {
            Machine::Begin(line) => line.hold(),
            Machine::Forget(_, hold) => *hold,
            Machine::Read(line) => line.hold(),
            Machine::Finish(line) => line.hold(),
            Machine::Put(line) => line.hold(),
            Machine::Starve(line) => line.hold(),
            Machine::Crash(_, hold) => *hold,
            Machine::Start(_, hold) => *hold,
        }
    }

    /// Its turn at the node, whose line has seen so many of the door's entries, at this time of the clock (milliseconds since 1970).
    pub fn at_node(&mut self, node: &mut Node, front: u64, now: u64)
        requires next { next_of self.old ≡ places.Node node.old.number }
        requires room { 1 ≤ node.old.room }
        requires own { may_close self.old node.old.history }
        ensures by { by_of self.new ≡ by_of self.old }
        ensures command { command_of self.new ≡ command_of self.old }
        ensures held { (hold : Hold) → Holds self.old hold → Holds self.new hold }
        ensures left { left_of self.new < left_of self.old }
        ensures steps { (clock : ℕ) → MayEnd now clock self.old node.old.history → StepsAtNode (by_of self.old) front (made_of node.old.capacity clock self.old) (made_of node.old.capacity clock self.new) node.old node.new }
    {
        match self {
            Machine::Begin(line) => line.at_node(node, front, now),
            Machine::Forget(line, _) => line.at_node(node, front, now),
            Machine::Read(line) => line.at_node(node, front, now),
            Machine::Finish(line) => line.at_node(node, front, now),
            Machine::Put(line) => line.at_node(node, front, now),
            Machine::Starve(line) => line.at_node(node, front, now),
            Machine::Crash(line, _) => line.at_node(node, front, now),
            Machine::Start(line, _) => line.at_node(node, front, now),
        }
    }

    /// Its turn at the door. A put has none.
    pub fn at_door<K: Keeper>(&mut self, door: &mut Door<K>)
        requires next { next_of self.old ≡ places.Door }
        requires open { IsTrue (is_open door.old.history) }
        requires storable { IsStorable self.old }
        requires knows { Knows self.old door.old.history }
        ensures by { by_of self.new ≡ by_of self.old }
        ensures command { command_of self.new ≡ command_of self.old }
        ensures held { (hold : Hold) → Holds self.old hold → Holds self.new hold }
        ensures left { left_of self.new < left_of self.old }
        ensures steps { (capacity clock : ℕ) → MayCall self.old door.old.history → StepsAtDoor (by_of self.old) (λ trail. made_of capacity clock self.old trail × FrontsWithin door.old.history trail.turns) (made_of capacity clock self.new) door.old.history door.new.history }
        ensures cause { HasCause (IsTrue (told_fault self.old self.new)) door.old.faults door.new.faults }
        ensures store { SameStore door.old door.new }
    {
        match self {
            Machine::Begin(line) => line.at_door(door),
            Machine::Forget(line, _) => line.at_door(door),
            Machine::Read(line) => line.at_door(door),
            Machine::Finish(line) => line.at_door(door),
            Machine::Put(_) | Machine::Starve(_) => unreachable!(),
            Machine::Crash(line, _) => line.at_door(door),
            Machine::Start(line, _) => line.at_door(door),
        }
    }

    /// What it promises of its line, by the turns that it has made, for whoever drives it. While a turn is left none has answered; once
    /// it is over its last turn has, whatever that had seen. What a begin that is over gives its client is what the last turn says.
    pub fn promises(&self)
        ensures promises { (hold : Hold) (capacity time : ℕ) (clock : Option ℕ) (trail : Trail) → Holds self.now hold → IsTrue (is_clock_time clock time) → made_of capacity time self.now trail → Promises (by_of self.now) (command_of self.now) hold capacity clock (is_over self.now) trail }
        ensures unanswered { (hold : Hold) (capacity time : ℕ) (trail : Trail) (view : LineView) → Holds self.now hold → made_of capacity time self.now trail → RanSo (command_of self.now) hold capacity trail view → 1 ≤ left_of self.now → IsUnanswered view }
        ensures gives { (capacity time : ℕ) (trail : Trail) → made_of capacity time self.now trail → next_of self.now ≡ places.Done → GivesSo self.now trail.turns }
        ensures answers { (capacity time : ℕ) (trail : Trail) → made_of capacity time self.now trail → next_of self.now ≡ places.Done → IsTrue (answers_last trail.turns) }
        ensures going { next_of self.now ≢ places.Done → 1 ≤ left_of self.now }
        ensures aims { AimsSo self.now }
    {
        match self {
            Machine::Begin(line) => line.so_far(),
            Machine::Forget(line, _) => line.so_far(),
            Machine::Read(line) => line.so_far(),
            Machine::Finish(line) => line.so_far(),
            Machine::Put(line) => line.so_far(),
            Machine::Starve(line) => line.so_far(),
            Machine::Crash(line, _) => line.so_far(),
            Machine::Start(line, _) => line.so_far(),
        }
    }
}
