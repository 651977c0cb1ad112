//! One client of a run.

ghost use Rattle.std.specs.Option.{ForSome};
ghost use Rattle.std.specs.Prelude.{◌≡◌, ◌≤◌, ◌<◌, ◌^◌, ◌↔◌, ℕ, IsTrue, None, Some, is_some, false, length, slice_get};
ghost use Rattle.aft_lines.specs.Asked.{Asked};
ghost use Rattle.aft_machine.specs.OneNode.{HasMachine, is_over};
ghost use Rattle.aft_model.specs.declared.script.Line.{Line};
ghost use Rattle.aft_lines.specs.LegalTrace.{is_clock_time};
ghost use Rattle.aft_step.specs.Going.{Goes, HasRead};
ghost use Rattle.aft_step.specs.Moving.{Begun, Moves, ReachesFirst, reach, turns_left};
ghost use Rattle.aft_step.specs.Sitting.{Driven, LeavesOthers, NextInTurn, RanWhole};
ghost use Rattle.aft_step.specs.Worlds.{WorldView, shown};
ghost use Rattle.aft_turns.specs.Trail.{no_trail};
ghost use Rattle.aft_turns.specs.Steps.{SameStore};
ghost use Rattle.law_accounts.specs.Account.{Stand};
ghost use Rattle.law_clients.specs.Clients.{Seat};

use crate::searching::next_line;
use crate::turns::turn;
use aft_boot::World;
use aft_keeper::{Clock, Keeper};
use aft_machine::Machine;
use aft_model::{By, Command, Hold, Line};
use aft_turns::Where;
use std::alloc::Global;

/// A client: what it holds, and how far its lines have come.
#[derive(Drop)]
pub(crate) struct Client {
    number: u32,
    hold: Hold,
    /// Its lines before this index are over; one that runs stands here, and the later ones wait.
    at: usize,
    running: Option<Course>,
}

/// A line that runs, and the time of the clock before its first turn (milliseconds since 1970).
#[derive(Drop)]
struct Course {
    machine: Machine,
    now: u64,
}

impl Client {
    /// The client of this number, none of whose lines has begun: it holds node 1 and no attempt.
    pub(crate) fn new(number: u32) -> Client
        ensures { result ≡ record { number = number; hold = record { node = 1; attempt = None }; at = 0; running = None } }
    {
        Client {
            number,
            hold: Hold {
                node: 1,
                attempt: None,
            },
            at: 0,
            running: None,
        }
    }

    /// Whether its line at this index isn't over.
    pub(crate) fn is_at(&self, index: usize) -> bool
        ensures { IsTrue result ↔ (self.now.at ≤ index) }
    {
        self.at <= index
    }

    /// Makes one turn of its line that runs, or of its next one, or, with `whole`, each turn to that line's end. Where it has no line
    /// left it does nothing.
    pub(crate) fn go_on<K: Keeper, C: Clock>(
        &mut self,
        alloc: Global,
        world: &mut World<K>,
        lines: &[Line],
        clock: &C,
        whole: bool,
    )
        requires at { self.old.at ≤ length lines.now }
        requires stands { (asked : Asked) × (stand : Line → Stand) × (seats : ℕ → Seat) × (asked.script.lines ≡ lines.now) × (asked.clock ≡ C.time clock.now) × Driven asked stand seats (shown world.old.door world.old.nodes world.old.boxes world.old.office) self.old × NextInTurn asked stand self.old }
        ensures number { self.new.number ≡ self.old.number }
        ensures at { self.old.at ≤ self.new.at }
        ensures within { self.new.at ≤ length lines.now }
        ensures goes { (asked : Asked) (stand : Line → Stand) (seats : ℕ → Seat) → asked.script.lines ≡ lines.now → asked.clock ≡ C.time clock.now → Driven asked stand seats (shown world.old.door world.old.nodes world.old.boxes world.old.office) self.old → NextInTurn asked stand self.old → (later : Line → Stand) × (now : ℕ → Seat) × Driven asked later now (shown world.new.door world.new.nodes world.new.boxes world.new.office) self.new × LeavesOthers asked self.old.number stand later seats now × (IsTrue whole → self.old.running ≡ None → RanWhole asked self.old.number stand later) }
        ensures whole { IsTrue whole → self.new.running ≡ None }
        ensures past { (i : ℕ) (line : Line) → IsTrue whole → slice_get lines.now i ≡ Some line → line.client ≡ self.old.number → self.old.at ≤ i → ((k : ℕ) (other : Line) → slice_get lines.now k ≡ Some other → other.client ≡ self.old.number → self.old.at ≤ k → k < i → ⊥) → i < self.new.at }
        ensures store { SameStore world.old.door world.new.door }
    {
        self.ready(alloc, lines, clock);
        self.turn(alloc, world);
        if whole {
            self.run_out(alloc, world);
        }
    }

    /// Begins its next line, if there is one, unless one runs.
    fn ready<C: Clock>(&mut self, alloc: Global, lines: &[Line], clock: &C)
        requires at { self.old.at ≤ length lines.now }
        requires stands { (asked : Asked) × (stand : Line → Stand) × (seats : ℕ → Seat) × (world : WorldView) × (asked.script.lines ≡ lines.now) × (asked.clock ≡ C.time clock.now) × Driven asked stand seats world self.old × NextInTurn asked stand self.old }
        ensures number { self.new.number ≡ self.old.number }
        ensures at { self.old.at ≤ self.new.at }
        ensures within { reach self.new.running self.new.at ≤ length lines.now }
        ensures past { ReachesFirst lines.now self.old.number self.old.at (reach self.new.running self.new.at) }
        ensures goes { (asked : Asked) (stand : Line → Stand) (seats : ℕ → Seat) (world : WorldView) → asked.script.lines ≡ lines.now → asked.clock ≡ C.time clock.now → Driven asked stand seats world self.old → NextInTurn asked stand self.old → Begun asked stand seats self.old world self.new }
    {
        if self.running.is_none() {
            self.begin(alloc, lines, clock);
        }
    }

    /// Makes each turn of the line that runs, if one does, to its end.
    fn run_out<K: Keeper>(&mut self, alloc: Global, world: &mut World<K>)
        requires fits { reach self.old.running self.old.at < 2 ^ 64 }
        requires stands { (asked : Asked) × (stand : Line → Stand) × (seats : ℕ → Seat) × Driven asked stand seats (shown world.old.door world.old.nodes world.old.boxes world.old.office) self.old }
        ensures number { self.new.number ≡ self.old.number }
        ensures at { self.old.at ≤ self.new.at }
        ensures over { self.new.running ≡ None }
        ensures reach { self.new.at ≡ reach self.old.running self.old.at }
        ensures goes { (asked : Asked) (stand : Line → Stand) (seats : ℕ → Seat) → Driven asked stand seats (shown world.old.door world.old.nodes world.old.boxes world.old.office) self.old → Moves asked stand seats self.old (shown world.new.door world.new.nodes world.new.boxes world.new.office) self.new }
        ensures store { SameStore world.old.door world.new.door }
    {
        while self.running.is_some() {
            self.turn(alloc, world);
        }
    }

    /// Begins its next line, if there is one.
    fn begin<C: Clock>(&mut self, alloc: Global, lines: &[Line], clock: &C)
        requires at { self.old.at ≤ length lines.now }
        requires idle { self.old.running ≡ None }
        requires stands { (asked : Asked) × (stand : Line → Stand) × (seats : ℕ → Seat) × (world : WorldView) × (asked.script.lines ≡ lines.now) × (asked.clock ≡ C.time clock.now) × Driven asked stand seats world self.old × NextInTurn asked stand self.old }
        ensures number { self.new.number ≡ self.old.number }
        ensures at { self.old.at ≤ self.new.at }
        ensures within { reach self.new.running self.new.at ≤ length lines.now }
        ensures past { ReachesFirst lines.now self.old.number self.old.at (reach self.new.running self.new.at) }
        ensures goes { (asked : Asked) (stand : Line → Stand) (seats : ℕ → Seat) (world : WorldView) → asked.script.lines ≡ lines.now → asked.clock ≡ C.time clock.now → Driven asked stand seats world self.old → NextInTurn asked stand self.old → Begun asked stand seats self.old world self.new }
    {
        let at = next_line(lines, self.at, self.number);
        self.at = at;
        if let Some(line) = lines.get(at) {
            self.running = Some(Course::new(alloc, self.hold, line, clock));
        }
    }

    /// Makes one turn of the line that runs, if one does. Where that is over behind it, the client holds what it gives.
    fn turn<K: Keeper>(&mut self, alloc: Global, world: &mut World<K>)
        requires fits { reach self.old.running self.old.at < 2 ^ 64 }
        requires stands { (asked : Asked) × (stand : Line → Stand) × (seats : ℕ → Seat) × Driven asked stand seats (shown world.old.door world.old.nodes world.old.boxes world.old.office) self.old }
        ensures number { self.new.number ≡ self.old.number }
        ensures at { self.old.at ≤ self.new.at }
        ensures reach { reach self.new.running self.new.at ≡ reach self.old.running self.old.at }
        ensures left { IsTrue (is_some self.old.running) → turns_left self.new.running < turns_left self.old.running }
        ensures goes { (asked : Asked) (stand : Line → Stand) (seats : ℕ → Seat) → Driven asked stand seats (shown world.old.door world.old.nodes world.old.boxes world.old.office) self.old → Moves asked stand seats self.old (shown world.new.door world.new.nodes world.new.boxes world.new.office) self.new }
        ensures store { SameStore world.old.door world.new.door }
    {
        if let Some(course) = &mut self.running {
            turn(alloc, world, &mut course.machine, course.now);
            if let Where::Done = course.machine.next() {
                self.hold = course.machine.hold();
                self.at += 1;
                self.running = None;
            }
        }
    }
}

impl Course {
    /// The course of a line of a client that holds this. A commit or an abort reads the clock.
    fn new<C: Clock>(alloc: Global, hold: Hold, line: &Line, clock: &C) -> Course
        requires node { ForSome hold.attempt (λ a. a.node ≡ hold.node) }
        requires kind { HasMachine line.now.order }
        ensures goes { (asked : Asked) → asked.clock ≡ C.time clock.now → Goes asked line.now hold result.machine result.now no_trail }
        ensures on { is_over result.machine ≡ false }
    {
        let by = By {
            client: line.client,
            line: line.number,
        };
        let now = time_for(&line.order, clock);
        let machine = Machine::new(alloc, by, hold, &line.order);
        machine.promises();
        Course { machine, now }
    }
}

/// The time of the clock for a line that asks this: a commit or an abort reads it, and any other needs none.
fn time_for<C: Clock>(order: &Command, clock: &C) -> u64
    ensures { (time : ℕ) × IsTrue (is_clock_time (C.time clock.now) time) × HasRead order.now result time }
{
    match order {
        Command::Commit => clock.now(),
        Command::Abort => clock.now(),
        _ => 0,
    }
}
