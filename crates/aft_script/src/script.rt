//! Reading a script.

ghost use Rattle.std.specs.Prelude.{◌≡◌, ◌≤◌, ◌++◌, ◌∷◌, [], ◌+◌, IfErr, IfOk, IsOk, OnOk, Ok, length};
ghost use Rattle.aft_conf.specs.Settings.{AreSettings};
ghost use Rattle.aft_script.specs.Gives.{Fails, Reads};
ghost use Rattle.aft_script.specs.Limits.{Tallies, room_for};
ghost use Rattle.aft_script.specs.Runnable.{AreReadTo, AreRunnable, IsLineFor};
ghost use Rattle.aft_script.specs.Scripts.{at_line, script_of, with_line};

use crate::fault::{LineFault, Refusal, ScriptFault};
use crate::forms::line_of;
use crate::split::split_line;
use crate::tally::Tally;
use aft_conf::Conf;
use aft_id::List;
use aft_model::{Line, Script};
use std::alloc::Global;

/// The most lines of a script.
const MAX_LINES: u32 = 20_000;

/// Reads a script for as many nodes as the settings have; their background rounds count among its rounds.
///
/// `Line` has the first line that has no reading, counted from 1, with its first fault.
pub fn read_script(alloc: Global, bytes: &[u8], conf: &Conf) -> Result<Script, ScriptFault>
    requires { AreSettings conf.now }
    ensures value { Reads (λ script. script.lines) result (script_of conf.now bytes.now) }
    ensures runnable { IfOk result (λ script. AreRunnable conf.now.nodes script.lines) }
    ensures few { IfOk result (λ script. length script.lines ≤ 20000) }
{
    let mut reader = Reader::new(alloc);
    let mut number = 0;
    let mut rest = bytes;
    while let Some((line, behind)) = split_line(rest) {
        number += 1;
        if let Err(refusal) = reader.read(conf, number, line) {
            return Err(at_line(number, refusal));
        }
        rest = behind;
    }
    Ok(Script {
        lines: List::from_vec(reader.lines),
    })
}

/// Why a script is not read, where a line of it is not.
fn at_line(number: u32, refusal: Refusal) -> ScriptFault
    ensures { result ≡ at_line number refusal }
{
    match refusal {
        Refusal::Fault(fault) => ScriptFault::Line { number, fault },
        Refusal::Memory => ScriptFault::Memory,
    }
}

/// What was read of a script.
#[derive(Drop)]
struct Reader {
    alloc: Global,
    lines: Vec<Line>,
    tally: Tally,
}

impl Reader {
    /// Before the first line.
    fn new(alloc: Global) -> Reader
        ensures empty { result.lines.items ≡ [] }
        ensures tallied { Tallies result.tally result.lines.items }
    {
        Reader {
            alloc,
            lines: Vec::new(alloc),
            tally: Tally {
                starts: 0,
                managers: 0,
                collects: 0,
                orphans: 0,
                backups: 0,
            },
        }
    }

    /// Reads the line of a number.
    fn read(&mut self, conf: &Conf, number: u32, line: &[u8]) -> Result<(), Refusal>
        requires settings { AreSettings conf.now }
        requires tallied { Tallies self.old.tally self.old.lines.items }
        requires numbered { 1 ≤ number }
        requires runnable { AreReadTo conf.now.nodes number self.old.lines.items }
        ensures ok { OnOk result (with_line conf.now self.old.lines.items number line.now ≡ Ok self.new.lines.items) }
        ensures tallied { OnOk result (Tallies self.new.tally self.new.lines.items) }
        ensures few { OnOk result (number ≤ 20000) }
        ensures runnable { OnOk result (AreReadTo conf.now.nodes (number + 1) self.new.lines.items) }
        ensures refused { IfErr result (λ e. Fails e (with_line conf.now self.old.lines.items number line.now)) }
    {
        if number > MAX_LINES {
            return Err(Refusal::Fault(LineFault::TooManyLines));
        }
        let Some(said) = line_of(self.alloc, conf.nodes, line)? else {
            return Ok(());
        };
        self.push(
            conf,
            Line {
                number,
                client: said.client,
                order: said.order,
            },
        )
    }

    /// Adds a line, if there is room for its command.
    #[tactic(auto, using(crate::proofs::Runnables::read_more))]
    fn push(&mut self, conf: &Conf, line: Line) -> Result<(), Refusal>
        requires few { conf.now.rounds ≤ 20 }
        requires numbered { 1 ≤ line.number }
        requires fits { IsLineFor conf.now.nodes line }
        requires runnable { AreReadTo conf.now.nodes line.number self.old.lines.items }
        requires tallied { Tallies self.old.tally self.old.lines.items }
        ensures ok { OnOk result (IsOk (room_for conf.now.rounds self.old.lines.items line.order) × (self.new.lines.items ≡ self.old.lines.items ++ line ∷ [])) }
        ensures tallied { OnOk result (Tallies self.new.tally self.new.lines.items) }
        ensures runnable { OnOk result (AreReadTo conf.now.nodes (line.number + 1) self.new.lines.items) }
        ensures refused { IfErr result (λ e. Fails e (room_for conf.now.rounds self.old.lines.items line.order)) }
    {
        let tally = self.tally.with(conf.rounds, &line.order)?;
        self.lines.push(line)?;
        self.tally = tally;
        Ok(())
    }
}
