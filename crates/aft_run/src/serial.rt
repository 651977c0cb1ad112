//! The top call that waits for nobody.

ghost use Rattle.std.specs.Prelude.{◌≡◌, ◌≤◌, ◌+◌, ◌⊎◌, ◌↔◌, IsNone, IsSome, IsTrue, IsFalse, IfOk, IfErr, IsErrOf, map, vec_len, vec_capacity};
ghost use Rattle.std.specs.String.{string_bytes};
ghost use Rattle.aft_keeper.specs.Cause.{Rose, HasCause};
ghost use Rattle.aft_run.specs.Words.{are_words};
ghost use Rattle.aft_run.specs.Built.{AreBuilt};
ghost use Rattle.aft_run.specs.Status.{is_status, is_run_status, is_first_status, is_file_status, status_of, RefusedWith};

use crate::door::Door;
use crate::lines::run_lines;
use crate::node::Node;
use crate::opening::open;
use crate::refusal::Refusal;
use crate::replies::write_replies;
use crate::script::{ScriptFault, is_blank, read_script};
use crate::stop::Stop;
use crate::words::read_words;
use aft_id::{Bytes, List};
use aft_keeper::{Clock, FixedClock, Keeper, Sink, SinkFault, Source, SourceFault};
use aft_model::{Line, MailEntry, NodeEntry, Trace};
use std::alloc::{AllocError, Global};

/// How a call ended, and what it leaves.
#[derive(Drop)]
pub struct Ended<K> {
    /// The exit status.
    pub status: u8,
    /// The store, as the call left it.
    pub keeper: K,
    /// All that happened, where the store was opened or an attempt was made to.
    pub trace: Option<Trace>,
    /// The history of each mailbox. There are none yet.
    pub mail: List<List<MailEntry>>,
}

/// What is to be run.
#[derive(Drop)]
struct Plan {
    lines: Vec<Line>,
    /// The time of every reading of the clock, in milliseconds since 1970.
    time: Option<u64>,
    nodes: Nodes,
}

/// Runs what the words ask for, on one thread and without waiting for anybody.
///
/// The words are `step FILE ORDER`, with `--clock TIME` behind them or without. The script of FILE is run over the
/// store, and the replies are written to the sink. The exit statuses: 0 done; 2 the words have no reading; 3 a file
/// could not be read; 4 the replies could not be written; 5 a call of the store failed; 7 memory ran out; 9 there
/// is no such file; 11 the script, the order or the store is of a form that isn't built.
pub fn aft_serial<K: Keeper, C: Clock, S: Source, O: Sink>(
    alloc: Global,
    words: &[String],
    keeper: K,
    clock: &C,
    source: &mut S,
    sink: &mut O,
) -> Ended<K>
    ensures statuses { IsTrue (is_status result.status) }

    // A failure is told only where its count rose.
    ensures read_fault { result.status ≡ 3 → Rose (S.faults source.old) (S.faults source.new) }
    ensures write_fault { result.status ≡ 4 → Rose (O.faults sink.old) (O.faults sink.new) }
    ensures store_fault { result.status ≡ 5 → Rose (K.faults keeper) (K.faults result.keeper) }
    ensures no_such_file { result.status ≡ 9 → Rose (S.absences source.old) (S.absences source.new) }

    // Words without a reading are refused, before any file is read, and no others are.
    ensures usage { IsFalse (are_words (map string_bytes words.now)) → (result.status ≡ 2) ⊎ (result.status ≡ 7) }
    ensures usage_only { result.status ≡ 2 → IsFalse (are_words (map string_bytes words.now)) }
    ensures unread { IsFalse (are_words (map string_bytes words.now)) → source.new ≡ source.old }

    // Words and files are refused before the store is touched.
    ensures opened { IsSome result.trace → IsTrue (is_run_status result.status) }
    ensures untouched { IsNone result.trace → result.keeper ≡ keeper }
{
    let plan = match read_plan(alloc, words, source) {
        Ok(plan) => plan,
        Err(refusal) => {
            return Ended {
                status: refusal.tell(alloc, sink),
                keeper,
                trace: None,
                mail: none(alloc),
            };
        }
    };
    let Plan { lines, time, nodes } = plan;
    let Ran {
        keeper,
        trace,
        outcome,
    } = match time {
        Some(time) => run(alloc, &lines, nodes, keeper, &FixedClock { time }),
        None => run(alloc, &lines, nodes, keeper, clock),
    };
    let status = match outcome {
        Err(stop) => Refusal::from(stop).tell(alloc, sink),
        Ok(()) => finish(alloc, &trace, sink),
    };
    Ended {
        status,
        keeper,
        trace: Some(trace),
        mail: none(alloc),
    }
}

/// Reads the words, the script and the order.
fn read_plan<'a, S: Source>(
    alloc: Global,
    words: &'a [String],
    source: &mut S,
) -> Result<Plan, Refusal<'a>>
    ensures usage { RefusedWith 2 result ↔ IsFalse (are_words (map string_bytes words.now)) }
    ensures unread { RefusedWith 2 result → source.new ≡ source.old }
    ensures read_fault { HasCause (RefusedWith 3 result) (S.faults source.old) (S.faults source.new) }
    ensures no_such_file { HasCause (RefusedWith 9 result) (S.absences source.old) (S.absences source.new) }
    ensures built { IfOk result (λ plan. AreBuilt plan.lines.items) }
    ensures others { IfErr result (λ refusal. IsTrue (is_first_status (status_of refusal))) }
{
    let Some(words) = read_words(words) else {
        return Err(Refusal::Usage);
    };
    let script = read_file(source, words.script)?;
    let order = read_file(source, words.order)?;
    let script = match read_script(alloc, script.as_slice()) {
        Ok(script) => script,
        Err(ScriptFault::NotBuilt { line }) => return Err(Refusal::NotBuiltLine(line)),
        Err(ScriptFault::Memory) => return Err(Refusal::Memory),
    };
    if !is_blank(order.as_slice()) {
        return Err(Refusal::NotBuiltOrder);
    }
    let Ok(nodes) = Nodes::new(alloc) else {
        return Err(Refusal::Memory);
    };
    Ok(Plan {
        lines: script.lines.into_vec(),
        time: words.time,
        nodes,
    })
}

/// Reads a file.
fn read_file<'a, S: Source>(source: &mut S, name: &'a str) -> Result<Bytes, Refusal<'a>>
    ensures read_fault { HasCause (RefusedWith 3 result) (S.faults source.old) (S.faults source.new) }
    ensures no_such_file { HasCause (RefusedWith 9 result) (S.absences source.old) (S.absences source.new) }
    ensures others { IfErr result (λ refusal. IsTrue (is_file_status (status_of refusal))) }
{
    match source.read(name) {
        Ok(bytes) => Ok(bytes),
        Err(SourceFault::Absent) => Err(Refusal::NoSuchFile(name)),
        Err(SourceFault::Failed) => Err(Refusal::ReadFault(name)),
        Err(SourceFault::Memory) => Err(Refusal::Memory),
    }
}

/// How a run over the store ended.
struct Ran<K> {
    keeper: K,
    trace: Trace,
    outcome: Result<(), Stop>,
}

/// Opens the store and runs the lines.
fn run<K: Keeper, C: Clock>(
    alloc: Global,
    lines: &[Line],
    nodes: Nodes,
    keeper: K,
    clock: &C,
) -> Ran<K>
    requires built { AreBuilt lines.now }
    ensures cause { HasCause (IsErrOf result.outcome Stop.StoreFault) (K.faults keeper) (K.faults result.keeper) }
{
    let mut door = Door::new(alloc, keeper);
    let mut first = Node::new(alloc, 1);
    let mut second = Node::new(alloc, 2);
    let (outcome, histories) = match open(&mut door, &mut first, &mut second) {
        Ok(()) => {
            let outcome = run_lines(&mut door, &mut first, lines, clock);
            (outcome, (first.close(), second.close()))
        }
        Err(stop) => (Err(stop), (none(alloc), none(alloc))),
    };
    let (keeper, history) = door.close();
    Ran {
        keeper,
        trace: Trace {
            door: history,
            nodes: nodes.filled(histories.0, histories.1),
            office: none(alloc),
        },
        outcome,
    }
}

/// The empty list. Takes no memory.
fn none<T>(alloc: Global) -> List<T> {
    List::from_vec(Vec::new(alloc))
}

/// Room for the histories of both nodes.
#[derive(Drop)]
struct Nodes {
    histories: Vec<List<NodeEntry>>,
    ghost room: { vec_len histories + 2 ≤ vec_capacity histories },
}

impl Nodes {
    fn new(alloc: Global) -> Result<Nodes, AllocError> {
        let histories = Vec::with_capacity(alloc, 2)?;
        Ok(Nodes { histories })
    }

    /// The histories, node 1's first. Takes no memory.
    fn filled(self, first: List<NodeEntry>, second: List<NodeEntry>) -> List<List<NodeEntry>> {
        let Nodes { mut histories } = self;
        histories.push(first).unwrap();
        histories.push(second).unwrap();
        List::from_vec(histories)
    }
}

/// Writes the replies, and gives the exit status.
fn finish<O: Sink>(alloc: Global, trace: &Trace, sink: &mut O) -> u8
    ensures statuses { (result ≡ 0) ⊎ (result ≡ 4) ⊎ (result ≡ 7) }
    ensures cause { HasCause (result ≡ 4) (O.faults sink.old) (O.faults sink.new) }
{
    for history in trace.nodes.as_slice() {
        match write_replies(alloc, history.as_slice(), sink) {
            Ok(()) => {}
            Err(SinkFault::Failed) => return 4,
            Err(SinkFault::Memory) => return 7,
        }
    }
    0
}
