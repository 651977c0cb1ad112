//! The run of a case.

ghost use Rattle.std.specs.Prelude.{◌≡◌, IfOk};
ghost use Rattle.aft_keeper.specs.Contents.{IsContents};
ghost use Rattle.aft_keeper.specs.MemSource.{HasDistinctNames};

use crate::case::Case;
use crate::planted::Planted;
use aft_id::{Bytes, List, Text};
use aft_keeper::{Fail, FixedClock, Keeper, MemKeeper, MemSink, MemSource, Pair};
use aft_run::{Ended, aft_serial};
use anyhow::Result;
use std::alloc::{AllocError, Global};

/// Runs a case, and writes how it ended. A case with no name isn't run.
pub fn run_case<R: Print + AllocGlobal>(rt: &R, case: &Case) -> Result<()> {
    if case.name.is_empty() {
        return Ok(());
    }
    let alloc = rt.alloc();
    let mut sink = MemSink::new(alloc, numbers(alloc, &case.write_fails)?);
    let (status, calls) = match &case.planted {
        Some((name, bytes)) => run_planted(alloc, case, name.as_str(), bytes, &mut sink)?,
        None => run_stored(alloc, case, &mut sink)?,
    };
    let output = std::str::from_utf8(sink.taken())?;
    let name = case.name.as_str();
    println!(rt; "case {name}\nstatus {status} calls {calls}\n{output}")?;
    Ok(())
}

/// Runs a case over a store that shows what was planted. Gives the status, and no count of calls.
fn run_planted(
    alloc: Global,
    case: &Case,
    name: &str,
    bytes: &[u8],
    sink: &mut MemSink,
) -> Result<(u8, usize)> {
    let keeper = Planted { alloc, name, bytes };
    let ended = run(alloc, case, keeper, sink)?;
    Ok((ended.status, 0))
}

/// Runs a case over a store in memory. Gives the status and the count of calls.
fn run_stored(alloc: Global, case: &Case, sink: &mut MemSink) -> Result<(u8, usize)> {
    let keeper = store(alloc, case)?;
    let ended = run(alloc, case, keeper, sink)?;
    Ok((ended.status, ended.keeper.log().len()))
}

/// Runs the words of a case over its files.
fn run<K: Keeper + Drop>(
    alloc: Global,
    case: &Case,
    keeper: K,
    sink: &mut MemSink,
) -> Result<Ended<K>> {
    let files = files(alloc, &case.script, &case.order)?;
    let mut source = MemSource::new(alloc, files, numbers(alloc, &case.read_fails)?);
    let clock = FixedClock { time: 1000 };
    Ok(aft_serial(alloc, &case.words, keeper, &clock, &mut source, sink))
}

/// The files of a case.
fn files(alloc: Global, script: &[u8], order: &[u8]) -> Result<List<Pair>, AllocError>
    ensures { IfOk result HasDistinctNames }
{
    let mut files = Vec::new(alloc);
    files.push(pair(alloc, "script", script)?)?;
    files.push(pair(alloc, "order", order)?)?;
    Ok(List::from_vec(files))
}

/// The store of a case.
fn store(alloc: Global, case: &Case) -> Result<MemKeeper> {
    let mut fails = Vec::new(alloc);
    for fail in &case.store_fails {
        let (call, after) = (fail.call, fail.after);
        fails.push(Fail { call, after })?;
    }
    let stored = match &case.stored {
        Some(name) => contents(alloc, name.as_str())?,
        None => contents(alloc, "")?,
    };
    Ok(MemKeeper::new(alloc, stored, List::from_vec(fails)))
}

/// No bytes under a name, and nothing under the empty one.
fn contents(alloc: Global, name: &str) -> Result<List<Pair>, AllocError>
    ensures { IfOk result IsContents }
{
    let mut pairs = Vec::new(alloc);
    if !name.is_empty() {
        pairs.push(pair(alloc, name, b"")?)?;
    }
    Ok(List::from_vec(pairs))
}

/// A name and bytes.
fn pair(alloc: Global, name: &str, bytes: &[u8]) -> Result<Pair, AllocError>
    ensures { IfOk result (λ pair. pair.name ≡ name.now) }
{
    Ok(Pair {
        name: Text::from_string(String::from_str(alloc, name)?),
        bytes: Bytes::from_vec(Vec::from_slice(alloc, bytes)?),
    })
}

/// A list of numbers.
fn numbers(alloc: Global, from: &[u64]) -> Result<List<u64>, AllocError> {
    Ok(List::from_vec(Vec::from_slice(alloc, from)?))
}
