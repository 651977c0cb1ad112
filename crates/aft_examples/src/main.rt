//! Worked examples of whole runs, over the store, the source and the sink in memory.
//!
//! Reads cases from the standard input, runs each, and writes its exit status, how many calls of the store it made and
//! its output. The files `stdin` and `stdout` beside `src/` are the table: what is asked, and what must be answered.
#![tactic(auto)]

mod case;
#[cfg(test)]
mod edge;
mod planted;
#[cfg(test)]
mod reads;
mod runs;

use crate::case::Case;
use crate::runs::run_case;
use anyhow::Result;

fn main(rt: HostRuntime) -> Result<()> {
    run(&rt)
}

/// Runs each case of the standard input, in order. A line `case NAME` begins one.
fn run<R: Input + Print + AllocGlobal>(rt: &R) -> Result<()> {
    let mut case = Case::new(rt.alloc());
    for line in rt.lines(rt.alloc()) {
        let line = line?;
        match line.strip_prefix("case ") {
            None => case.add(line.as_str())?,
            Some(name) => {
                run_case(rt, &case)?;
                case = Case::named(rt.alloc(), name)?;
            }
        }
    }
    run_case(rt, &case)
}
