//! The program: makes the store in memory, and the clock, the source of files and the sink of the process, and calls
//! the library.
#![tactic(auto)]

use aft_id::List;
use aft_keeper::MemKeeper;
use aft_run::{FileSource, OutSink, RealClock, aft_serial};
use std::process::ExitCode;
use std::{env, io};

/// The exit status where memory runs out before the library is called.
const NO_MEMORY: u8 = 7;

fn main(rt: HostRuntime) -> ExitCode {
    match run(&rt) {
        Ok(status) => ExitCode::from(status),
        Err(_) => ExitCode::from(NO_MEMORY),
    }
}

/// Runs what the words of the command line ask for, and gives the exit status.
fn run(rt: &HostRuntime) -> io::Result<u8> {
    let alloc = rt.alloc();
    let words = words(rt)?;
    let (pairs, fails) = (Vec::new(alloc), Vec::new(alloc));
    let keeper = MemKeeper::new(alloc, List::from_vec(pairs), List::from_vec(fails));
    let clock = RealClock::new(rt);
    let mut source = FileSource::new(rt);
    let mut sink = OutSink::new(rt);
    let ended = aft_serial(alloc, &words, keeper, &clock, &mut source, &mut sink);
    Ok(ended.status)
}

/// The words behind the program's name.
fn words(rt: &HostRuntime) -> io::Result<Vec<String>> {
    let mut words = Vec::new(rt.alloc());
    for word in env::args(rt)?.skip(1) {
        words.push(word)?;
    }
    Ok(words)
}
