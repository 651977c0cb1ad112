use crate::{Invocation, Setup, USAGE, read_words};
use std::alloc::{AllocError, Global};
use std::test::Fail;

// The words of a line: each space ends one, so two of them have an empty word between.
fn words_of(alloc: Global, line: &str) -> Result<Vec<String>, AllocError> {
    let mut words = Vec::new(alloc);
    for word in line.split(' ') {
        words.push(String::from_str(alloc, word)?)?;
    }
    Ok(words)
}

// What a run stands on that is given nothing.
const BARE: Setup<'static> = Setup {
    conf: None,
    store: None,
    time: None,
};

// What a run stands on that is given a time.
fn at(time: u64) -> Setup<'static> {
    Setup {
        time: Some(time),
        ..BARE
    }
}

// `step a b` with that.
fn step(setup: Setup<'static>, trace: bool) -> Invocation<'static> {
    Invocation::Step {
        script: "a",
        order: "b",
        setup,
        trace,
    }
}

// `run FILE` without options.
fn run(script: &str) -> Invocation<'_> {
    Invocation::Run {
        script,
        setup: BARE,
        trace: false,
    }
}

// `make` of a first state.
fn make(transactions: u32, first: u64) -> Invocation<'static> {
    Invocation::Make {
        transactions,
        first,
    }
}

#[test]
fn names_and_options_that_are_read(rt: HostRuntime) -> Result<(), Fail> {
    let all = Setup {
        conf: Some("c"),
        store: Some("d"),
        time: Some(7),
    };
    let cases = [
        ("run a", run("a")),
        ("run -", run("-")),
        ("run -- -", run("-")),
        ("run a --", run("a")),
        ("run -- --", run("--")),
        ("run a=b", run("a=b")),
        ("run -- --trace", run("--trace")),
        ("step a b", step(BARE, false)),
        ("step a b --trace", step(BARE, true)),
        ("step a b --clock 1000", step(at(1000), false)),
        ("step --clock=1000 a b", step(at(1000), false)),
        ("step a --clock 0007 b", step(at(7), false)),
        ("step a b --clock=0", step(at(0), false)),
        (
            "step a b --clock 18446744073709551615",
            step(at(18_446_744_073_709_551_615), false),
        ),
        (
            "step --clock 7 --conf c --store d --trace a b",
            step(all, true),
        ),
        (
            "step a --store=d b --trace --conf=c --clock=7",
            step(all, true),
        ),
        ("step --clock 7 --conf c --store d -- a b", step(all, false)),
        ("make 1 7", make(1, 7)),
        ("make -- 1 7", make(1, 7)),
        ("make 0005000 00", make(5000, 0)),
        (
            "make 5000 18446744073709551615",
            make(5000, 18_446_744_073_709_551_615),
        ),
    ];
    for (line, wanted) in cases {
        let words = words_of(rt.alloc(), line)?;
        assert!(rt; read_words(&words) == Some(wanted), "at {line}");
    }
    Ok(())
}

#[test]
fn further_commands_that_are_read(rt: HostRuntime) -> Result<(), Fail> {
    let held = Setup {
        conf: Some("-"),
        store: Some("d=e"),
        time: None,
    };
    let cases = [
        (
            "run a --conf=- --store=d=e",
            Invocation::Run {
                script: "a",
                setup: held,
                trace: false,
            },
        ),
        (
            "upgrade",
            Invocation::Upgrade {
                store: None,
                time: None,
            },
        ),
        (
            "upgrade --clock 7 --store d",
            Invocation::Upgrade {
                store: Some("d"),
                time: Some(7),
            },
        ),
        (
            "session a b c --conf=- --store=d=e",
            Invocation::Session {
                script: "a",
                order: "b",
                ask: "c",
                setup: held,
            },
        ),
        (
            "backup --clock=7 a b",
            Invocation::Backup {
                script: "a",
                order: "b",
                setup: at(7),
            },
        ),
        (
            "restore a",
            Invocation::Restore {
                copy: "a",
                store: None,
            },
        ),
        (
            "restore --store d a",
            Invocation::Restore {
                copy: "a",
                store: Some("d"),
            },
        ),
        ("check -- -a", Invocation::Check { trace: "-a" }),
    ];
    for (line, wanted) in cases {
        let words = words_of(rt.alloc(), line)?;
        assert!(rt; read_words(&words) == Some(wanted), "at {line}");
    }
    Ok(())
}

// The first of the lines, which `|` separates, that has a reading.
fn first_read(alloc: Global, lines: &str) -> Result<Option<&str>, AllocError> {
    for line in lines.split('|') {
        let words = words_of(alloc, line)?;
        if read_words(&words).is_some() {
            return Ok(Some(line));
        }
    }
    Ok(None)
}

#[test]
fn words_that_are_refused(rt: HostRuntime) -> Result<(), Fail> {
    let cases = [
        (
            "no command first",
            "| run a|Run a|runs a|help|version|--help|-h|--|-- run a|--trace run a|--clock 1 step a b",
        ),
        (
            "few names",
            "run|run --trace|step|step a|make|make 1|session a b|backup a|restore|check",
        ),
        (
            "many names",
            "run a b|run -- a b|step a b c|step a -- b c|make 1 1 1|upgrade a|session a b c d|session a b c d e|backup a b c|restore a b|check a b",
        ),
        (
            "an empty name",
            "run |step a |step  b|run -- |run a --conf |run a --store |run a --conf=|run a --store=|session a b |restore |check ",
        ),
        (
            "another option",
            "step a -b|run a -t|run a --help|run a --version|run a --Trace|run a --conf2 b|run a --con b|run a -conf b|run a ---|run a -=|run a --=b|run a --clocks=1|make -1 1|make 1 -1",
        ),
        ("no value", "run a --conf|run a --store|run a --clock"),
        (
            "a value with a hyphen",
            "run a --conf -|run a --store -d|run a --conf --trace|run --conf -- a|run a --clock -1",
        ),
        (
            "a flag with a value",
            "run a --trace=|run a --trace=yes|step a b --trace=",
        ),
        (
            "twice",
            "step a b --clock 1 --clock 1|run a --clock=1 --clock 1|run a --conf b --conf b|run a --store=d --store=d|run a --trace --trace",
        ),
        (
            "no time",
            "run a --clock=|run a --clock |run a --clock +1|run a --clock=-1|run a --clock 1a|run a --clock=0x1|run a --clock 1_0|run a --clock 18446744073709551616",
        ),
        (
            "no numbers of make",
            "make 0 1|make 5001 1|make 18446744073709551617 1|make +1 1|make a 1|make - 1|make  1|make 1 |make 1 +1|make 1 1.0|make 1 18446744073709551616",
        ),
        (
            "an option of other commands",
            "make 1 1 --trace|make 1 1 --clock 1|make --conf c 1 1|make 1 --store=d 1|upgrade --conf c|upgrade --trace|session a b c --trace|backup a b --trace|restore a --clock 1|restore a --conf c|restore a --trace|check a --store d|check a --clock=1|check --conf=c a|check a --trace",
        ),
    ];
    for (reason, lines) in cases {
        assert_eq!(rt; first_read(rt.alloc(), lines)?, None, "{reason}");
    }
    let none = Vec::<String>::new(rt.alloc());
    assert!(rt; read_words(&none).is_none());
    Ok(())
}

#[test]
fn usage(rt: HostRuntime) {
    assert_eq!(rt;
        USAGE,
        "usage: aft run FILE or aft step FILE ORDER or aft make N FIRST or aft upgrade or aft session FILE ORDER ASK or aft backup FILE ORDER or aft restore COPY or aft check FILE"
    );
}
