//! What a command line asks for.

/// What is written, with a line's end behind it, where the words have no reading.
pub const USAGE: &str =
    "usage: aft run FILE or aft step FILE ORDER or aft make N FIRST or aft upgrade or aft session FILE ORDER ASK or aft backup FILE ORDER or aft restore COPY or aft check FILE";

/// What a run stands on, where it is given. Names of files aren't empty.
#[derive(Clone, Copy, Debug, PartialEq, Eq)]
pub struct Setup<'a> {
    /// The file of the settings; without one they are the defaults.
    pub conf: Option<&'a str>,
    /// The file of the store; without one the store is in memory.
    pub store: Option<&'a str>,
    /// The time of every reading of the clock, in milliseconds since 1970.
    pub time: Option<u64>,
}

/// What a command line asks for. Names of files aren't empty.
#[derive(Clone, Copy, Debug, PartialEq, Eq)]
pub enum Invocation<'a> {
    /// Runs a script in threads, and prints the replies, and behind them the trace if that is wanted.
    Run {
        script: &'a str,
        setup: Setup<'a>,
        trace: bool,
    },
    /// Runs a script turn by turn in an order, and prints the replies, and behind them the trace if that is wanted.
    Step {
        script: &'a str,
        order: &'a str,
        setup: Setup<'a>,
        trace: bool,
    },
    /// Runs 1 to 5,000 generated transactions, and prints a summary.
    Make {
        transactions: u32,
        /// The generator's first state.
        first: u64,
    },
    /// Rewrites the old records of a store. Time is in milliseconds since 1970.
    Upgrade {
        store: Option<&'a str>,
        time: Option<u64>,
    },
    /// Steps a script, and then the lines of a session.
    Session {
        script: &'a str,
        order: &'a str,
        ask: &'a str,
        setup: Setup<'a>,
    },
    /// Steps a script with a backup line, and prints the copy.
    Backup {
        script: &'a str,
        order: &'a str,
        setup: Setup<'a>,
    },
    /// Puts a copy into an empty store.
    Restore {
        copy: &'a str,
        store: Option<&'a str>,
    },
    /// Checks a trace.
    Check {
        trace: &'a str,
    },
}
