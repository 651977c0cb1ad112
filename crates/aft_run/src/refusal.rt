//! Why a run is refused, with its exit status and its text.

ghost use Rattle.std.specs.Prelude.{◌≡◌, ◌⊎◌};
ghost use Rattle.aft_run.specs.Status.{status_of, refusal_of};

use crate::stop::Stop;
use aft_keeper::{Sink, SinkFault};
use std::alloc::Global;
use std::fmt;

/// Why a run is refused.
#[derive(Clone, Copy, Debug)]
pub enum Refusal<'a> {
    /// The words have no reading.
    Usage,
    /// The file of this name could not be read.
    ReadFault(&'a str),
    /// There is no file of this name.
    NoSuchFile(&'a str),
    /// This line of the script is of a form that isn't built.
    NotBuiltLine(u32),
    /// The order isn't blank, which isn't built.
    NotBuiltOrder,
    /// The store isn't empty, which isn't built.
    NotBuiltStore,
    /// A call of the store failed.
    StoreFault,
    /// Memory ran out.
    Memory,
}

impl Refusal<'_> {
    /// The exit status.
    pub fn status(&self) -> u8
        ensures { result ≡ status_of self.now }
    {
        match self {
            Refusal::Usage => 2,
            Refusal::ReadFault(_) => 3,
            Refusal::StoreFault => 5,
            Refusal::Memory => 7,
            Refusal::NoSuchFile(_) => 9,
            Refusal::NotBuiltLine(_) | Refusal::NotBuiltOrder | Refusal::NotBuiltStore => 11,
        }
    }

    /// Writes the text as one piece, and gives the status. Where there is no memory for the text, it is that of
    /// want of memory.
    pub fn tell<O: Sink>(&self, alloc: Global, sink: &mut O) -> u8
        ensures { (result ≡ status_of self.now) ⊎ (result ≡ 7) }
    {
        if let Refusal::Memory = self {
            return self.status();
        }
        match self.write(alloc, sink) {
            Err(SinkFault::Memory) => Refusal::Memory.status(),
            Ok(()) | Err(SinkFault::Failed) => self.status(),
        }
    }

    fn write<O: Sink>(&self, alloc: Global, sink: &mut O) -> Result<(), SinkFault> {
        match format!(in alloc; "{self}\n") {
            Ok(text) => sink.write(text.as_bytes()),
            Err(_) => Err(SinkFault::Memory),
        }
    }
}

impl fmt::Display for Refusal<'_> {
    fn fmt<W: fmt::Write>(&self, f: &mut fmt::Formatter<W>) -> fmt::Result {
        match self {
            Refusal::Usage => f.write_str(
                "usage: aft run FILE or aft step FILE ORDER or aft make N FIRST",
            ),
            Refusal::ReadFault(name) => write!(f, "read fault: {name}"),
            Refusal::NoSuchFile(name) => write!(f, "no such file: {name}"),
            Refusal::NotBuiltLine(line) => write!(f, "not built: line {line}"),
            Refusal::NotBuiltOrder => f.write_str("not built: order"),
            Refusal::NotBuiltStore => f.write_str("not built: store"),
            Refusal::StoreFault => f.write_str("store fault"),
            Refusal::Memory => f.write_str("out of memory"),
        }
    }
}

impl From<Stop> for Refusal<'_> {
    ghost from_gives = { λ stop refusal. refusal ≡ refusal_of stop };

    fn from(stop: Stop) -> Self {
        match stop {
            Stop::StoreFault => Refusal::StoreFault,
            Stop::NotEmpty => Refusal::NotBuiltStore,
            Stop::Memory => Refusal::Memory,
        }
    }
}
