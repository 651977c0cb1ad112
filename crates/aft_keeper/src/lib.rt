//! What AFT asks of the world outside: a store, a clock, a source of files and a sink for output.
//!
//! Each is a trait whose ghost members say what a caller may rely on, with one form in memory that tells all
//! of it. The crate knows names and bytes, and nothing of transactions.
#![tactic(auto)]

mod clock;
mod copies;
mod failures;
mod fate;
mod keeper;
mod mem_keeper;
mod mem_sink;
mod mem_source;
mod pair_map;
mod sink;
mod source;
#[cfg(test)]
mod tests;

pub use clock::{Clock, FixedClock};
pub use fate::Fail;
pub use keeper::{Keeper, KeeperAnswer, KeeperCall, KeeperEntry, KeeperFault, Pair};
pub use mem_keeper::MemKeeper;
pub use mem_sink::MemSink;
pub use mem_source::MemSource;
pub use sink::{Sink, SinkFault};
pub use source::{Source, SourceFault};
