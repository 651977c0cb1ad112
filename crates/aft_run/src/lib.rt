//! The top call of AFT: words in, an exit status and all that happened out.
//!
//! It reads the words and the files that they name, opens the store, runs the lines of a script one after the
//! other over two nodes, and writes what each was answered. It knows no store but by the trait `Keeper`. The
//! real source of files, sink and clock stand here too.
#![tactic(auto)]

mod begin;
mod commit;
mod door;
mod get;
mod limits;
mod lines;
mod node;
mod opening;
mod outside;
mod refusal;
mod replies;
mod script;
mod serial;
mod stop;
mod words;

pub use outside::{FileSource, OutSink, RealClock};
pub use serial::{Ended, aft_serial};
