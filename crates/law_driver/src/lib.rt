//! Laws of a driver that runs lines by their machines on one thread: each turn of a machine, which has seen all that is at the
//! door, keeps the account of the run, and the machine stands behind it as it promises. It knows of machines only what all of
//! them promise, and nothing of what they run.
//!
//! It has no code.
#![tactic(auto)]

mod laws;

pub use laws::{door_turns_keep, lines_begin, node_turns_keep, others_stay};
