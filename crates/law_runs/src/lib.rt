//! Laws of runs so far and of legal traces: their steps are made and come by their rules, and what follows from that.
//!
//! It has no code.
#![tactic(auto)]

mod laws;

pub use laws::{runs_come, runs_keep, runs_keep_stages, runs_retire_unheld};
