//! Laws of what lines make: which turns the lines of each command make at the door, at nodes and at the office.
//!
//! It has no code.
#![tactic(auto)]

mod laws;

pub use laws::{courses_make, lines_make, runs_make};
