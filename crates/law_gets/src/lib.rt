//! The parts of the promise on gets, of each legal trace.
//!
//! It has no code.
#![tactic(auto)]

mod laws;

pub use laws::{
    blockers_stay_named, gets_lose_nothing, gets_repeat, own_puts_and_repeats, own_puts_answered,
    reads_atomic, reads_recorded, values_are_recorded,
};
