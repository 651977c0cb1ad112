//! Laws of a driver that runs starts by their machine: what the machine asks of its next turn stands where the run has come. It
//! knows nothing of what a turn makes, which `law_driver` keeps of any machine.
//!
//! It has no code.
#![tactic(auto)]

mod laws;

pub use laws::{
    boots_are_ended_by_their_lines, own_boots_run, starts_are_newest, starts_end_own,
    starts_may_go_on,
};
