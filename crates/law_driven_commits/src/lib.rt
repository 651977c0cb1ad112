//! Laws of a driver that runs commits and aborts by their machine: what the machine asks of its next turn stands where the run
//! has come. It knows nothing of what a turn makes, which `law_driver` keeps of any machine.
//!
//! It has no code.
#![tactic(auto)]

mod laws;

pub use laws::{commits_may_store, finishes_may_go_on};
