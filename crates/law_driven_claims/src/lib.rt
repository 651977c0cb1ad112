//! Laws of begins and forgets that a driver runs by their machines: what a machine asks of its next turn stands in each run that
//! has an account, so that the driver may make the turn.
//!
//! It has no code.
#![tactic(auto)]

mod laws;

pub use laws::{begins_may_go_on, forgets_may_go_on};
