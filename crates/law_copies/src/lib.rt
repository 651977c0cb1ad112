//! Copies of the store, in a legal trace of a store that keeps what it acknowledged: they are shown no damage, and find each version
//! that they ask for.
//!
//! It has no code.
#![tactic(auto)]

mod laws;

pub use laws::{copies_are_undamaged, damage_is_told_by_gets, shown_absent_stays_unmarked};
