//! Laws of who holds what: how far a line has come at the door under its claim, at each of its positions.
//!
//! It has no code.
#![tactic(auto)]

mod laws;

pub use laws::{acts_are_own, bystanders_stay, others_stay, puts_move, rows_move};
