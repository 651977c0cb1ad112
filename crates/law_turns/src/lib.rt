//! Laws of the order of a line's turns: they stand in the order of their moments, and that is the order in which they were
//! made.
//!
//! It has no code, and knows nothing of what a turn does.
#![tactic(auto)]

mod laws;

pub use laws::{order_of_turns, turns_ascend};
