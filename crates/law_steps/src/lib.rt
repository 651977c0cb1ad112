//! Laws of the steps of a run: each stands behind as many of the door's entries as its front says, and a line's own steps
//! are its turns.
//!
//! It has no code. With it, what is shown of a run step by step is shown of each line's turns.
#![tactic(auto)]

mod laws;

pub use laws::{fronts_are_exact, histories_are_steps, steps_are_turns};
