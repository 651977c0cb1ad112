//! The beginning of what is kept of one UUID: where the door has just been opened.
//!
//! It has no code, and knows nothing of nodes, lines and courses.
#![tactic(auto)]

mod laws;

pub use laws::kept_at_opened;
