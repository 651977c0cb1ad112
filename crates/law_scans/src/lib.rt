//! Laws of scans: what a page tells of the names that it covers, and that a whole run covers each name of its prefix
//! and lists it once.
//!
//! It has no code, and knows nothing of who asks.
#![tactic(auto)]

mod laws;

pub use laws::{pages_are_answers, pages_tell, runs_cover};
