//! Laws of the courses of commits and aborts: the turns of such a line are its course exactly where its positions lead to an
//! end, and what is left of the course at each position.
//!
//! It has no code. A machine's state is a position, and its contract says what is left.
#![tactic(auto)]

mod laws;

pub use laws::{finishes_lead, left_of_endings, left_of_settlings, left_of_storings};
