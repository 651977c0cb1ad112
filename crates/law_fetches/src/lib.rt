//! Laws of what lines fetch, and of the values that gets answer: a version that is fetched is found, and each value that a node
//! answers is that of the version.
//!
//! It has no code, and knows nothing of lines and courses.
#![tactic(auto)]

mod laws;

pub use laws::{fetched_is_not_given_up, fetched_is_there, values_are_read};
