//! A law over the definitions: every legal trace of an honest store keeps the promise.
//!
//! It puts together what the crates of laws below say of its parts, and knows nothing of how traces come about.
#![tactic(auto)]

mod laws;

pub use laws::{nothing_fails_by_itself, promise_kept};
