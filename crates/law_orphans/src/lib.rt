//! What the rule on orphan versions deletes, over a store that keeps what it acknowledged.
//!
//! It has no code.
#![tactic(auto)]

mod laws;

pub use laws::{orphans_are_deleted, rounds_delete_orphans};
