//! A lock round a value that keeps its history, and the passes that take turns at it.
//!
//! It stands on no other crate of the workspace, and knows nothing of what the entries of a history mean.
#![tactic(auto)]

mod chron;
mod memory;
mod pass;
mod plays;
mod storied;
mod turn;
mod view;

pub use chron::Chron;
pub use memory::Memory;
pub use pass::Pass;
pub use storied::Storied;
pub use turn::{Held, Turn};

#[cfg(test)]
mod tests;
