//! The door: the one way to the store, with the history of all that was asked of it.
//!
//! It knows who is up, who holds which UUID and which commits were given up, and lets each caller do just what the rules of the
//! door's history allow.
#![tactic(auto)]

mod asked;
mod door;
mod fault;
mod index;
mod ledger;
mod refusals;
#[cfg(test)]
mod tests;

pub use door::Door;
pub use fault::DoorFault;
