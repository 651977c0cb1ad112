//! The attempts of an incarnation of a node: what each is doing, what it has buffered and what it has read.
//!
//! Contracts see them as rows, in order of number. Which line moves an attempt on, and what it answers, is the
//! business of the node.
#![tactic(auto)]

mod buffer;
mod pins;
mod state;
mod table;
#[cfg(test)]
mod tests;
mod txn;

pub use buffer::Write;
pub use state::{State, TxnFault};
pub use table::TxnTable;
