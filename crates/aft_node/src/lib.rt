//! A node: one serving incarnation after another, turn by turn.
//!
//! Each call is one turn. It adds the one entry to the node's history that the rules of such histories allow, or none where it
//! says none, and answers by what the node knows, what its attempts are doing, and what it is handed. What was shown at the
//! door, and which line may make which turn, is the business of the machines above.
#![tactic(auto)]

mod goes;
mod node;
#[cfg(test)]
mod tests;
mod values;

pub use goes::{AdmitGo, AnnounceGo, BootEnd, BootGo, Got, SelectGo, StartGo};
pub use node::Node;
