//! The values that a node keeps, the last used in front.
//!
//! The crate knows keys, ids and bytes. Who reads a value, and when, is the business of the node.
#![tactic(auto)]

mod data_cache;
mod spot;
#[cfg(test)]
mod tests;

pub use data_cache::DataCache;
pub use spot::Spot;
