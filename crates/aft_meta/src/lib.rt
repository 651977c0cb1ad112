//! Known commits: which commits a node knows, and which of them are superseded.
//!
//! `Meta` is an index, and `PlainMeta` a list; contracts see both as the list of known commits in id order.
#![tactic(auto)]

mod acts;
mod commit_set;
mod ids;
mod known;
mod meta;
mod noted;
mod plain_meta;
#[cfg(test)]
mod tests;
mod writers;

pub use acts::{MetaAct, replay};
pub use commit_set::{CommitSet, Learnt};
pub use meta::Meta;
pub use plain_meta::PlainMeta;
