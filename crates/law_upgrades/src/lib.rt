//! What the calls of an upgrade leave at the door, put together: where an audit opened the door, and the upgrade of its commits went
//! on from there, the door's history is that of a run of an upgrade, and the result tells how it ended.
//!
//! It has no code.
#![tactic(auto)]

mod laws;

pub use laws::{commits_stand_in_order, refusals_are_traces, upgrades_are_traces};
