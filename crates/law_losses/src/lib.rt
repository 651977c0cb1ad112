//! What no reply tells, in a legal trace: of losses, where the store keeps what it acknowledged, and of faults, where no call failed.
//!
//! It has no code.
#![tactic(auto)]

mod laws;

pub use laws::{
    fences_are_crashes, no_fault_without_a_fault, nodes_go_down_by_crashes,
    nothing_is_lost_but_by_gets,
};
