//! What a copy of the store takes: over a store that tells its contents, what they were when the copier came up.
//!
//! It has no code.
#![tactic(auto)]

mod laws;

pub use laws::{
    copied_came_through, copies_are_the_cut, copies_take_the_unmarked, unmarked_stands,
};
