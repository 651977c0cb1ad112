//! Laws of names and of what stands under them: names of different things differ, a text that is read as a name is its
//! spelling, and what is read from bytes is within the limits.
//!
//! It has no code, and knows nothing of who asks, and when.
#![tactic(auto)]

mod laws;

pub use laws::{
    committed_within_limits, names_are_spelled, names_differ, names_have_prefixes,
    read_within_limits,
};
