//! Laws of what the attempts of one service of a node read, and of what it knows: a key is read at one id, reads are atomic
//! beside what is known, and a get that picks nothing names what blocks it.
//!
//! It has no code. It speaks of a node's own history alone, and knows nothing of the door.
#![tactic(auto)]

mod laws;

pub use laws::{
    blockers_are_named, choice_repeats, gets_repeat, given_up_is_missed, keys_are_read_once,
    known_follows, left_out_is_missed,
};
