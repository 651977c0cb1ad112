//! The promise, of each legal trace of a store that keeps what it acknowledged.
//!
//! It has no code.
#![tactic(auto)]

mod laws;

pub use laws::{
    contents_stay_sound, doors_are_lawful, ids_are_undamaged, ids_commit_once, ids_stay_closed,
    whole_until_superseded,
};
