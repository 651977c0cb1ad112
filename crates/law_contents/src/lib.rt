//! What a store holds whose contents go along with a history of the door.
//!
//! It has no code, and knows nothing of nodes, lines and courses.
#![tactic(auto)]

mod laws;

pub use laws::{
    contents_are_possible, contents_are_sound, contents_keep_ids, unmarked_commits_are_held,
};
