//! What follows for whole histories of the door from what is kept of each UUID: an id commits once, and commits are whole
//! until they are superseded.
//!
//! It has no code, and knows nothing of lines and courses.
#![tactic(auto)]

mod laws;

pub use laws::{
    acknowledged_throughout, beginnings_are_lawful, committed_once_throughout, kept_throughout,
    promised_of_the_door, readable_throughout, settled_rightly, tried_was_given_up,
    undeleted_is_found, unmarked_is_whole, used_no_more_throughout, values_are_held,
    whole_throughout,
};
