//! Laws of the courses of begins, forgets and gets: the turns of such a line are its course exactly where its positions lead
//! to an end, and what is left of the course at each position.
//!
//! It has no code. A machine's state is a position, and its contract says what is left.
#![tactic(auto)]

mod laws;

pub use laws::{
    begins_lead, forgets_lead, gets_lead, left_behind_turns, left_of_begins, left_of_forgets,
    left_of_gets,
};
