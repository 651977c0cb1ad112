//! Laws of the courses of the other lines: the turns of a start, of a copy, of a round of orphans, and of a line whose positions aren't told apart, are
//! its course exactly where its positions lead to an end, and what is left of the course at each position; and the beginnings of
//! an opening.
//!
//! It has no code. A machine's state is a position, and its contract says what is left.
#![tactic(auto)]

mod laws;

pub use laws::{
    along_leads, copies_lead, left_along, left_of_copies, left_of_orphans, left_of_starts,
    openings_begin, orphans_lead, starts_lead,
};
