//! Laws of a door's history that grows behind what a line saw: the line's positions and its course stay, and so does all that
//! its causes rest on.
//!
//! It has no code.
#![tactic(auto)]

mod laws;

pub use laws::{courses_stay, ends_stay, positions_stay, views_stay};
