//! Laws of effects: what an answered act does to one name of the store. It leaves the name alone, shows it, writes it, or
//! tries to.
//!
//! It has no code. What stands above goes by these effects, and never by calls and answers.
#![tactic(auto)]

mod laws;

pub use laws::{effects_are_honest, effects_follow, proven_by_effect};
