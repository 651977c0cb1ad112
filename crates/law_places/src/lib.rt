//! Laws of places and fronts: an entry at a place keeps its rule, fronts never fall, and what an entry had seen of the door's
//! history stays when that grows.
//!
//! It has no code, and knows nothing of what an entry means.
#![tactic(auto)]

mod laws;

pub use laws::{fronts_never_fall, rules_at_places, seen_grows, seen_stays, sights_grow};
