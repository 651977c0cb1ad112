//! Lines that are shown no damage in a legal trace of a store that keeps what it acknowledged, beside those of `law_promise`.
//!
//! It has no code.
#![tactic(auto)]

mod laws;

pub use laws::{
    damage_is_told_of_versions_alone, pages_are_undamaged, settlers_are_undamaged,
    settlers_find_their_own, settlers_settle_what_is_fixed,
};
