//! Laws of claims: what an attempt is doing while a line that moves it is at a position, and how far its UUID has come.
//!
//! It has no code.
#![tactic(auto)]

mod laws;

pub use laws::{
    attempts_go_along, attempts_part, attempts_stay, claims_begin, claims_stay_at_door,
    claims_stay_at_nodes, copier_follows, desk_follows, desk_stays, desk_tells,
    give_ups_are_unheld, moments_keep, moments_tell, puts_are_in_stage, stages_hold,
};
