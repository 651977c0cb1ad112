//! The promise of runs in which no line runs, since the opening was refused or memory was wanting for its threads, and of
//! runs that upgrade what is stored.
//!
//! It has no code.
#![tactic(auto)]

mod laws;

pub use laws::{
    contents_are_sound_throughout, finished_upgrades_leave_upgraded, lookers_are_lawful,
    refused_only_look, refused_runs_keep_the_promise, upgraders_are_lawful,
    upgrades_keep_the_promise, upgrades_only_upgrade, used_ids_stay_closed,
};
