//! Laws of claims over whole runs: who holds a UUID at each moment of a run so far, and of a legal trace.
//!
//! It has no code.
#![tactic(auto)]

mod laws;

pub use laws::{
    a_crash_fences_a_copier, claims_are_held, claims_are_new, collections_run, copies_stand,
    desk_is_held, fetches_stay_open, gets_stand_between, lines_stand, marks_stand_alone,
    numbered_lines_differ, one_line_twice, runs_keep_copiers, runs_keep_desk, runs_keep_fetches,
    runs_own, served_are_up, starts_stand, turns_find, ups_are_booting,
};
