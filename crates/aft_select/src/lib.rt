//! Which version of a key a transaction reads: the newest that keeps its reads atomic.
#![tactic(auto)]

mod blockers;
mod choose;
mod fitting;
mod laws;
mod reads;
#[cfg(test)]
mod tests;

pub use choose::select;
pub use laws::{
    absent_keeps_reads_atomic, choice_repeats, chosen_keeps_reads_atomic, none_fits_names_each,
    read_commit_never_blocked,
};
