//! Laws of the account of a run on its way: how a driver that runs its lines turn by turn keeps a run so far, and how a legal
//! trace comes of it once each line is over. They are laws of one thread, or of any driver that runs a client's lines one after
//! the other; of collections they speak as far as no node makes an entry beside one.
//!
//! It has no code.
#![tactic(auto)]

mod laws;

pub use laws::{
    accounts_are_runs, accounts_begin, accounts_end, accounts_go_on, fetchers_have_come_up,
    holds_follow, served_attempts_do_as_asked, stops_are_seen, turns_follow,
};
