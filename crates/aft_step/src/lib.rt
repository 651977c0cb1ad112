//! One thread: the lines of a script, run over a world in the order of its words, a turn of one line and then of another. It knows how
//! lines take turns, and nothing of what a line's turns do, which its machine knows.
#![tactic(auto)]

mod client;
mod searching;
mod stepping;
mod turns;

pub use stepping::step;
