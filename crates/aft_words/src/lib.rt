//! The words of the program's command line, and what they ask for.
#![tactic(auto)]

mod examples;
mod given;
mod invocation;
mod reading;
mod spelling;
#[cfg(test)]
mod tests;

pub use examples::{commands, options, refused};
pub use invocation::{Invocation, Setup, USAGE};
pub use reading::read_words;
