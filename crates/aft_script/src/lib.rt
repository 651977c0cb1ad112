//! Scripts and orders: what a person writes, and the generator that makes some.
//!
//! A script is read by a small grammar of lines, words and forms, which `specs/` has. The code reads its bytes from the front
//! to the back.
#![tactic(auto)]

mod fault;
mod forms;
mod generator;
mod laws;
mod order;
mod script;
mod split;
mod tally;
#[cfg(test)]
mod tests;
mod values;
mod verb;

pub use fault::{LineFault, ScriptFault};
pub use generator::generate;
pub use laws::{faulty_lines, known_generated, known_lines, known_texts};
pub use order::read_order;
pub use script::read_script;
