//! The lines that take a node down and bring it up, turn by turn: a crash shuts the node's incarnation out of the door, and the node
//! forgets; a start brings the next incarnation up, and reads all records by pages, and the node serves what they show. Neither knows
//! what else goes on at the node or at the door between its turns. And the opening of a world over a store: it audits the store, and
//! boots each node for the first time.
#![tactic(auto)]

mod boot;
mod comings;
mod crash;
mod driving;
mod fencing;
mod opens;
mod pages;
mod reading;
mod stage;
#[cfg(test)]
mod tests;
mod turns;
mod world;

pub use boot::Boot;
pub use crash::Crash;
pub use opens::opening;
pub use world::World;
