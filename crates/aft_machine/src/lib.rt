//! The machine of any line that keeps to one node and the door, so that one driver can run it, on one thread or on many.
#![tactic(auto)]

mod buffering;
mod machine;
mod putting;
mod starved;

pub use machine::Machine;
pub use putting::Putting;
pub use starved::Starved;
