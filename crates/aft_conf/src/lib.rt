//! The settings of a run, and how they are read from a TOML table.
#![tactic(auto)]

mod conf;
mod fault;
mod reading;
#[cfg(test)]
mod tests;

pub use conf::Conf;
pub use fault::ConfFault;
pub use reading::read_conf;
