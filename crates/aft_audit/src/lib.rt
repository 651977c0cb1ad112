//! The audit of a store: which of its pairs offends first, the opening of the door, and the upgrade of old records.
#![tactic(auto)]

mod fault;
mod newest;
mod opening;
mod pages;
mod pairs;
mod reading;
mod sound;
#[cfg(test)]
mod tests;
mod upgrading;
mod versions;

pub use fault::AuditFault;
pub use opening::audit;
pub use reading::record_in;
pub use sound::offender;
pub use upgrading::upgrade;
