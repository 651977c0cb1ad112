//! The mailboxes by which nodes tell one another of commits, and the office: the fault manager's and the
//! collector's desk.
//!
//! Each is a list that grows by one entry a call. What is posted where, and when, is the business of the rounds.
#![tactic(auto)]

mod copies;
mod mailbox;
mod office;
#[cfg(test)]
mod tests;

pub use mailbox::Mailbox;
pub use office::Office;
