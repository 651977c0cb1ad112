//! A store in a SQLite file, which tells nothing of what it holds.
//!
//! The crate knows names and bytes. It knows nothing of what they mean, and nothing of transactions: each call is one statement.
#![tactic(auto)]

mod page;
mod sqlite_keeper;
#[cfg(test)]
mod tests;

pub use sqlite_keeper::SqliteKeeper;
