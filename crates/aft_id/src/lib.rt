//! Ids of transactions, and thin types for lists, bytes and texts.
//!
//! The lowest crate: it knows no key, no stored form and no store.
#![tactic(auto)]

mod fault;
mod laws;
mod list;
mod memory;
mod txn_id;
mod uuid_text;

pub use fault::IdFault;
pub use laws::{id_order, known_texts};
pub use list::{Bytes, List, Text};
pub use memory::Memory;
pub use txn_id::{TxnId, uuid_bytes};
pub use uuid_text::parse_uuid;

#[cfg(test)]
mod tests;
