//! What a store holds: commits, versions and markers as bytes, and the names that they stand under.
//!
//! Each value has one spelling in its table, and each spelling is read back as its value. Other bytes are
//! refused by the first fault from the left. The bytes of a row are the business of `aft_fields`.
#![tactic(auto)]

mod cells;
mod commit_laws;
mod fault;
mod key;
mod keys;
mod laws;
mod name;
mod read_id;
mod reading;
mod stored;
mod tables;
#[cfg(test)]
mod tests;
mod writing;

pub use aft_fields::FieldFault;
pub use commit_laws::{commits_ascend, newest_is_last};
pub use fault::{NameFault, RecordFault};
pub use key::Key;
pub use keys::Keys;
pub use laws::{
    name_of_written, no_name_begins_another, no_spelling_begins_another, reading_by_time,
    reading_of_written, records_of_a_commit, texts_of_reads,
};
pub use name::Name;
pub use stored::{Commit, Marker, Origin, Record, Version};
