//! One codec for every table: rows of cells, as bytes.
//!
//! A table is a tag of three bytes and the kinds of its fields. Each row has one spelling, and reading
//! answers the first fault from the left. It stands on no crate of the workspace, and knows no table.
#![tactic(auto)]

mod fault;
mod laws;
mod list;
mod reading;
mod table;
#[cfg(test)]
mod tests;
mod walk;
mod writing;

pub use fault::FieldFault;
pub use laws::{no_spelling_begins_another, reading_of_written};
pub use list::{List, Raw};
pub use table::{Cell, Kind, Layout, Row};
pub use writing::Writer;
