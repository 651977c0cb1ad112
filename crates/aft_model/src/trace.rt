//! All that happened in a run.

use crate::door::DoorEntry;
use crate::node::NodeEntry;
use crate::office::OfficeEntry;
use aft_id::List;

/// The histories of a run, oldest entry first.
#[derive(Debug, Drop)]
pub struct Trace {
    pub door: List<DoorEntry>,
    /// That of node n at index n - 1.
    pub nodes: List<List<NodeEntry>>,
    pub office: List<OfficeEntry>,
}
