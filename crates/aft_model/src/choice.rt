//! Which version a get reads.

use aft_id::{Bytes, List, TxnId};
use aft_records::Key;

/// Why a known version doesn't fit: its commit wrote a key that was read at a lower id.
#[derive(Debug, Drop)]
pub struct Blocked {
    /// The version that doesn't fit.
    pub id: TxnId,
    /// A key that its commit wrote.
    pub key: Key,
    /// The lower id at which that key was read, or the zero id where it was absent.
    pub read: TxnId,
}

/// The choice of a version.
#[derive(Debug, Drop)]
pub enum Choice {
    /// The version with this id.
    Version(TxnId),
    /// The key is absent.
    Absent,
    /// No version fits: why, ascending by id. Where the reads are atomic, each known version is blocked.
    NoneFits(List<Blocked>),
}

/// What a get picked in its turn at the node.
#[derive(Debug, Drop)]
pub enum Picked {
    /// The attempt's own last put of the key.
    Own(Bytes),
    /// This version, whose bytes the node had kept.
    Cached(TxnId, Bytes),
    /// This version, which the store is asked for.
    Fetch(TxnId),
    /// The key is absent.
    Absent,
    /// No version fits: why, ascending by id. Where the reads are atomic, each known version is blocked.
    NoneFits(List<Blocked>),
}
