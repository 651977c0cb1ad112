//! What a turn leads to, and what it is handed.

use aft_id::{Bytes, List, TxnId};
use aft_model::{Attempt, Caller, Reply};
use aft_records::{Commit, Record};
use uuid::Uuid;

/// What the first turn of a boot leads to.
#[derive(Clone, Copy, Debug, PartialEq, Eq)]
pub enum BootGo {
    /// The incarnation boots: it comes up at the door, and reads the records.
    Go(Caller),
    /// The line is answered.
    Answered,
}

/// How a boot ends.
#[derive(Debug, Drop)]
pub enum BootEnd {
    /// The whole scan of the records showed these commits.
    Shown(List<Commit>),
    /// The scan came to no end.
    Refused(Reply),
}

/// What the first turn of a begin or a forget leads to.
#[derive(Clone, Copy, Debug, PartialEq, Eq)]
pub enum AdmitGo {
    /// The attempt opens: its incarnation claims the UUID.
    Go(Caller, Attempt),
    /// The line is answered, and takes part in this attempt.
    Joined(Attempt),
    /// The line is answered.
    Answered,
}

/// What the first turn of a get leads to.
#[derive(Clone, Copy, Debug, PartialEq, Eq)]
pub enum SelectGo {
    /// The version of this id is asked of the store.
    Fetch(Caller, TxnId),
    /// The line is answered.
    Answered,
}

/// What came of a fetch.
#[derive(Debug, Drop)]
pub enum Got {
    /// The value of the version.
    Version(Bytes),
    /// No value came.
    Refused(Reply),
}

/// What the first turn of a commit or an abort leads to.
#[derive(Debug, Drop)]
pub enum StartGo {
    /// This record is stored, and before it these values of its keys, in key order.
    Store(Caller, Record, List<Bytes>),
    /// It is asked first whether this record is stored. An abort has no values.
    Settle(Caller, Record, List<Bytes>),
    /// The UUID is let go.
    Release(Caller, Uuid),
    /// The line is answered.
    Answered,
}

/// What the first turn of an announcement leads to.
#[derive(Debug, Drop)]
pub enum AnnounceGo {
    /// The commits to announce, and those that are left out as superseded, in id order.
    Go(List<Commit>, List<Commit>),
    /// The line is answered.
    Answered,
}
