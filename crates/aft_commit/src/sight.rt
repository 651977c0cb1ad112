//! What a look for the record of a commit shows.

use aft_model::Reply;

/// What a look for the record of a commit shows.
#[derive(Debug, Drop)]
pub(crate) enum Sight {
    /// This commit's record.
    Recorded,
    /// Nothing is there.
    Absent,
    /// The store failed.
    Failed,
    /// Nothing of use, which is told so: damage, a fence, or want of memory.
    Refused(Reply),
}
