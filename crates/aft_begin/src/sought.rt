//! What a line that claims a UUID looks for at the store.

/// What is looked for under a UUID.
#[derive(Clone, Copy, Debug, PartialEq, Eq)]
pub enum Sought {
    /// The record of its commit.
    Record,
    /// The marker of a commit that was retired.
    Marker,
}
