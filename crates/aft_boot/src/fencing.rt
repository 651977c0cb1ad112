//! How far a crash has come.

/// How far a crash has come.
#[derive(Clone, Copy, Debug, PartialEq, Eq)]
pub enum Fencing {
    /// Nothing is done: the node's incarnation that is up is to be fenced.
    Begins,
    /// This incarnation was fenced, or none was up, and the node is to be told.
    Tells { fenced: Option<u32> },
    /// It is answered.
    Ended,
}
