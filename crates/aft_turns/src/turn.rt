//! Where a machine's next turn is.

/// Where a machine's next turn is made.
#[derive(Clone, Copy, Debug, PartialEq, Eq)]
pub enum Where {
    /// At the node of this number.
    Node(u32),
    /// At the door.
    Door,
    /// At the box of this number.
    Mail(u32),
    /// At the office.
    Office,
    /// Nowhere: the line is over.
    Done,
}
