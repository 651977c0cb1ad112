//! Who asks.

/// Whose line an entry is made for. Client 0 with line 0 is the opening, and client 0 with a greater line a
/// background line.
#[derive(Clone, Copy, Debug, PartialEq, Eq)]
pub struct By {
    /// 1 to 64, or 0.
    pub client: u32,
    /// The line's number in its script, counted from 1, or 0.
    pub line: u32,
}

/// An incarnation of a node, or the office, that calls the door for a line.
#[derive(Clone, Copy, Debug, PartialEq, Eq)]
pub struct Caller {
    /// 1 to 8, or 0 for the office.
    pub node: u32,
    /// Counted from 1 at each node. The office has incarnation 1.
    pub inc: u32,
    pub by: By,
}

/// One attempt of a transaction at an incarnation of a node.
#[derive(Clone, Copy, Debug, PartialEq, Eq)]
pub struct Attempt {
    pub node: u32,
    pub inc: u32,
    /// Counted from 1 in each incarnation.
    pub number: u64,
}

/// What a client holds: the node that answers its lines, and the attempt that its last `begin` gave.
#[derive(Clone, Copy, Debug, PartialEq, Eq)]
pub struct Hold {
    pub node: u32,
    /// Of that node.
    pub attempt: Option<Attempt>,
}
