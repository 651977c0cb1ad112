/// Where the next step of a line is made.
#[derive(Clone, Copy, Debug, PartialEq, Eq)]
pub enum Where {
    /// At the node of this number, 1 to 8.
    Node(u32),
    Door,
    /// At the mailbox of this number: of a node 1 to 8, or 0 of the office.
    Mail(u32),
    Office,
    /// The line is over.
    Done,
}
