//! What clients ask, and in which order.

use aft_id::{Bytes, List};
use aft_records::Key;
use uuid::Uuid;

/// A script: its lines that have a command, ascending by number.
#[derive(Debug, Drop)]
pub struct Script {
    pub lines: List<Line>,
}

/// One line of a script.
#[derive(Debug, Drop)]
pub struct Line {
    /// Counted from 1 over all lines, also those without a command.
    pub number: u32,
    /// 1 to 64.
    pub client: u32,
    pub order: Command,
}

/// What a line asks for.
#[derive(Debug, Drop)]
pub enum Command {
    /// Begin the transaction of this UUID at a node.
    Begin { uuid: Uuid, node: u32 },
    /// Put a value of at most 4,096 bytes.
    Put { key: Key, value: Bytes },
    /// Get a key.
    Get { key: Key },
    Commit,
    Abort,
    /// Crash a node.
    Crash { node: u32 },
    /// Start a node.
    Start { node: u32 },
    /// Announce a node's new commits.
    Announce { node: u32 },
    /// Deliver a node's mail.
    Deliver { node: u32 },
    /// Drop a node's superseded metadata.
    Local { node: u32 },
    /// One round of the fault manager.
    Manager,
    /// One collection.
    Collect,
    /// Forget the UUID of a transaction that is over and collected, at a node: it is free in later runs.
    Forget { uuid: Uuid, node: u32 },
    /// Delete the versions of a key that no commit and no running transaction has.
    Orphans { key: Key },
    /// Copy the store as it stands at one moment.
    Backup,
}

/// In which order the clients' lines are run.
#[derive(Debug, Drop)]
pub struct Order {
    pub words: List<Step>,
}

/// One word of an order.
#[derive(Clone, Copy, Debug, PartialEq, Eq)]
pub struct Step {
    pub client: u32,
    /// Whether the client's line is run to its end, and not by one turn.
    pub whole: bool,
}
