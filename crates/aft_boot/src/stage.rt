//! How far a start has come.

use aft_id::{List, Text};
use aft_node::BootEnd;
use aft_records::Commit;

/// How far a start has come.
#[derive(Debug, Drop)]
pub enum Stage {
    /// Nothing is done: the node is to begin a boot.
    Begins,
    /// This incarnation boots: it is to come up at the door.
    ComesUp {
        inc: u32,
    },
    /// It is up, and reads the records page by page: the next page begins behind this name; so many names were listed before,
    /// with these commits.
    Scans {
        inc: u32,
        after: Text,
        listed: usize,
        commits: List<Commit>,
    },
    /// Its boot is to end so.
    Ends {
        inc: u32,
        end: BootEnd,
    },
    /// It is answered.
    Ended,
}
