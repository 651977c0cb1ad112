//! How far a commit or an abort has come.

use crate::outcome::Outcome;
use aft_id::{Bytes, List};
use aft_model::{Attempt, Reply};
use aft_records::Record;
use uuid::Uuid;

/// How far a commit or an abort has come.
#[derive(Debug, Drop)]
pub enum Stage {
    /// Nothing is done.
    Begins,
    /// The attempt was in doubt: its record is to be looked for. A commit may put these values again.
    Settles {
        attempt: Attempt,
        written: Record,
        values: List<Bytes>,
    },
    /// So many of the versions were put; the others are to be, and then the record.
    Stores {
        attempt: Attempt,
        written: Record,
        values: List<Bytes>,
        count: usize,
    },
    /// The put of the record failed: it is to be looked for.
    Failed {
        attempt: Attempt,
        written: Record,
    },
    /// The record is there, of which the node is to learn.
    Recorded {
        attempt: Attempt,
        written: Record,
    },
    /// The UUID is to be let go, and then the attempt ends.
    Releases {
        attempt: Attempt,
        uuid: Uuid,
        outcome: Outcome,
    },
    /// The attempt is to be left in doubt, with this answer.
    Doubts {
        attempt: Attempt,
        reply: Reply,
    },
    /// The UUID was let go, and the attempt is to end.
    Ends {
        attempt: Attempt,
        uuid: Uuid,
        outcome: Outcome,
    },
    /// The attempt leaves, and its incarnation was shut out, which is to be answered.
    ShutOut {
        attempt: Attempt,
    },
    /// It is answered.
    Ended,
}
