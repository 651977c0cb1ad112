//! How far a line that claims a UUID has come.

use crate::sought::Sought;
use aft_id::TxnId;
use aft_model::{Attempt, Reply};

/// How far a line that claims a UUID has come.
#[derive(Debug, Drop)]
pub enum Stage {
    /// Nothing is done.
    Begins,
    /// The attempt opens, and its incarnation is to claim the UUID.
    Claims { attempt: Attempt },
    /// The UUID is claimed, and this is to be looked for, behind what is looked for before it.
    Seeks { attempt: Attempt, sought: Sought },
    /// Neither record nor marker was found: the attempt of a begin may run.
    Runs { attempt: Attempt },
    /// The short marker of this id was found, and a forget is to delete it.
    Forgets { attempt: Attempt, id: TxnId },
    /// The claim is to be let go, and then this is to be answered.
    LetsGo { attempt: Attempt, reply: Reply },
    /// The attempt is to be taken away, with this answer.
    GivesUp { attempt: Attempt, reply: Reply },
    /// It is answered, and the client of a begin takes part in this attempt.
    Ended { attempt: Option<Attempt> },
}
