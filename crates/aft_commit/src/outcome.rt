//! How an attempt ends that has let its claim go.

ghost use Rattle.std.specs.Prelude.{◌≡◌};
ghost use Rattle.aft_commit.specs.View.{told_of};

use aft_id::TxnId;
use aft_model::Reply;

/// How an attempt ends that has let its claim go.
#[derive(Clone, Copy, Debug)]
pub enum Outcome {
    /// Its commit, of this id, is stored.
    Stored(TxnId),
    /// Its commit was in doubt, and has no record.
    Absent,
    /// It has stored nothing: by an abort, or by a commit.
    Left { aborts: bool },
}

impl Outcome {
    /// What is answered.
    pub(crate) fn reply(self) -> Reply
        ensures { result ≡ told_of self }
    {
        match self {
            Outcome::Stored(id) => Reply::Committed(id),
            Outcome::Absent => Reply::Aborted,
            Outcome::Left { aborts: true } => Reply::Aborted,
            Outcome::Left { aborts: false } => Reply::Ended,
        }
    }
}
