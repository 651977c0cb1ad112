//! The history of a node.

use crate::caller::{Attempt, By};
use crate::choice::Picked;
use crate::reply::Reply;
use aft_id::{Bytes, List, TxnId};
use aft_records::{Commit, Key};
use uuid::Uuid;

/// One entry of a node's history.
#[derive(Debug, Drop)]
pub struct NodeEntry {
    /// How many entries of the door's history the turn had seen.
    pub front: u64,
    pub by: By,
    pub act: NodeAct,
    /// The line's reply, if this entry gives it.
    pub answer: Option<Reply>,
}

/// What was done at a node.
#[derive(Debug, Drop)]
pub enum NodeAct {
    /// Nothing but the answer.
    Nothing,
    /// The incarnation began to boot.
    Booting {
        inc: u32,
    },
    /// The incarnation serves from here on, and was shown these commits.
    Boot {
        inc: u32,
        commits: List<Commit>,
    },
    /// The boot was given up, and the incarnation stays booting.
    BootStopped {
        inc: u32,
    },
    /// The incarnation is down.
    Down {
        inc: u32,
    },
    /// A begin made an attempt, which is opening.
    Admit {
        attempt: Attempt,
        uuid: Uuid,
    },
    /// The attempt runs.
    Begin {
        attempt: Attempt,
    },
    /// The opening attempt was taken away.
    Unadmit {
        attempt: Attempt,
    },
    /// The attempt put a value.
    Put {
        attempt: Attempt,
        key: Key,
        value: Bytes,
    },
    /// The attempt got a key.
    Select {
        attempt: Attempt,
        key: Key,
        picked: Picked,
    },
    /// The version that was picked came from the store.
    Value {
        attempt: Attempt,
        key: Key,
        id: TxnId,
        /// Where the get stands in the door's history, counted from 0.
        place: u64,
        /// Whether the node kept the bytes.
        kept: bool,
    },
    /// The version that was picked did not come.
    Lost {
        attempt: Attempt,
        key: Key,
        id: TxnId,
    },
    /// The attempt commits under this id, from here on for good.
    Start {
        attempt: Attempt,
        /// What the clock read, in milliseconds since 1970.
        now: u64,
        commit: Commit,
    },
    /// A commit in doubt is tried again.
    Settle {
        attempt: Attempt,
    },
    /// The attempt ends with nothing stored.
    Leave {
        attempt: Attempt,
    },
    /// The commit is stored.
    Stored {
        attempt: Attempt,
        commit: Commit,
    },
    /// It isn't known whether the commit is stored.
    Doubt {
        attempt: Attempt,
    },
    /// The attempt was taken away.
    End {
        attempt: Attempt,
    },
    /// The node learned these commits from a mailbox.
    Learn {
        commits: List<Commit>,
    },
    /// The node dropped the metadata of these commits.
    Drop {
        ids: List<TxnId>,
    },
    /// The node gave a commit up.
    GiveUp {
        id: TxnId,
    },
    /// The node took its new commits to announce these, and to leave those out as superseded.
    Announce {
        kept: List<Commit>,
        pruned: List<Commit>,
    },
}
