//! What a line is answered.

use crate::choice::Blocked;
use aft_id::{Bytes, List, Text, TxnId};
use uuid::Uuid;

/// The reply to a line.
#[derive(Debug, Drop)]
pub enum Reply {
    /// begin: the transaction runs.
    Begun(Uuid),
    /// begin: the node runs this transaction already, and the client takes part in it.
    Joined(Uuid),
    /// begin, commit, abort: the transaction is committed under this id.
    Committed(TxnId),
    /// begin: another incarnation holds the transaction.
    Busy {
        node: u32,
        inc: u32,
    },
    /// put: the value is buffered.
    Stored,
    /// get: the transaction's own last put.
    Own(Bytes),
    /// get: the version of this id and its value.
    Value(TxnId, Bytes),
    /// get: the key is absent.
    Absent,
    /// get: each known version is blocked, ascending by id.
    NoValidVersion(List<Blocked>),
    /// get: the store lacks the version of this id.
    Missing(TxnId),
    /// What the store shows under this name can't be what AFT wrote there.
    Damaged(Text),
    /// commit: nothing was put, and nothing is stored.
    Ended,
    /// abort: the transaction ended, and nothing is recorded.
    Aborted,
    /// A call of the store failed.
    StoreFault,
    /// commit: it isn't known whether the record is stored.
    InDoubt,
    /// The incarnation doesn't serve.
    NodeDown {
        node: u32,
        inc: u32,
    },
    /// The client holds no running transaction.
    NoTransaction,
    /// The transaction is being committed or left.
    Committing,
    /// put: the key would be the 33rd of its transaction.
    TooManyKeys,
    /// commit, abort: so many reads of the transaction aren't over.
    OpenReads(u64),
    /// commit: the commit's time would pass 2^48 - 1.
    ClockEnd,
    /// crash: this incarnation was shut out.
    Crashed {
        node: u32,
        inc: u32,
    },
    /// crash: no incarnation of the node was up.
    NotUp {
        node: u32,
    },
    /// start: this incarnation serves.
    Started {
        node: u32,
        inc: u32,
    },
    /// start: this incarnation served already.
    IsUp {
        node: u32,
        inc: u32,
    },
    /// start: this incarnation is booting.
    IsBooting {
        node: u32,
        inc: u32,
    },
    /// A scan showed the 20,001st name of a kind.
    TooManyRecords,
    /// announce: how many commits were announced, how many left out as superseded, and how many ids boxes
    /// refused.
    Announced {
        kept: u64,
        pruned: u64,
        dropped: u64,
    },
    /// deliver: how many commits were taken in, were superseded, and were known.
    Learned {
        taken: u64,
        superseded: u64,
        known: u64,
    },
    /// local: the metadata of so many commits was dropped.
    Dropped(u64),
    /// manager: how many messages it took, and how many commits nobody had announced.
    Managed {
        heard: u64,
        missed: u64,
    },
    /// collect: what became of each commit of the work list, ascending by id.
    Collected(List<Judged>),
    /// collect: another collection is running.
    Collecting,
    /// forget: the transaction of this id is forgotten from here on.
    Forgot(TxnId),
    /// forget: the transaction of this id isn't collected yet, and stays.
    Kept(TxnId),
    /// forget: the store knows nothing of this UUID.
    Unknown(Uuid),
    /// begin, forget: this UUID was forgotten in this run.
    Forgotten(Uuid),
    /// orphans: how many versions were deleted, were kept for a commit, had a UUID that was held or forgotten, and
    /// met a failed call.
    Orphans {
        deleted: u64,
        kept: u64,
        held: u64,
        fault: u64,
    },
    /// orphans: the key has more versions than one round may look at.
    TooManyVersions,
    /// backup: how many commits were copied, and how many markers.
    Copied {
        taken: u64,
        marked: u64,
    },
    /// backup: another copy is being made.
    Copying,
    /// Memory ran out.
    NoMemory,
}

/// A commit of a collection's work list, and what became of it.
#[derive(Debug, Drop)]
pub struct Judged {
    pub id: TxnId,
    pub verdict: Verdict,
}

/// What became of a commit in a collection.
#[derive(Clone, Copy, Debug, PartialEq, Eq)]
pub enum Verdict {
    /// Its data is deleted, and its short marker stands.
    Retired,
    /// This incarnation has not given it up.
    Held { node: u32, inc: u32 },
    /// A call of the store for it failed.
    Fault,
}
