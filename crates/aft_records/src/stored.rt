//! What a store holds.

ghost use Rattle.std.specs.Prelude.{◌≡◌};

use crate::key::Key;
use crate::keys::Keys;
use aft_id::{Bytes, List, TxnId};
use std::alloc::AllocError;

/// A transaction that committed: its id, and the keys that it wrote.
#[derive(Debug, PartialEq, Eq, Drop)]
pub struct Commit {
    pub id: TxnId,
    pub keys: Keys,
}

/// Who wrote a record, and what its transaction had read.
#[derive(Debug, PartialEq, Eq, Drop)]
pub struct Origin {
    /// The node that wrote it, 1 to 8, or 0 for the office.
    pub node: u32,
    /// The incarnation of the node, 1 to 2^32 - 1, or 0 for the office.
    pub inc: u32,
    /// At most 8 ids that the transaction had read, ascending strictly. The office read none.
    pub reads: List<TxnId>,
}

/// A commit with its origin: what a record of the second format holds.
#[derive(Debug, PartialEq, Eq, Drop)]
pub struct Record {
    pub commit: Commit,
    pub origin: Origin,
}

/// What a transaction wrote under one key.
#[derive(Debug, PartialEq, Eq, Drop)]
pub struct Version {
    /// The transaction that wrote it.
    pub id: TxnId,
    pub key: Key,
    /// At most 4,096 bytes, where it is stored.
    pub value: Bytes,
}

/// What stands for a commit that garbage collection takes or took away.
#[derive(Debug, PartialEq, Eq, Drop)]
pub enum Marker {
    /// The whole commit: its record and versions may still be there.
    Full(Commit),
    /// The id alone: its record and versions are gone.
    Done(TxnId),
}

impl Clone for Commit {
    ghost is_clone = { λ commit copy. copy ≡ commit };

    fn clone(&self) -> Result<Commit, AllocError> {
        Ok(Commit {
            id: self.id,
            keys: self.keys.clone()?,
        })
    }
}

impl Clone for Origin {
    ghost is_clone = { λ origin copy. copy ≡ origin };

    fn clone(&self) -> Result<Origin, AllocError> {
        Ok(Origin {
            node: self.node,
            inc: self.inc,
            reads: self.reads.clone()?,
        })
    }
}

impl Clone for Record {
    ghost is_clone = { λ whole copy. copy ≡ whole };

    fn clone(&self) -> Result<Record, AllocError> {
        Ok(Record {
            commit: self.commit.clone()?,
            origin: self.origin.clone()?,
        })
    }
}

impl Clone for Version {
    ghost is_clone = { λ version copy. copy ≡ version };

    fn clone(&self) -> Result<Version, AllocError> {
        Ok(Version {
            id: self.id,
            key: self.key.clone()?,
            value: self.value.clone()?,
        })
    }
}

impl Clone for Marker {
    ghost is_clone = { λ marker copy. copy ≡ marker };

    fn clone(&self) -> Result<Marker, AllocError> {
        match self {
            Marker::Full(commit) => Ok(Marker::Full(commit.clone()?)),
            Marker::Done(id) => Ok(Marker::Done(*id)),
        }
    }
}
