//! What an attempt is doing, and why a call on it is refused.

ghost use Rattle.std.specs.Prelude.{◌≡◌};
ghost use Rattle.aft_txn.specs.declared.state.TxnFault.TheVariants as faults;

use aft_id::{Memory, TxnId};
use std::alloc::{AllocError, AllocFailed};
use thiserror::Error;

/// What an attempt is doing.
#[derive(Clone, Copy, Debug, PartialEq, Eq)]
pub enum State {
    /// It is being opened.
    Opening,
    /// It takes puts and gets.
    Running,
    /// Its commit is being stored under this id.
    Committing(TxnId),
    /// It isn't known whether its commit is stored under this id.
    Doubt(TxnId),
    /// It ends without a commit.
    Leaving,
}

/// Why a call on an attempt is refused. They are tested in this order.
#[derive(Clone, Copy, Debug, PartialEq, Eq, Error)]
pub enum TxnFault {
    /// No attempt has the number.
    #[error("no such transaction")]
    NoTxn,
    /// The attempt isn't running.
    #[error("the transaction is being committed or left")]
    Committing,
    /// The key is new, and the attempt holds 32.
    #[error("too many keys")]
    TooManyKeys,
    /// So many reads of the attempt are open.
    #[error("{n} reads are open")]
    OpenReads { n: u64 },
    /// The time of the commit would pass 2^48 - 1.
    #[error("the clock is at its end")]
    ClockEnd,
    /// Memory ran out.
    #[error("out of memory")]
    Memory,
}

impl From<AllocError> for TxnFault {
    ghost from_gives = { λ _ fault. fault ≡ faults.Memory };

    fn from(_e: AllocError) -> TxnFault {
        TxnFault::Memory
    }
}

impl<T: Drop> From<AllocFailed<T>> for TxnFault {
    ghost from_gives = { λ _ fault. fault ≡ faults.Memory };

    fn from(_e: AllocFailed<T>) -> TxnFault {
        TxnFault::Memory
    }
}

impl From<Memory> for TxnFault {
    ghost from_gives = { λ _ fault. fault ≡ faults.Memory };

    fn from(_e: Memory) -> TxnFault {
        TxnFault::Memory
    }
}
