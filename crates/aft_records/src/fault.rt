//! Why bytes or a text have no reading.

ghost use Rattle.std.specs.Prelude.{◌≡◌};
ghost use Rattle.aft_records.specs.declared.fault.RecordFault.TheVariants.{Memory};
ghost use Rattle.aft_records.specs.FieldFaults.{fault_of};

use aft_fields::FieldFault;
use std::alloc::{AllocError, AllocFailed};
use thiserror::Error;

/// Why a stored value could not be made or read.
#[derive(Clone, Copy, Debug, PartialEq, Eq, Error)]
pub enum RecordFault {
    /// The layout has a fault.
    #[error("{0}")]
    Field(FieldFault),
    /// A time is not 1 to 2^48 - 1 milliseconds.
    #[error("a time out of range")]
    BadTime,
    /// There is no key, or there are more than 32.
    #[error("no key, or more than 32")]
    BadKeys,
    /// The key of this index, counted from 0, is not 1 to 64 bytes of 33 to 126.
    #[error("key {index} is not 1 to 64 printable bytes")]
    BadKey { index: u32 },
    /// The node is above 8, or its incarnation is not one that the node can have: 0, and no read, for node 0, and
    /// 1 to 2^32 - 1 for any other.
    #[error("not an origin")]
    BadOrigin,
    /// There are more than 8 reads, or one is not the text of an id whose time is within its limit.
    #[error("not the texts of at most 8 ids")]
    BadReads,
    /// The value has more than 4,096 bytes.
    #[error("the value is longer than 4096 bytes")]
    LongValue,
    /// Memory ran out.
    #[error("out of memory")]
    Memory,
}

impl From<AllocError> for RecordFault {
    ghost from_gives = { λ _ e. e ≡ Memory };

    fn from(_e: AllocError) -> RecordFault {
        RecordFault::Memory
    }
}

impl<T: Drop> From<AllocFailed<T>> for RecordFault {
    ghost from_gives = { λ _ e. e ≡ Memory };

    fn from(_e: AllocFailed<T>) -> RecordFault {
        RecordFault::Memory
    }
}

impl From<FieldFault> for RecordFault {
    ghost from_gives = { λ fault e. e ≡ fault_of fault };

    fn from(fault: FieldFault) -> RecordFault {
        match fault {
            FieldFault::Memory => RecordFault::Memory,
            fault => RecordFault::Field(fault),
        }
    }
}

/// Why a text could not be read as a name.
#[derive(Clone, Copy, Debug, PartialEq, Eq, Error)]
pub enum NameFault {
    /// The text is the spelling of no name.
    #[error("not a name")]
    BadName,
    /// Memory ran out.
    #[error("out of memory")]
    Memory,
}
