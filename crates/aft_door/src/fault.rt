//! Why the door refuses.

use aft_id::Memory;
use std::alloc::{AllocError, AllocFailed};
use thiserror::Error;

/// Why the door refuses a call. They are tested in this order.
#[derive(Clone, Copy, Debug, PartialEq, Eq, Error)]
pub enum DoorFault {
    /// The caller's incarnation isn't up. To one that is to come up it says that this number or a greater one of its node was shut
    /// out.
    #[error("incarnation {inc} of node {node} is shut out")]
    Fenced { node: u32, inc: u32 },
    /// Another incarnation, which is up, holds the UUID.
    #[error("incarnation {inc} of node {node} holds the UUID")]
    Busy { node: u32, inc: u32 },
    /// The UUID is forgotten: it stays closed until the store is opened anew.
    #[error("the UUID is forgotten")]
    Forgotten,
    /// The caller's incarnation doesn't hold the UUID.
    #[error("the caller does not hold the UUID")]
    NotHolder,
    /// An incarnation of a node of 1 or more, which is up, has not given the commit up. Of several it is the one of the least node.
    #[error("incarnation {inc} of node {node} has not given the commit up")]
    Holdout { node: u32, inc: u32 },
    /// Memory ran out.
    #[error("out of memory")]
    Memory,
    /// The store failed.
    #[error("the store failed")]
    Failed,
}

impl From<Memory> for DoorFault {
    ghost use Rattle.std.specs.Prelude.{◌≡◌};
    ghost use Rattle.aft_door.specs.declared.fault.DoorFault.TheVariants as faults;

    ghost from_gives = { λ _ fault. fault ≡ faults.Memory };

    fn from(_e: Memory) -> DoorFault {
        DoorFault::Memory
    }
}

impl From<AllocError> for DoorFault {
    ghost use Rattle.std.specs.Prelude.{◌≡◌};
    ghost use Rattle.aft_door.specs.declared.fault.DoorFault.TheVariants as faults;

    ghost from_gives = { λ _ fault. fault ≡ faults.Memory };

    fn from(_e: AllocError) -> DoorFault {
        DoorFault::Memory
    }
}

impl<T: Drop> From<AllocFailed<T>> for DoorFault {
    ghost use Rattle.std.specs.Prelude.{◌≡◌};
    ghost use Rattle.aft_door.specs.declared.fault.DoorFault.TheVariants as faults;

    ghost from_gives = { λ _ fault. fault ≡ faults.Memory };

    fn from(_e: AllocFailed<T>) -> DoorFault {
        DoorFault::Memory
    }
}
