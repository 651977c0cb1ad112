//! Why the audit refuses a store.

use aft_door::DoorFault;
use aft_id::{Memory, Text};
use std::alloc::{AllocError, AllocFailed};
use thiserror::Error;

/// Why the audit, or an upgrade, refuses a store.
#[derive(Debug, PartialEq, Eq, Error, Drop)]
pub enum AuditFault {
    /// A call of the store failed.
    #[error("the store failed")]
    Store,
    /// A scan showed the 20,001st name of a prefix.
    #[error("too many records")]
    TooMany,
    /// This is the first name, in byte order, that offends.
    #[error("damaged")]
    Damaged { name: Text },
    /// Memory ran out.
    #[error("out of memory")]
    Memory,
}

impl From<DoorFault> for AuditFault {
    ghost use Rattle.std.specs.Prelude.{◌≡◌};
    ghost use Rattle.aft_audit.specs.Audit.{fault_of};

    ghost from_gives = { λ fault given. given ≡ fault_of fault };

    fn from(fault: DoorFault) -> AuditFault {
        match fault {
            DoorFault::Failed => AuditFault::Store,
            _ => AuditFault::Memory,
        }
    }
}

impl From<Memory> for AuditFault {
    ghost use Rattle.std.specs.Prelude.{◌≡◌};
    ghost use Rattle.aft_audit.specs.declared.fault.AuditFault.TheVariants as faults;

    ghost from_gives = { λ _ fault. fault ≡ faults.Memory };

    fn from(_e: Memory) -> AuditFault {
        AuditFault::Memory
    }
}

impl From<AllocError> for AuditFault {
    ghost use Rattle.std.specs.Prelude.{◌≡◌};
    ghost use Rattle.aft_audit.specs.declared.fault.AuditFault.TheVariants as faults;

    ghost from_gives = { λ _ fault. fault ≡ faults.Memory };

    fn from(_e: AllocError) -> AuditFault {
        AuditFault::Memory
    }
}

impl<T: Drop> From<AllocFailed<T>> for AuditFault {
    ghost use Rattle.std.specs.Prelude.{◌≡◌};
    ghost use Rattle.aft_audit.specs.declared.fault.AuditFault.TheVariants as faults;

    ghost from_gives = { λ _ fault. fault ≡ faults.Memory };

    fn from(_e: AllocFailed<T>) -> AuditFault {
        AuditFault::Memory
    }
}
