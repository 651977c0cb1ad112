//! Why settings have no reading.

use aft_id::Text;
use std::alloc::{AllocError, AllocFailed};
use thiserror::Error;

/// Why settings were not read.
#[derive(Debug, Drop, PartialEq, Eq, Error)]
pub enum ConfFault {
    /// The bytes are no TOML document.
    #[error("not a TOML document")]
    NotToml,
    /// The first key in byte order that is no setting, or whose value is of another type or out of range.
    #[error("a key that is no setting, or its value")]
    BadKey { name: Text },
    /// Memory ran out.
    #[error("out of memory")]
    Memory,
}

impl From<AllocError> for ConfFault {
    ghost use Rattle.std.specs.Prelude.{◌≡◌};
    ghost use Rattle.aft_conf.specs.declared.fault.ConfFault.TheVariants.{Memory};

    ghost from_gives = { λ _ e. e ≡ Memory };

    fn from(_e: AllocError) -> ConfFault {
        ConfFault::Memory
    }
}

impl<T: Drop> From<AllocFailed<T>> for ConfFault {
    ghost use Rattle.std.specs.Prelude.{◌≡◌};
    ghost use Rattle.aft_conf.specs.declared.fault.ConfFault.TheVariants.{Memory};

    ghost from_gives = { λ _ e. e ≡ Memory };

    fn from(_e: AllocFailed<T>) -> ConfFault {
        ConfFault::Memory
    }
}
