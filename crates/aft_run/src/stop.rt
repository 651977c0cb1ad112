//! Why a run was stopped.

ghost use Rattle.std.specs.Prelude.{◌≡◌};
ghost use Rattle.aft_run.specs.declared.stop.Stop.TheVariants.{Memory as out_of_memory};

use aft_id::Memory;
use std::alloc::{AllocError, AllocFailed};

/// Why a run ends before its lines do.
#[derive(Clone, Copy, Debug, PartialEq, Eq)]
pub enum Stop {
    /// A call of the store failed.
    StoreFault,
    /// The store holds records or markers already, which isn't built.
    NotEmpty,
    /// Memory ran out.
    Memory,
}

impl From<Memory> for Stop {
    ghost from_gives = { λ _ stop. stop ≡ out_of_memory };

    fn from(_e: Memory) -> Stop {
        Stop::Memory
    }
}

impl From<AllocError> for Stop {
    ghost from_gives = { λ _ stop. stop ≡ out_of_memory };

    fn from(_e: AllocError) -> Stop {
        Stop::Memory
    }
}

impl<T: Drop> From<AllocFailed<T>> for Stop {
    ghost from_gives = { λ _ stop. stop ≡ out_of_memory };

    fn from(_e: AllocFailed<T>) -> Stop {
        Stop::Memory
    }
}
