ghost use Rattle.std.specs.Prelude as prelude;
ghost use Rattle.std.specs.Prelude.{◌≡◌, ℕ, Option, IsErrOf};
ghost use Rattle.aft_keeper.specs.Cause.{HasCause};
ghost use Rattle.aft_keeper.specs.Taken.{Takes};

use std::alloc::AllocError;
use thiserror::Error;

/// Why a piece of output was not taken.
#[derive(Clone, Copy, Debug, PartialEq, Eq, Error)]
pub enum SinkFault {
    /// Writing failed. Some first part of the piece was taken, maybe none of it.
    #[error("writing failed")]
    Failed,
    /// Memory ran out. Nothing of the piece was taken.
    #[error("out of memory")]
    Memory,
}

impl From<AllocError> for SinkFault {
    ghost use Rattle.std.specs.Prelude.{◌≡◌};
    ghost use Rattle.aft_keeper.specs.declared.sink.SinkFault.TheVariants.{Memory};

    ghost from_gives = { λ _ fault. fault ≡ Memory };

    fn from(_e: AllocError) -> SinkFault {
        SinkFault::Memory
    }
}

/// Where output goes, piece by piece.
pub trait Sink {
    /// How often a write has failed.
    ghost faults: { Self → ℕ };

    /// The bytes taken so far, where it tells them.
    ghost taken: { Self → Option (prelude.List ℕ) };

    /// Writes a whole piece.
    fn write(&mut self, piece: &[u8]) -> Result<(), SinkFault>
        ensures cause { HasCause (IsErrOf result SinkFault.Failed) (faults self.old) (faults self.new) }
        ensures taken { Takes piece.now (taken self.old) result (taken self.new) };
}
