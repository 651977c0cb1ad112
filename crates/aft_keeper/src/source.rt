ghost use Rattle.std.specs.Prelude as prelude;
ghost use Rattle.std.specs.Prelude.{◌≡◌, ℕ, Option, None, Some, IfOk, IfSome, IsErrOf};
ghost use Rattle.aft_keeper.specs.declared.keeper.Pair.{Pair};
ghost use Rattle.aft_keeper.specs.Cause.{HasCause};
ghost use Rattle.aft_keeper.specs.Contents.{bytes_at};

use aft_id::Bytes;
use std::alloc::AllocError;
use thiserror::Error;

/// Why a file could not be read.
#[derive(Clone, Copy, Debug, PartialEq, Eq, Error)]
pub enum SourceFault {
    /// There is no file of that name.
    #[error("no such file")]
    Absent,
    /// The file could not be read.
    #[error("the file could not be read")]
    Failed,
    /// Memory ran out.
    #[error("out of memory")]
    Memory,
}

impl From<AllocError> for SourceFault {
    ghost use Rattle.std.specs.Prelude.{◌≡◌};
    ghost use Rattle.aft_keeper.specs.declared.source.SourceFault.TheVariants.{Memory};

    ghost from_gives = { λ _ fault. fault ≡ Memory };

    fn from(_e: AllocError) -> SourceFault {
        SourceFault::Memory
    }
}

/// Where files are read from, by name.
pub trait Source {
    /// How often a read has failed.
    ghost faults: { Self → ℕ };

    /// How often a name was absent.
    ghost absences: { Self → ℕ };

    /// The files that it holds, as pairs of name and bytes, where it tells them.
    ghost files: { Self → Option (prelude.List Pair) };

    /// All bytes of the file of this name.
    fn read(&mut self, name: &str) -> Result<Bytes, SourceFault>
        ensures cause { HasCause (IsErrOf result SourceFault.Failed) (faults self.old) (faults self.new) }
        ensures absence { HasCause (IsErrOf result SourceFault.Absent) (absences self.old) (absences self.new) }
        ensures bytes { IfOk result (λ bytes. IfSome (files self.old) (λ files. bytes_at name.now files ≡ Some bytes)) }
        ensures absent { IsErrOf result SourceFault.Absent → IfSome (files self.old) (λ files. bytes_at name.now files ≡ None) }
        ensures same { files self.new ≡ files self.old };
}
