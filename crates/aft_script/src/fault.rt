//! Why scripts and orders have no reading.

use std::alloc::{AllocError, AllocFailed};
use thiserror::Error;

/// Why a line of a script has no reading. The variants stand in the order in which they are tested.
#[derive(Clone, Copy, Debug, PartialEq, Eq, Error)]
pub enum LineFault {
    /// The line's number passes 20,000.
    #[error("too many lines")]
    TooManyLines,
    /// A byte isn't 32 to 126.
    #[error("bad byte")]
    BadByte,
    /// The first word isn't a client: 1 to 64.
    #[error("bad client")]
    BadClient,
    /// The second word is missing, or no command.
    #[error("bad command")]
    BadCommand,
    /// The command takes another number of words, or `on` isn't there.
    #[error("bad words")]
    BadWords,
    /// The word names no UUID.
    #[error("bad uuid")]
    BadUuid,
    /// The word isn't a node: 1 to the number of nodes.
    #[error("bad node")]
    BadNode,
    /// The key has more than 64 bytes.
    #[error("bad key")]
    BadKey,
    /// The value begins with `#` and isn't followed by an even number of hexadecimal digits.
    #[error("bad value")]
    BadValue,
    /// The value has more than 4,096 bytes.
    #[error("value too long")]
    LongValue,
    /// The line is the 17th `start`.
    #[error("too many starts")]
    TooManyStarts,
    /// The line is a `manager` or a `collect` that, with the background rounds, is the 21st of its kind, the 11th
    /// `orphans` or the 2nd `backup`.
    #[error("too many rounds")]
    TooManyRounds,
}

/// Why a script or an order was not read.
#[derive(Clone, Copy, Debug, PartialEq, Eq, Error)]
pub enum ScriptFault {
    /// The first line of a script with a fault, counted from 1, and the first fault of that line.
    #[error("line {number}: {fault}")]
    Line { number: u32, fault: LineFault },
    /// The first bad word of an order, counted from 1.
    #[error("word {number}: bad word")]
    Word { number: u32 },
    /// Memory ran out.
    #[error("out of memory")]
    Memory,
}

/// Why a line is not read: its first fault, or want of memory.
#[derive(Clone, Copy, Debug, PartialEq, Eq)]
pub(crate) enum Refusal {
    Fault(LineFault),
    Memory,
}

impl From<LineFault> for Refusal {
    ghost use Rattle.std.specs.Prelude.{◌≡◌};
    ghost use Rattle.aft_script.specs.declared.fault.Refusal.TheVariants.{Fault};

    ghost from_gives = { λ fault e. e ≡ Fault fault };

    fn from(fault: LineFault) -> Refusal {
        Refusal::Fault(fault)
    }
}

impl From<AllocError> for Refusal {
    ghost use Rattle.std.specs.Prelude.{◌≡◌};
    ghost use Rattle.aft_script.specs.declared.fault.Refusal.TheVariants.{Memory};

    ghost from_gives = { λ _ e. e ≡ Memory };

    fn from(_e: AllocError) -> Refusal {
        Refusal::Memory
    }
}

impl<T: Drop> From<AllocFailed<T>> for Refusal {
    ghost use Rattle.std.specs.Prelude.{◌≡◌};
    ghost use Rattle.aft_script.specs.declared.fault.Refusal.TheVariants.{Memory};

    ghost from_gives = { λ _ e. e ≡ Memory };

    fn from(_e: AllocFailed<T>) -> Refusal {
        Refusal::Memory
    }
}

impl From<AllocError> for ScriptFault {
    ghost use Rattle.std.specs.Prelude.{◌≡◌};
    ghost use Rattle.aft_script.specs.declared.fault.ScriptFault.TheVariants.{Memory};

    ghost from_gives = { λ _ e. e ≡ Memory };

    fn from(_e: AllocError) -> ScriptFault {
        ScriptFault::Memory
    }
}

impl<T: Drop> From<AllocFailed<T>> for ScriptFault {
    ghost use Rattle.std.specs.Prelude.{◌≡◌};
    ghost use Rattle.aft_script.specs.declared.fault.ScriptFault.TheVariants.{Memory};

    ghost from_gives = { λ _ e. e ≡ Memory };

    fn from(_e: AllocFailed<T>) -> ScriptFault {
        ScriptFault::Memory
    }
}
