//! Why a text is not read as a reply.

use aft_id::Memory;
use std::alloc::{AllocError, AllocFailed};
use thiserror::Error;

/// Why a text is not read as a reply.
#[derive(Clone, Copy, Debug, PartialEq, Eq, Error)]
pub enum ReplyFault {
    /// The text isn't the text of a reply.
    #[error("bad reply")]
    BadReply,
    /// Memory ran out.
    #[error("out of memory")]
    Memory,
}

impl From<Memory> for ReplyFault {
    ghost use Rattle.std.specs.Prelude.{◌≡◌};
    ghost use Rattle.aft_reply.specs.declared.fault.ReplyFault.TheVariants as fault;

    ghost from_gives = { λ _ e. e ≡ fault.Memory };

    fn from(_e: Memory) -> ReplyFault {
        ReplyFault::Memory
    }
}

impl From<AllocError> for ReplyFault {
    ghost use Rattle.std.specs.Prelude.{◌≡◌};
    ghost use Rattle.aft_reply.specs.declared.fault.ReplyFault.TheVariants as fault;

    ghost from_gives = { λ _ e. e ≡ fault.Memory };

    fn from(_e: AllocError) -> ReplyFault {
        ReplyFault::Memory
    }
}

impl<T: Drop> From<AllocFailed<T>> for ReplyFault {
    ghost use Rattle.std.specs.Prelude.{◌≡◌};
    ghost use Rattle.aft_reply.specs.declared.fault.ReplyFault.TheVariants as fault;

    ghost from_gives = { λ _ e. e ≡ fault.Memory };

    fn from(_e: AllocFailed<T>) -> ReplyFault {
        ReplyFault::Memory
    }
}
