//! Why bytes are no row.

ghost use Rattle.std.specs.Prelude.{◌≡◌};
ghost use Rattle.aft_fields.specs.declared.fault.FieldFault.TheVariants.{Memory};

use std::alloc::{AllocError, AllocFailed};
use thiserror::Error;

/// What is wrong with the layout of a row: the first fault from left to right.
#[derive(Clone, Copy, Debug, PartialEq, Eq, Error)]
pub enum FieldFault {
    /// The part that begins at this offset, in bytes, is not wholly there.
    #[error("cut short at offset {at}")]
    Short { at: u64 },
    /// The first three bytes are not the table's tag.
    #[error("another tag")]
    Tag,
    /// A text of this field, counted from 0, is not UTF-8.
    #[error("field {field} is not UTF-8")]
    NotUtf8 { field: u32 },
    /// A text of this field, counted from 0, is not greater than the one before it.
    #[error("the texts of field {field} do not ascend")]
    Unsorted { field: u32 },
    /// The row ends at this offset, in bytes, and more bytes follow.
    #[error("bytes after the end at offset {at}")]
    Spare { at: u64 },
    /// Memory ran out.
    #[error("out of memory")]
    Memory,
}

impl From<AllocError> for FieldFault {
    ghost from_gives = { λ _ e. e ≡ Memory };

    fn from(_e: AllocError) -> FieldFault {
        FieldFault::Memory
    }
}

impl<T: Drop> From<AllocFailed<T>> for FieldFault {
    ghost from_gives = { λ _ e. e ≡ Memory };

    fn from(_e: AllocFailed<T>) -> FieldFault {
        FieldFault::Memory
    }
}
