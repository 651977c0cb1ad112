//! The cells of a row, taken one after the other.

ghost use Rattle.std.specs.Prelude.{◌≡◌, ◌≤◌, IfOk, IsTrue};
ghost use Rattle.std.specs.List.{list_all};
ghost use Rattle.aft_fields.specs.Kinds.{has_spelling, are_of};
ghost use Rattle.aft_fields.specs.Order.{ascend};
ghost use Rattle.aft_records.specs.Gives.{Gives};
ghost use Rattle.aft_records.specs.Reading.{cells_of, number_in, wide_in, text_in, bytes_in, texts_in, id_in};

use crate::fault::RecordFault;
use aft_fields::{Cell, FieldFault, Layout, Raw};
use aft_id::TxnId;
use std::alloc::Global;
use std::marker::Model;
use std::vec::IntoIter;
use uuid::Uuid;

/// The cells of a row that are still to be taken.
#[derive(Drop)]
pub(crate) struct Cells {
    rest: IntoIter<Cell>,
}

impl Model for Cells {
    ghost use Rattle.std.specs.Prelude as prelude;
    ghost use Rattle.std.specs.List.{list_all};
    ghost use Rattle.std.specs.Vec.Iter.{into_iter_items};
    ghost use Rattle.aft_fields.specs.declared.table.Cell.{Cell};
    ghost use Rattle.aft_fields.specs.Kinds.{has_spelling};

    ghost Value = { prelude.List Cell };

    ghost view = { λ cells. into_iter_items cells.rest };

    ghost invariant = { λ cells. prelude.IsTrue (list_all has_spelling (into_iter_items cells.rest)) };
}

/// The value of the next cell, if it is of this kind. A row that was read is of its table, so that no other
/// cell comes.
macro_rules! next_of {
    ($kind:path, $cells:expr) => {{
        let mut rest = $cells.rest;
        match rest.next() {
            Some($kind(value)) => Ok((value, Cells { rest })),
            _ => Err(RecordFault::Field(FieldFault::Tag)),
        }
    }};
}

impl Cells {
    /// The cells of a row of this table.
    pub(crate) fn of<const F: usize>(
        alloc: Global,
        table: &Layout<F>,
        bytes: &[u8],
    ) -> Result<Cells, RecordFault>
        requires some { 1 ≤ F }
        requires few { F ≤ 64 }
        ensures { Gives (λ cells. cells) result (cells_of table.now.tag table.now.kinds bytes.now) }
    {
        let row = table.read(alloc, bytes)?;
        Ok(Cells {
            rest: row.into_cells().into_vec().into_iter(),
        })
    }

    /// A number of 64 bits.
    pub(crate) fn number(self) -> Result<(u64, Cells), RecordFault>
        ensures { Gives (λ x. x) result (number_in self) }
    {
        next_of!(Cell::U64, self)
    }

    /// A number of 128 bits.
    fn wide(self) -> Result<(u128, Cells), RecordFault>
        ensures { Gives (λ x. x) result (wide_in self) }
    {
        next_of!(Cell::U128, self)
    }

    /// A text.
    pub(crate) fn text(self) -> Result<(Raw, Cells), RecordFault>
        ensures { Gives (λ x. x) result (text_in self) }
    {
        next_of!(Cell::Text, self)
    }

    /// Bytes.
    pub(crate) fn bytes(self) -> Result<(Raw, Cells), RecordFault>
        ensures { Gives (λ x. x) result (bytes_in self) }
    {
        next_of!(Cell::Bytes, self)
    }

    /// Texts, which ascend.
    pub(crate) fn texts(self) -> Result<(Vec<Raw>, Cells), RecordFault>
        ensures texts { Gives (λ x. (x.0.items, x.1)) result (texts_in self) }
        ensures ascending { IfOk result (λ x. IsTrue (ascend x.0.items)) }
    {
        let mut rest = self.rest;
        match rest.next() {
            Some(Cell::Texts(texts)) => Ok((texts.into_vec(), Cells { rest })),
            _ => Err(RecordFault::Field(FieldFault::Tag)),
        }
    }

    /// An id, of any time.
    #[tactic(auto, unfolding(crate::specs::Reading::id_in))]
    pub(crate) fn id(self) -> Result<(TxnId, Cells), RecordFault>
        ensures { Gives (λ x. x) result (id_in self) }
    {
        let (time, cells) = self.number()?;
        let (number, cells) = cells.wide()?;
        let uuid = Uuid::from_u128(number);
        Ok((TxnId { time, uuid }, cells))
    }
}
