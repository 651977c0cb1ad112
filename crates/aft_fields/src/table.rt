//! Tables and their rows.

ghost use Rattle.std.specs.Prelude.{◌≡◌, ◌<◌, length, slice_get, Some};

use crate::list::{List, Raw};
use std::marker::Model;

/// What a field of a table holds.
#[derive(Clone, Copy, Debug, PartialEq, Eq)]
pub enum Kind {
    /// A number of 64 bits: 8 bytes, high byte first.
    U64,
    /// A number of 128 bits: 16 bytes, high byte first.
    U128,
    /// A text: its length in bytes as 4 bytes, high byte first, and its UTF-8.
    Text,
    /// Any bytes: their number as 4 bytes, high byte first, and they.
    Bytes,
    /// Texts whose bytes ascend strictly: their number as 4 bytes, high byte first, and each as a text.
    Texts,
}

/// What one field of a row holds.
#[derive(Debug, Drop)]
pub enum Cell {
    /// A number of 64 bits.
    U64(u64),
    /// A number of 128 bits.
    U128(u128),
    /// A text, by its UTF-8.
    Text(Raw),
    /// Any bytes.
    Bytes(Raw),
    /// Texts, each by its UTF-8.
    Texts(List<Raw>),
}

/// A table of F fields, 1 to 64: its tag, which begins each row, and the kind of each field.
#[derive(Clone, Copy, Debug)]
pub struct Layout<const F: usize> {
    pub tag: [u8; 3],
    pub kinds: [Kind; F],
}

/// The F cells of a row, in the table's order.
#[derive(Debug, Drop)]
pub struct Row<const F: usize> {
    cells: List<Cell>,
}

impl<const F: usize> Model for Row<F> {
    ghost use Rattle.std.specs.Prelude as prelude;
    ghost use Rattle.std.specs.Prelude.{◌≡◌};
    ghost use Rattle.aft_fields.specs.declared.table.Cell.{Cell};

    ghost Value = { prelude.List Cell };

    ghost view = { λ row. row.cells };

    ghost invariant = { λ row. prelude.length row.cells ≡ F };
}

impl<const F: usize> Row<F> {
    /// The row of these cells. Takes no memory.
    pub fn new(cells: List<Cell>) -> Row<F>
        requires { length cells ≡ F }
        ensures { result ≡ cells }
    {
        Row { cells }
    }

    /// The cell of this field, counted from 0, lent. Takes no memory.
    pub fn cell(&self, i: usize) -> &Cell
        requires { i < F }
        ensures { slice_get self.now i ≡ Some result.now }
    {
        &self.cells.as_slice()[i]
    }

    /// The cells, in order. Takes no memory.
    pub fn into_cells(self) -> List<Cell>
        ensures cells { result ≡ self.entry }
        ensures number { length result ≡ F }
    {
        self.cells
    }

    /// The cells, in order, lent. Takes no memory.
    pub fn cells(&self) -> &[Cell]
        ensures cells { result.now ≡ self.now }
        ensures number { length result.now ≡ F }
    {
        self.cells.as_slice()
    }
}
