//! Rows as bytes.

ghost use Rattle.std.specs.Prelude.{◌≡◌, ◌<◌, ◌≤◌, ◌^◌, ◌++◌, length, OnOk, IfOk, IfErr, IsTrue};
ghost use Rattle.std.specs.Int.{w32, to_be_bytes};
ghost use Rattle.std.specs.List.{flat_map, list_all};
ghost use Rattle.aft_fields.specs.declared.table.Cell.TheVariants.{U64, U128, Texts};
ghost use Rattle.aft_fields.specs.Kinds.{has_spelling, are_of, are_texts};
ghost use Rattle.aft_fields.specs.Spelling.{counted, cell_bytes, row_bytes};

use crate::fault::FieldFault;
use crate::list::Raw;
use crate::table::{Cell, Layout, Row};
use std::alloc::{AllocError, Global};
use std::marker::Model;

/// The bytes of a row as far as they are written, for a caller whose cells are lent. Where memory runs
/// out, a part of what was to be written stands at their end.
#[derive(Debug, Drop)]
pub struct Writer {
    out: Vec<u8>,
}

impl Model for Writer {
    ghost use Rattle.std.specs.Prelude as prelude;

    ghost Value = { prelude.List prelude.ℕ };

    ghost view = { λ writer. writer.out.items };
}

impl Writer {
    /// The start of a row: its table's tag.
    pub fn new(alloc: Global, tag: &[u8; 3]) -> Result<Writer, AllocError>
        ensures { IfOk result (λ writer. writer ≡ tag.now) }
    {
        let mut out = Vec::new(alloc);
        out.extend_from_slice(tag)?;
        Ok(Writer { out })
    }

    /// Writes a number of 64 bits.
    pub fn put_u64(&mut self, number: u64) -> Result<(), AllocError>
        ensures { OnOk result (self.new ≡ self.old ++ cell_bytes (U64 number)) }
    {
        self.out.extend_from_slice(&number.to_be_bytes())
    }

    /// Writes a number of 128 bits.
    pub fn put_u128(&mut self, wide: u128) -> Result<(), AllocError>
        ensures { OnOk result (self.new ≡ self.old ++ cell_bytes (U128 wide)) }
    {
        self.out.extend_from_slice(&wide.to_be_bytes())
    }

    /// Writes the number of some texts, which follow by `put_bytes`.
    pub fn put_count(&mut self, count: u32) -> Result<(), AllocError>
        ensures { OnOk result (self.new ≡ self.old ++ to_be_bytes w32 count) }
    {
        self.out.extend_from_slice(&count.to_be_bytes())
    }

    /// Writes a text or any bytes, behind their length.
    pub fn put_bytes(&mut self, bytes: &[u8]) -> Result<(), AllocError>
        requires { length bytes.now < 2 ^ 32 }
        ensures { OnOk result (self.new ≡ self.old ++ counted bytes.now) }
    {
        self.put_count(bytes.len() as u32)?;
        self.out.extend_from_slice(bytes)
    }

    /// What was written. Takes no memory.
    pub fn into_raw(self) -> Raw
        ensures { result ≡ self }
    {
        Raw::from_vec(self.out)
    }
}

/// Writes the number of texts, and each text.
fn put_texts(out: &mut Writer, texts: &[Raw]) -> Result<(), AllocError>
    requires { IsTrue (are_texts texts.now) }
    ensures { OnOk result (out.new ≡ out.old ++ cell_bytes (Texts texts.now)) }
{
    out.put_count(texts.len() as u32)?;
    for text in texts {
        out.put_bytes(text.as_slice())?;
    }
    Ok(())
}

/// Writes a cell.
fn put_cell(out: &mut Writer, cell: &Cell) -> Result<(), AllocError>
    requires { IsTrue (has_spelling cell.now) }
    ensures { OnOk result (out.new ≡ out.old ++ cell_bytes cell.now) }
{
    match cell {
        Cell::U64(number) => out.put_u64(*number),
        Cell::U128(number) => out.put_u128(*number),
        Cell::Text(text) => out.put_bytes(text.as_slice()),
        Cell::Bytes(bytes) => out.put_bytes(bytes.as_slice()),
        Cell::Texts(texts) => put_texts(out, texts.as_slice()),
    }
}

/// Writes cells one after the other.
fn put_cells(out: &mut Writer, cells: &[Cell]) -> Result<(), AllocError>
    requires { IsTrue (list_all has_spelling cells.now) }
    ensures { OnOk result (out.new ≡ out.old ++ flat_map cell_bytes cells.now) }
{
    for cell in cells {
        put_cell(out, cell)?;
    }
    Ok(())
}

impl<const F: usize> Layout<F> {
    /// The bytes of a row of this table. `Memory` alone is refused.
    pub fn write(&self, alloc: Global, row: &Row<F>) -> Result<Raw, FieldFault>
        requires some { 1 ≤ F }
        requires few { F ≤ 64 }
        // Each cell is of its kind; texts are UTF-8, and several ascend strictly; each length and count is below 2^32.
        requires of_table { IsTrue (are_of self.now.kinds row.now) }
        ensures spelling { IfOk result (λ raw. raw ≡ row_bytes self.now.tag row.now) }
        ensures refused { IfErr result (λ e. e ≡ FieldFault.Memory) }
    {
        let mut out = Writer::new(alloc, &self.tag)?;
        put_cells(&mut out, row.cells())?;
        Ok(out.into_raw())
    }
}
