//! Rows from bytes.

ghost use Rattle.std.specs.Prelude.{◌≡◌, ◌≤◌, List, None, IfOk, IsTrue, Ok, length};
ghost use Rattle.std.specs.Option.{option_copied};
ghost use Rattle.aft_fields.specs.declared.table.Cell.{Cell};
ghost use Rattle.aft_fields.specs.Gives.{Gives};
ghost use Rattle.aft_fields.specs.Kinds.{are_of};
ghost use Rattle.aft_fields.specs.Order.{follows};
ghost use Rattle.aft_fields.specs.Spelling.{row_bytes};
ghost use Rattle.aft_fields.specs.Reading.{texts_after, texts_at, cell_at, cells_at, row_of};

use crate::fault::FieldFault;
use crate::list::{List, Raw};
use crate::table::{Cell, Kind, Layout, Row};
use crate::walk::Walk;
use std::alloc::{AllocError, Global};

/// Whether a text may follow the one before it, if any: it is greater in byte order.
fn follows(before: Option<&[u8]>, text: &[u8]) -> bool
    ensures { result ≡ follows (option_copied before.entry) text.now }
{
    match before {
        Some(before) => before.cmp(text).is_lt(),
        None => true,
    }
}

/// A copy of these bytes.
fn copied(alloc: Global, bytes: &[u8]) -> Result<Raw, AllocError>
    ensures { IfOk result (λ raw. raw ≡ bytes.now) }
{
    Ok(Raw::from_vec(Vec::from_slice(alloc, bytes)?))
}

/// So many texts of this field.
fn so_many_texts<'a>(
    alloc: Global,
    field: u32,
    count: u32,
    walk: Walk<'a>,
) -> Result<(Vec<Raw>, Walk<'a>), FieldFault>
    ensures { Gives (λ x. (x.0.items, x.1)) result (texts_after field count None walk.entry) }
{
    let mut texts = Vec::new(alloc);
    let mut before = None;
    let mut rest = walk;
    for _ in 0..count {
        let (text, after) = rest.text(field)?;
        if !follows(before, text) {
            return Err(FieldFault::Unsorted { field });
        }
        texts.push(copied(alloc, text)?)?;
        before = Some(text);
        rest = after;
    }
    Ok((texts, rest))
}

/// Texts of this field behind their number.
#[tactic(auto, unfolding(crate::specs::Reading::texts_at))]
fn texts<'a>(alloc: Global, field: u32, walk: Walk<'a>) -> Result<(Vec<Raw>, Walk<'a>), FieldFault>
    ensures { Gives (λ x. (x.0.items, x.1)) result (texts_at field walk.entry) }
{
    let (count, walk) = walk.u32()?;
    so_many_texts(alloc, field, count, walk)
}

/// A cell of this kind, in this field.
#[tactic(auto, unfolding(crate::specs::Reading::cell_at))]
fn cell<'a>(
    alloc: Global,
    kind: Kind,
    field: u32,
    walk: Walk<'a>,
) -> Result<(Cell, Walk<'a>), FieldFault>
    ensures { Gives (λ x. x) result (cell_at kind field walk.entry) }
{
    match kind {
        Kind::U64 => {
            let (number, walk) = walk.u64()?;
            Ok((Cell::U64(number), walk))
        }
        Kind::U128 => {
            let (number, walk) = walk.u128()?;
            Ok((Cell::U128(number), walk))
        }
        Kind::Text => {
            let (text, walk) = walk.text(field)?;
            Ok((Cell::Text(copied(alloc, text)?), walk))
        }
        Kind::Bytes => {
            let (bytes, walk) = walk.bytes()?;
            Ok((Cell::Bytes(copied(alloc, bytes)?), walk))
        }
        Kind::Texts => {
            let (texts, walk) = texts(alloc, field, walk)?;
            Ok((Cell::Texts(List::from_vec(texts)), walk))
        }
    }
}

/// Cells of these kinds, from the first field on.
fn cells<'a>(
    alloc: Global,
    kinds: &[Kind],
    walk: Walk<'a>,
) -> Result<(Vec<Cell>, Walk<'a>), FieldFault>
    requires { length kinds.now ≤ 64 }
    ensures { Gives (λ x. (x.0.items, x.1)) result (cells_at 0 kinds.now walk.entry) }
{
    let mut cells = Vec::with_capacity(alloc, kinds.len())?;
    let mut rest = walk;
    for (field, kind) in kinds.iter().enumerate() {
        let (cell, after) = cell(alloc, *kind, field as u32, rest)?;
        cells.push(cell)?;
        rest = after;
    }
    Ok((cells, rest))
}

impl<const F: usize> Layout<F> {
    /// The row, whole.
    #[tactic(auto, unfolding(crate::specs::Reading::row_of))]
    fn row_from(&self, alloc: Global, bytes: &[u8]) -> Result<Row<F>, FieldFault>
        requires { F ≤ 64 }
        ensures { Gives (λ row. row) result (row_of self.now.tag self.now.kinds bytes.now) }
    {
        let walk = Walk::start(bytes).tag(self.tag)?;
        let (cells, walk) = cells(alloc, &self.kinds, walk)?;
        walk.end()?;
        Ok(Row::new(List::from_vec(cells)))
    }

    /// The row that these bytes are, or the first fault from the left.
    pub fn read(&self, alloc: Global, bytes: &[u8]) -> Result<Row<F>, FieldFault>
        requires some { 1 ≤ F }
        requires few { F ≤ 64 }
        // What is read is of the table, and the bytes are its spelling.
        ensures found { IfOk result (λ row. IsTrue (are_of self.now.kinds row) × (bytes.now ≡ row_bytes self.now.tag row)) }
        // A row's spelling is read as that row, unless memory runs out.
        ensures only { (cells : List Cell) → IsTrue (are_of self.now.kinds cells) → bytes.now ≡ row_bytes self.now.tag cells → Gives (λ row. row) result (Ok cells) }
        // Which fault it is.
        ensures exact { Gives (λ row. row) result (row_of self.now.tag self.now.kinds bytes.now) }
    {
        self.row_from(alloc, bytes)
    }
}
