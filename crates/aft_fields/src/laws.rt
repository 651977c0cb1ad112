//! Laws of rows, which a caller can cite: each function does nothing.

ghost use Rattle.std.specs.Prelude.{◌≡◌, ℕ, ◌++◌, IsTrue, List, length};
ghost use Rattle.aft_fields.specs.declared.table.Cell.{Cell};
ghost use Rattle.aft_fields.specs.declared.table.Kind.{Kind};
ghost use Rattle.aft_fields.specs.Kinds.{are_of};
ghost use Rattle.aft_fields.specs.Reading.{row_of};
ghost use Rattle.aft_fields.specs.Spelling.{row_bytes};

/// Reading what was written gives the row, for every table and any number of fields.
pub fn reading_of_written()
    ensures { (tag : List ℕ) (kinds : List Kind) (row : List Cell) → length tag ≡ 3 → IsTrue (are_of kinds row) → row_of tag kinds (row_bytes tag row) ≡ Ok row }
{}

/// Two rows of a table have different spellings, and no spelling begins another of its table.
pub fn no_spelling_begins_another()
    ensures { (tag : List ℕ) (kinds : List Kind) (a b : List Cell) (x y : List ℕ) → length tag ≡ 3 → IsTrue (are_of kinds a) → IsTrue (are_of kinds b) → row_bytes tag a ++ x ≡ row_bytes tag b ++ y → (a ≡ b) × (x ≡ y) }
{}
