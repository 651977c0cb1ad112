//! The parts by which runs are refused are those of the definitions, all of them.

ghost use Rattle.std.specs.Prelude.{[]};
ghost use Rattle.aft_lines.specs.Headline.{Headline, KeepsPromise};
ghost use Rattle.aft_model.specs.Honest.{Honest};
ghost use Rattle.aft_lines.specs.LegalTrace.{LegalTrace};
ghost use Rattle.aft_runs.specs.Parts.{RefusedBy};
ghost use Rattle.aft_runs.specs.Promises.{Breaks};
ghost use Rattle.aft_runs.specs.Works.{Run};

/// A run is legal exactly where no part refuses it.
pub fn every_part()
    ensures legal { (told : Run) → RefusedBy [] told → LegalTrace told.asked told.ran }
    ensures refused_by_none { (told : Run) → LegalTrace told.asked told.ran → RefusedBy [] told }
{}

/// A trace keeps the promise exactly where it breaks no part of it.
pub fn every_promise()
    ensures kept { (told : Run) → Breaks [] told → Headline told.ran.trace }
    ensures promised { (told : Run) → Breaks [] told → KeepsPromise told.ran.trace }
    ensures breaks_none { (told : Run) → Honest told.ran.trace.door → Headline told.ran.trace → Breaks [] told }
{}
