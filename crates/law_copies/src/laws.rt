//! Laws of copies, as calls that do nothing and promise them.

ghost use Rattle.std.specs.Prelude.{◌≡◌, ◌++◌, ◌∷◌, ℕ, IsFalse, IsTrue, List, Some, []};
ghost use Rattle.aft_records.specs.declared.stored.Commit.{Commit};
ghost use Rattle.aft_records.specs.declared.stored.Marker.TheVariants.{Full};
ghost use Rattle.aft_model.specs.declared.door.DoorEntry.{DoorEntry};
ghost use Rattle.aft_model.specs.declared.reply.Reply.TheVariants.{Damaged};
ghost use Rattle.aft_model.specs.declared.script.Command.TheVariants.{Backup};
ghost use Rattle.aft_model.specs.declared.script.Line.{Line};
ghost use Rattle.aft_model.specs.Claims.{forgotten};
ghost use Rattle.aft_model.specs.Committed.{Committed};
ghost use Rattle.aft_model.specs.DoorKnowledge.{is_open, knows_marked};
ghost use Rattle.aft_model.specs.Evidence.{shows_absent};
ghost use Rattle.aft_model.specs.Honest.{Honest};
ghost use Rattle.aft_model.specs.Readings.{marker_name};
ghost use Rattle.aft_model.proofs.Histories.{In};
ghost use Rattle.aft_lines.specs.Asked.{Asked, Ran};
ghost use Rattle.aft_lines.specs.CausesScans.{damaged_names};
ghost use Rattle.aft_lines.specs.FinishedText.{answers_of, line_of};
ghost use Rattle.aft_lines.specs.LegalTrace.{LegalTrace};
ghost use Rattle.aft_lines.specs.Lines.{lines};
ghost use Rattle.aft_lines.specs.Views.{view_of};
ghost use Rattle.law_kept.specs.Kept.{Lawful};
ghost use Rattle.law_kept.specs.Tried.{markers_put};
ghost use Rattle.law_runs.specs.Runs.{line_among};
ghost use Rattle.law_damage.specs.Paging.{is_get};

/// At the open door of a lawful history, a committed commit whose marker is shown absent, and that isn't forgotten by then, is
/// neither forgotten nor marked while no full marker of its UUID is put.
pub fn shown_absent_stays_unmarked()
    ensures { (c : Commit) (history : List DoorEntry) (entry : DoorEntry) (more : List DoorEntry) → Lawful (history ++ entry ∷ more) → IsTrue (is_open history) → Committed c history → IsTrue (shows_absent (marker_name c.id.uuid) entry) → IsFalse (forgotten c.id.uuid (history ++ entry ∷ [])) → ((e : DoorEntry) → In e more → (d : Commit) → In (Full d) (markers_put e.act) → d.id.uuid ≡ c.id.uuid → ⊥) → IsFalse (forgotten c.id.uuid (history ++ entry ∷ more)) × IsFalse (knows_marked c.id.uuid (history ++ entry ∷ more)) }
{}

/// Where the store keeps what it acknowledged, copies of a legal trace are shown no damage: each version that they ask for is there,
/// and reads. So they don't answer that something is damaged.
pub fn copies_are_undamaged()
    ensures shown { (asked : Asked) (ran : Ran) (line : Line) → LegalTrace asked ran → Honest ran.trace.door → In line (lines asked) → line.order ≡ Backup → damaged_names (view_of asked ran line) ≡ [] }
    ensures told { (asked : Asked) (ran : Ran) (line : Line) (name : List ℕ) → LegalTrace asked ran → Honest ran.trace.door → In line (lines asked) → line.order ≡ Backup → In (Damaged name) (answers_of (line_of line) ran) → ⊥ }
{}

/// So who answers that something is damaged, in a legal trace of a store that keeps what it acknowledged, is a get.
pub fn damage_is_told_by_gets()
    ensures { (asked : Asked) (ran : Ran) (line : Line) (name : List ℕ) → LegalTrace asked ran → Honest ran.trace.door → In line (lines asked) → line_among (line_of line) (lines asked) ≡ Some line → In (Damaged name) (answers_of (line_of line) ran) → IsTrue (is_get line.order) }
{}
