//! Laws of losses, as calls that do nothing and promise them.

ghost use Rattle.std.specs.Prelude.{◌≡◌, ◌==◌, ◌&&◌, ℕ, IsFalse, IsTrue, List};
ghost use Rattle.aft_model.specs.declared.door.DoorAct.TheVariants.{Fence};
ghost use Rattle.aft_model.specs.declared.door.DoorEntry.{DoorEntry};
ghost use Rattle.aft_model.specs.declared.reply.Judged.{Judged};
ghost use Rattle.aft_model.specs.declared.reply.Reply.TheVariants.{Collected, InDoubt, NodeDown, Orphans, StoreFault};
ghost use Rattle.aft_model.specs.declared.reply.Verdict.TheVariants.{Fault};
ghost use Rattle.aft_model.specs.declared.script.Line.{Line};
ghost use Rattle.aft_model.specs.Honest.{Honest};
ghost use Rattle.aft_model.specs.Opening.{has_failed};
ghost use Rattle.aft_model.proofs.Histories.{In};
ghost use Rattle.aft_lines.specs.Asked.{Asked, Ran};
ghost use Rattle.aft_lines.specs.BackupCourse.{copier};
ghost use Rattle.aft_lines.specs.CausesAttempts.{speaks_of_attempt};
ghost use Rattle.aft_lines.specs.FinishedText.{answers_of, line_of};
ghost use Rattle.aft_lines.specs.Headline.{loses_nothing};
ghost use Rattle.aft_lines.specs.LegalTrace.{LegalTrace};
ghost use Rattle.aft_lines.specs.Lines.{lines};
ghost use Rattle.aft_lines.specs.RunsSoFar.{RunsSoFar};
ghost use Rattle.aft_lines.specs.Views.{view_of};
ghost use Rattle.law_held.specs.Copies.{is_crash};
ghost use Rattle.law_losses.specs.Crashed.{CrashedIn};
ghost use Rattle.law_losses.specs.Gets.{GetsLoseNothing};

/// In a legal trace of a store that keeps what it acknowledged, whose gets tell of no loss, no reply does: neither one of a line, nor
/// what the boots of the opening answer.
pub fn nothing_is_lost_but_by_gets()
    ensures { (asked : Asked) (ran : Ran) → LegalTrace asked ran → Honest ran.trace.door → GetsLoseNothing asked ran → IsTrue (loses_nothing ran.trace) }
{}

/// In a legal trace in which no call at the door failed, no line answers a store fault or that it is in doubt, no collection judges a
/// commit to be at fault, and no round of orphans counts a fault.
pub fn no_fault_without_a_fault()
    ensures store_fault { (asked : Asked) (ran : Ran) (line : Line) → LegalTrace asked ran → IsFalse (has_failed ran.trace.door) → In line (lines asked) → In StoreFault (answers_of (line_of line) ran) → ⊥ }
    ensures in_doubt { (asked : Asked) (ran : Ran) (line : Line) → LegalTrace asked ran → IsFalse (has_failed ran.trace.door) → In line (lines asked) → In InDoubt (answers_of (line_of line) ran) → ⊥ }
    ensures verdict { (asked : Asked) (ran : Ran) (line : Line) (judged : List Judged) (one : Judged) → LegalTrace asked ran → IsFalse (has_failed ran.trace.door) → In line (lines asked) → In (Collected judged) (answers_of (line_of line) ran) → In one judged → one.verdict ≡ Fault → ⊥ }
    ensures orphans { (asked : Asked) (ran : Ran) (line : Line) (deleted kept held fault : ℕ) → LegalTrace asked ran → IsFalse (has_failed ran.trace.door) → In line (lines asked) → In (Orphans deleted kept held fault) (answers_of (line_of line) ran) → fault ≡ 0 }
{}

/// In a run so far, and in a legal trace, who is fenced at the door, but for copiers, is fenced by a crash.
pub fn fences_are_crashes()
    ensures so_far { (asked : Asked) (ran : Ran) (entry : DoorEntry) (node inc : ℕ) → RunsSoFar asked ran → In entry ran.trace.door → entry.act ≡ Fence node inc → IsFalse (node == copier) → (crash : Line) × In crash (lines asked) × (line_of crash ≡ entry.by) × IsTrue (is_crash crash.order) }
    ensures legal { (asked : Asked) (ran : Ran) (entry : DoorEntry) (node inc : ℕ) → LegalTrace asked ran → In entry ran.trace.door → entry.act ≡ Fence node inc → IsFalse (node == copier) → (crash : Line) × In crash (lines asked) × (line_of crash ≡ entry.by) × IsTrue (is_crash crash.order) }
{}

/// In a legal trace a line answers that a node is down only after a crash line: a fence by a line that asks for the crash of that node
/// stands among what the line had seen of the door's history. No line of client 0, which is the background, speaks of an attempt.
pub fn nodes_go_down_by_crashes()
    ensures { (asked : Asked) (ran : Ran) (line : Line) (node inc : ℕ) → LegalTrace asked ran → In line (lines asked) → IsFalse (speaks_of_attempt line.order && line.client == 0) → In (NodeDown node inc) (answers_of (line_of line) ran) → CrashedIn asked node (view_of asked ran line).seen }
{}
