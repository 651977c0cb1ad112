//! The promise of a legal trace, and that nothing fails in one by itself, as calls that do nothing and promise them.

ghost use Rattle.std.specs.Prelude.{◌==◌, ◌&&◌, ℕ, IsFalse};
ghost use Rattle.aft_model.specs.declared.reply.Reply.{Reply};
ghost use Rattle.aft_model.specs.declared.reply.Reply.TheVariants.{NodeDown};
ghost use Rattle.aft_model.specs.declared.script.Line.{Line};
ghost use Rattle.aft_model.specs.Honest.{Honest};
ghost use Rattle.aft_model.specs.Opening.{has_failed};
ghost use Rattle.aft_model.proofs.Histories.{In};
ghost use Rattle.aft_lines.specs.Asked.{Asked, Ran};
ghost use Rattle.aft_lines.specs.CausesAttempts.{speaks_of_attempt};
ghost use Rattle.aft_lines.specs.FinishedText.{answers_of, line_of};
ghost use Rattle.aft_lines.specs.Headline.{KeepsPromise};
ghost use Rattle.aft_lines.specs.LegalTrace.{LegalTrace};
ghost use Rattle.aft_lines.specs.Lines.{lines};
ghost use Rattle.aft_lines.specs.Views.{view_of};
ghost use Rattle.law_losses.specs.Crashed.{CrashedIn};
ghost use Rattle.law_headline.specs.Failing.{tells_failure};

/// Where the store keeps what it acknowledged, a legal trace keeps the whole promise: reads are atomic read sets of commits recorded
/// before; own writes and repeats read back; an id commits once until it is forgotten; commits stay whole until superseded; nothing
/// chosen is found deleted; and where no version fits a conflicting earlier read is named for each known one.
pub fn promise_kept()
    ensures { (asked : Asked) (ran : Ran) → LegalTrace asked ran → KeepsPromise ran.trace }
{}

/// No fault without a fault: in a legal trace of a store that keeps what it acknowledged, in which no call at the door failed, no line
/// answers a store fault, that it is in doubt, or that something is missing or damaged, no commit is judged to be at fault, and no round
/// of orphans counts a fault. And a line answers that a node is down only after a crash line of that node: its fence stands among what
/// the line had seen of the door's history. No line of client 0, which is the background, speaks of an attempt.
pub fn nothing_fails_by_itself()
    ensures fault { (asked : Asked) (ran : Ran) (line : Line) (reply : Reply) → LegalTrace asked ran → Honest ran.trace.door → IsFalse (has_failed ran.trace.door) → In line (lines asked) → In reply (answers_of (line_of line) ran) → IsFalse (tells_failure reply) }
    ensures down { (asked : Asked) (ran : Ran) (line : Line) (node inc : ℕ) → LegalTrace asked ran → In line (lines asked) → IsFalse (speaks_of_attempt line.order && line.client == 0) → In (NodeDown node inc) (answers_of (line_of line) ran) → CrashedIn asked node (view_of asked ran line).seen }
{}
