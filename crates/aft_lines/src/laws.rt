//! Laws of what a line answers, as calls that do nothing and promise them.

ghost use Rattle.std.specs.Prelude.{List};
ghost use Rattle.std.specs.List.{Contains};
ghost use Rattle.aft_model.specs.declared.reply.Reply.{Reply};
ghost use Rattle.aft_model.specs.declared.script.Line.{Line};
ghost use Rattle.aft_lines.specs.Asked.{Asked, Ran};
ghost use Rattle.aft_lines.specs.Causes.{ExactlyCaused};
ghost use Rattle.aft_lines.specs.FinishedText.{answers_of, line_of};
ghost use Rattle.aft_lines.specs.Lines.{lines};
ghost use Rattle.aft_lines.specs.Views.{LeavesOutNothing, view_of};

/// Where a run leaves out no reply that comes exactly where its cause is, each of its replies leaves out no other.
pub fn replies_are_exact()
    ensures { (asked : Asked) (ran : Ran) (line : Line) (reply : Reply) → LeavesOutNothing asked ran → Contains (lines asked) line → Contains (answers_of (line_of line) ran) reply → ExactlyCaused (view_of asked ran line) reply }
{}
