//! Laws of answers, as calls that do nothing and promise them.

ghost use Rattle.std.specs.Prelude.{◌≡◌, ◌||◌, ℕ, IsTrue, List, Some};
ghost use Rattle.std.specs.List.{Contains};
ghost use Rattle.aft_model.specs.declared.reply.Reply.{Reply};
ghost use Rattle.aft_model.specs.declared.script.Command.TheVariants.{Abort, Announce, Backup, Begin, Collect, Commit, Crash, Deliver, Forget, Get, Local, Manager, Orphans, Put, Start};
ghost use Rattle.aft_model.specs.declared.script.Line.{Line};
ghost use Rattle.aft_lines.specs.Asked.{Asked, Ran};
ghost use Rattle.aft_lines.specs.Causes.{Caused, ExactlyCaused, comes_exactly, same_but_holders, yields_to};
ghost use Rattle.aft_lines.specs.FinishedText.{answers_of, line_of};
ghost use Rattle.aft_lines.specs.LegalTrace.{LegalTrace};
ghost use Rattle.aft_lines.specs.LineView.{LineView};
ghost use Rattle.aft_lines.specs.Lines.{lines};
ghost use Rattle.aft_lines.specs.Views.{LeavesOutNothing, view_of};
ghost use Rattle.law_answers.specs.Courses.{carries_its_words, comes_behind_legal, keeps_its_course, keeps_rules, last_answer, reads_its_clock, speaks_of_its_attempt, stands_at_its_node};

/// Where a put keeps its course, each reply whose cause it has leaves out no other.
pub fn puts_leave_out_nothing()
    ensures { (key value : List ℕ) (view : LineView) (reply : Reply) → view.command ≡ Put key value → IsTrue (keeps_its_course view) → Caused view reply → ExactlyCaused view reply }
{}

/// Where an announcement keeps its course, each reply whose cause it has leaves out no other.
pub fn announcements_leave_out_nothing()
    ensures { (node : ℕ) (view : LineView) (reply : Reply) → view.command ≡ Announce node → IsTrue (keeps_its_course view) → Caused view reply → ExactlyCaused view reply }
{}

/// Where a delivery keeps its course, each reply whose cause it has leaves out no other.
pub fn deliveries_leave_out_nothing()
    ensures { (node : ℕ) (view : LineView) (reply : Reply) → view.command ≡ Deliver node → IsTrue (keeps_its_course view) → Caused view reply → ExactlyCaused view reply }
{}

/// Where a local collection keeps its course, each reply whose cause it has leaves out no other.
pub fn locals_leave_out_nothing()
    ensures { (node : ℕ) (view : LineView) (reply : Reply) → view.command ≡ Local node → IsTrue (keeps_its_course view) → Caused view reply → ExactlyCaused view reply }
{}

/// Where a crash keeps its course, each reply whose cause it has leaves out no other.
pub fn crashes_leave_out_nothing()
    ensures { (node : ℕ) (view : LineView) (reply : Reply) → view.command ≡ Crash node → IsTrue (keeps_its_course view) → Caused view reply → ExactlyCaused view reply }
{}

/// Where a round of the manager keeps its course, each reply whose cause it has leaves out no other.
pub fn managers_leave_out_nothing()
    ensures { (view : LineView) (reply : Reply) → view.command ≡ Manager → IsTrue (keeps_its_course view) → Caused view reply → ExactlyCaused view reply }
{}

/// Where a start keeps its course, by turns of its node that keep that one's rules, each reply whose cause it has leaves out no
/// other.
pub fn starts_leave_out_nothing()
    ensures { (node : ℕ) (view : LineView) (reply : Reply) → view.command ≡ Start node → IsTrue (keeps_its_course view) → IsTrue (keeps_rules view) → IsTrue (stands_at_its_node view) → Caused view reply → ExactlyCaused view reply }
{}

/// Where a get keeps its course, by turns that keep their node's rules, carry its words and speak of the attempt that its client
/// holds, each reply whose cause it has leaves out no other.
pub fn gets_leave_out_nothing()
    ensures { (key : List ℕ) (view : LineView) (reply : Reply) → view.command ≡ Get key → IsTrue (keeps_its_course view) → IsTrue (keeps_rules view) → IsTrue (carries_its_words view) → IsTrue (speaks_of_its_attempt view) → Caused view reply → ExactlyCaused view reply }
{}

/// Where a forget keeps its course, by turns that keep their node's rules and carry its words, each reply whose cause it has leaves
/// out no other.
pub fn forgets_leave_out_nothing()
    ensures { (uuid : List ℕ) (node : ℕ) (view : LineView) (reply : Reply) → view.command ≡ Forget uuid node → IsTrue (keeps_its_course view) → IsTrue (keeps_rules view) → IsTrue (carries_its_words view) → Caused view reply → ExactlyCaused view reply }
{}

/// Where a begin keeps its course, by turns that keep their node's rules, carry its words and come behind legal histories of their
/// node, each reply whose cause it has leaves out no other.
pub fn begins_leave_out_nothing()
    ensures { (uuid : List ℕ) (node : ℕ) (view : LineView) (reply : Reply) → view.command ≡ Begin uuid node → IsTrue (keeps_its_course view) → IsTrue (keeps_rules view) → IsTrue (carries_its_words view) → IsTrue (comes_behind_legal view) → Caused view reply → ExactlyCaused view reply }
{}

/// Where an abort keeps its course, by turns that keep their node's rules and speak of the attempt that its client holds, each reply
/// whose cause it has leaves out no other.
pub fn aborts_leave_out_nothing()
    ensures { (view : LineView) (reply : Reply) → view.command ≡ Abort → IsTrue (keeps_its_course view) → IsTrue (keeps_rules view) → IsTrue (speaks_of_its_attempt view) → Caused view reply → ExactlyCaused view reply }
{}

/// Where a commit keeps its course, by turns that keep their node's rules, speak of the attempt that its client holds and read the
/// clock, the reply of its last turn, where its cause is, leaves out no other.
pub fn commits_leave_out_nothing()
    ensures { (view : LineView) (reply : Reply) → view.command ≡ Commit → IsTrue (keeps_its_course view) → IsTrue (keeps_rules view) → IsTrue (speaks_of_its_attempt view) → IsTrue (reads_its_clock view) → last_answer view.turns ≡ Some reply → Caused view reply → ExactlyCaused view reply }
{}

/// Where a copy keeps its course, each reply whose cause it has leaves out no other.
pub fn backups_leave_out_nothing()
    ensures { (view : LineView) (reply : Reply) → view.command ≡ Backup → IsTrue (keeps_its_course view) → Caused view reply → ExactlyCaused view reply }
{}

/// Where a collection keeps its course, by turns that keep the office's rules, each reply whose cause it has leaves out no other:
/// verdicts that have their cause are the same but for who holds.
pub fn collects_leave_out_nothing()
    ensures { (view : LineView) (reply : Reply) → view.command ≡ Collect → IsTrue (keeps_its_course view) → IsTrue (keeps_rules view) → Caused view reply → ExactlyCaused view reply }
{}

/// Where a round of orphans keeps its course, each reply whose cause it has leaves out no other: in whatever way its turns may be those
/// for the versions that it found, they tell the same counts.
pub fn orphans_leave_out_nothing()
    ensures { (key : List ℕ) (view : LineView) (reply : Reply) → view.command ≡ Orphans key → IsTrue (keeps_its_course view) → Caused view reply → ExactlyCaused view reply }
{}

/// In a legal trace no answer to a line leaves out another reply that comes exactly where its cause is.
pub fn legal_lines_leave_out_nothing()
    ensures { (asked : Asked) (ran : Ran) (line : Line) (reply : Reply) → LegalTrace asked ran → Contains (lines asked) line → Contains (answers_of (line_of line) ran) reply → ExactlyCaused (view_of asked ran line) reply }
{}

/// So a legal trace leaves out nothing.
pub fn legal_traces_leave_out_nothing()
    ensures { (asked : Asked) (ran : Ran) → LegalTrace asked ran → LeavesOutNothing asked ran }
{}

/// In a legal trace a line that has the cause of a reply which comes exactly where that is answers it, of a collection's verdicts but for
/// who holds, or a reply to which it yields: that the node is down, or that memory was wanting.
pub fn caused_replies_are_answered()
    ensures { (asked : Asked) (ran : Ran) (line : Line) (other : Reply) → LegalTrace asked ran → Contains (lines asked) line → IsTrue (comes_exactly other) → Caused (view_of asked ran line) other → (reply : Reply) × Contains (answers_of (line_of line) ran) reply × IsTrue (same_but_holders reply other || yields_to reply) }
{}
