//! Laws of accounts, as calls that do nothing and promise them.

ghost use Rattle.aft_model.proofs.Histories.{In};
ghost use Rattle.aft_model.specs.declared.caller.Attempt.{Attempt};
ghost use Rattle.aft_model.specs.declared.node.NodeEntry.{NodeEntry};
ghost use Rattle.aft_model.specs.declared.script.Command.{Command};
ghost use Rattle.std.specs.List.{list_all};
ghost use Rattle.std.specs.Prelude.{◌≡◌, None, Some, IsFalse, IsTrue, if◌then◌else◌, ℕ, ◌||◌, ◌++◌, ◌∷◌, [], length};
ghost use Rattle.aft_model.specs.declared.script.Line.{Line};
ghost use Rattle.aft_model.specs.declared.trace.Trace.{Trace};
ghost use Rattle.aft_model.specs.Attempts.{attempt_state, uuid_of};
ghost use Rattle.aft_model.specs.Membership.{is_up};
ghost use Rattle.aft_model.specs.NodeSights.{is_fenced};
ghost use Rattle.aft_model.specs.NodeState.{node_state, serves};
ghost use Rattle.aft_lines.specs.Asked.{Asked, Ran};
ghost use Rattle.aft_lines.specs.CausesRounds.{is_collect};
ghost use Rattle.aft_lines.specs.CourseWords.{caller_of};
ghost use Rattle.aft_lines.specs.FinishedText.{line_of};
ghost use Rattle.aft_lines.specs.LegalTrace.{LegalTrace, are_asks};
ghost use Rattle.aft_lines.specs.Lines.{begins, hold_after, hold_before, lines};
ghost use Rattle.aft_lines.specs.Makes.{makes};
ghost use Rattle.aft_lines.specs.Opened.{Opened};
ghost use Rattle.aft_lines.specs.Progress.{Progress};
ghost use Rattle.aft_lines.specs.RunsSoFar.{RunsSoFar, is_stopped_rightly, position_of};
ghost use Rattle.aft_lines.specs.Turns.{turns, AtNode};
ghost use Rattle.aft_lines.specs.Views.{line_before, view_of};
ghost use Rattle.law_held.specs.Desk.{is_script};
ghost use Rattle.law_held.specs.Fetching.{Fetch};
ghost use Rattle.law_held.specs.Standing.{fetch_in, is_get, part_of_node};
ghost use Rattle.law_holders.specs.Rows.{is_of_attempt};
ghost use Rattle.law_claims.specs.Doing.{attempt_at, moves};
ghost use Rattle.law_steps.specs.Histories.{history_in};
ghost use Rattle.law_turns.specs.Order.{give_nothing_up, moments_ascend, tie_in_one_list};
ghost use Rattle.law_accounts.specs.Account.{Account, IsDone, MayGoOn, NoneCollects, Stand, StandsBehind, Waits};
ghost use Rattle.law_accounts.specs.Adding.{Added, AddsAtNode, ComesAsOrdered, Follows, maker_of, numbered_in, with_added};
ghost use Rattle.law_accounts.specs.Next.{ComesNext, IsFirst};
ghost use Rattle.law_accounts.specs.Turned.{comes_after, has_node, is_at_node_or_door, turned_by};

/// A run that has an account is a run so far.
pub fn accounts_are_runs()
    ensures { (asked : Asked) (ran : Ran) (stand : Line → Stand) → Account asked ran stand → RunsSoFar asked ran }
{}

/// With one entry more, of a line that may go on, which keeps the law of its history, a run has an account again.
pub fn accounts_go_on()
    ensures { (asked : Asked) (ran : Ran) (stand later : Line → Stand) (line : Line) (added : Added) → Account asked ran stand → MayGoOn asked stand line → maker_of added ≡ line_of line → Follows asked ran added → ComesAsOrdered asked ran added → NoneCollects asked stand added → StandsBehind asked stand later line (view_of asked (with_added added ran) line) → Account asked (with_added added ran) later }
{}

/// A run of which each line is over is legal.
pub fn accounts_end()
    ensures { (asked : Asked) (ran : Ran) (stand : Line → Stand) → Account asked ran stand → ((line : Line) → In line (lines asked) → stand line ≡ IsDone) → LegalTrace asked ran }
{}

/// The turn that a line makes by an entry stands behind its earlier ones, if no moment falls, turns of one moment stand in one
/// list and nothing is given up. So it does for any command but a collection, where its line keeps to one node and the door, a
/// front at the node is past each earlier turn, and none at the door had seen more than there is.
pub fn turns_follow()
    ensures in_order { (ran : Ran) (added : Added) → IsTrue (has_node ran added) → IsTrue (moments_ascend (turned_by ran added)) → IsTrue (tie_in_one_list (turned_by ran added)) → IsTrue (give_nothing_up (turned_by ran added)) → turns (maker_of added) (with_added added ran).trace ≡ turned_by ran added }
    ensures at_one_node { (command : Command) (ran : Ran) (added : Added) (node : ℕ) → IsFalse (is_collect command) → IsTrue (has_node ran added) → IsTrue (list_all (makes command) (turned_by ran added)) → IsTrue (list_all (is_at_node_or_door node) (turned_by ran added)) → IsTrue (comes_after ran added (turns (maker_of added) ran.trace)) → turns (maker_of added) (with_added added ran).trace ≡ turned_by ran added }
{}

/// A client holds node 1 and no attempt before its first line; before each next one it holds what the line before gave, if that
/// begins a transaction, and else what it held before that line.
pub fn holds_follow()
    ensures at_first { (asked : Asked) (trace : Trace) (line : Line) → IsFirst asked line → (hold_before (lines asked) trace line ≡ record { node = 1; attempt = None }) × (line_before (lines asked) line ≡ None) }
    ensures before_next { (asked : Asked) (line next : Line) → IsTrue (is_script asked.script.lines) → IsTrue (are_asks asked) → ComesNext asked line next → line_before (lines asked) next ≡ Some line }
    ensures at_next { (asked : Asked) (trace : Trace) (line next : Line) → IsTrue (is_script asked.script.lines) → IsTrue (are_asks asked) → ComesNext asked line next → hold_before (lines asked) trace next ≡ (if begins line.order then hold_after trace (Some line) else hold_before (lines asked) trace line) }
{}

/// Behind its opening a run has an account in which each line waits.
pub fn accounts_begin()
    ensures { (asked : Asked) (ran : Ran) → IsTrue (is_script asked.script.lines) → IsTrue (are_asks asked) → Opened asked ran → Account asked ran (λ line. Waits) }
{}

/// In a run with an account the attempt of a get that is at a fetch has come up: it is up, or was fenced.
pub fn fetchers_have_come_up()
    ensures { (asked : Asked) (ran : Ran) (stand : Line → Stand) (line : Line) (fetch : Fetch) → Account asked ran stand → In line (lines asked) → IsTrue (is_get line.order) → fetch_in (position_of (view_of asked ran line)) ≡ Some fetch → IsTrue (is_up (caller_of fetch.attempt) ran.trace.door || is_fenced (caller_of fetch.attempt) ran.trace.door) }
{}

/// Where a line stops in the middle of its course by a turn at its node that has seen all that is at the door, one of its turns
/// has seen the fence of the attempt's incarnation.
pub fn stops_are_seen()
    ensures { (asked : Asked) (ran : Ran) (stand : Line → Stand) (line : Line) (node : ℕ) (entry : NodeEntry) → Account asked ran stand → MayGoOn asked stand line → entry.by ≡ line_of line → Follows asked ran (AddsAtNode node entry) → entry.front ≡ length ran.trace.door → turns (line_of line) (with_added (AddsAtNode node entry) ran).trace ≡ turns (line_of line) ran.trace ++ AtNode node (numbered_in node 1 ran.trace.nodes) entry ∷ [] → IsTrue (is_stopped_rightly (view_of asked (with_added (AddsAtNode node entry) ran) line).seen (view_of asked (with_added (AddsAtNode node entry) ran) line).turns (position_of (view_of asked (with_added (AddsAtNode node entry) ran) line))) }
{}

/// While its node serves the attempt's incarnation, an attempt that a begin, a forget, a commit or an abort moves does what the
/// line's position asks, and is of its UUID, though the incarnation was fenced.
pub fn served_attempts_do_as_asked()
    ensures { (asked : Asked) (ran : Ran) (stand : Line → Stand) (line : Line) (position : Progress) (a : Attempt) → Account asked ran stand → In line (lines asked) → IsTrue (is_of_attempt line.order) → position_of (view_of asked ran line) ≡ Some position → attempt_at position ≡ Some a → IsTrue (serves a.inc (node_state (history_in a.node 1 ran.trace.nodes))) → IsTrue (moves position a (attempt_state a (part_of_node a.node ran)) (uuid_of a (part_of_node a.node ran))) }
{}
