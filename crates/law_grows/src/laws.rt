//! Laws of a door's history that grows, as calls that do nothing and promise them.

ghost use Rattle.std.specs.Prelude.{◌≡◌, ◌≤◌, ℕ, IsTrue, List, false, length};
ghost use Rattle.std.specs.List.{list_all};
ghost use Rattle.aft_model.specs.declared.door.DoorEntry.{DoorEntry};
ghost use Rattle.aft_model.specs.declared.script.Command.{Command};
ghost use Rattle.aft_model.specs.declared.script.Line.{Line};
ghost use Rattle.aft_model.specs.Membership.{the_office};
ghost use Rattle.aft_lines.specs.Advance.{leads_to};
ghost use Rattle.aft_lines.specs.Asked.{Asked, Ran};
ghost use Rattle.aft_lines.specs.CourseWords.{Ends};
ghost use Rattle.aft_lines.specs.FinishedText.{line_of};
ghost use Rattle.aft_lines.specs.LineCourse.{follows_course};
ghost use Rattle.aft_lines.specs.LineView.{LineView, ends_of};
ghost use Rattle.aft_lines.specs.Turns.{Turn, end_front, turns};
ghost use Rattle.aft_lines.specs.Views.{view_of};
ghost use Rattle.law_grows.specs.Reach.{SameKept, SameWithin, comes_behind, grown, is_within, with_more};

/// Turns lead to the same position over two ends that say the same of what they have seen, and of a collection of what nodes keep, wherever the office isn't shut out of the door, as it never is.
pub fn positions_stay()
    ensures { (command : Command) (nodes : List ℕ) (reach : ℕ) (ends other : Ends) (line : List Turn) → SameWithin reach ends other → SameKept command ends other → ends.is_shut_out the_office 0 ≡ false → IsTrue (list_all (is_within reach) line) → leads_to command nodes ends line ≡ leads_to command nodes other line }
{}

/// And they are a line's course over both, or over neither.
pub fn courses_stay()
    ensures { (command : Command) (nodes : List ℕ) (reach : ℕ) (ends other : Ends) (line : List Turn) → SameWithin reach ends other → SameKept command ends other → ends.is_shut_out the_office 0 ≡ false → IsTrue (list_all (is_within reach) line) → follows_course command nodes ends line ≡ follows_course command nodes other line }
{}

/// The ends of a line say the same of what it has seen when the door's history grows behind that.
pub fn ends_stay()
    ensures seen { (view : LineView) (more : List DoorEntry) → SameWithin (length view.seen) (ends_of view) (ends_of (with_more view more)) }
    ensures kept { (view : LineView) (more : List DoorEntry) → (ends_of view).is_kept ≡ (ends_of (with_more view more)).is_kept }
{}

/// The view of a line, on which its course and each of its causes rest, stays when the door's history grows behind what the
/// line saw, by entries of other clients' lines and of later ones of its own client.
pub fn views_stay()
    ensures { (asked : Asked) (ran : Ran) (more : List DoorEntry) (line : Line) → IsTrue (list_all (comes_behind line) more) → end_front (turns (line_of line) ran.trace) ≤ length ran.trace.door → view_of asked (grown ran more) line ≡ view_of asked ran line }
{}
