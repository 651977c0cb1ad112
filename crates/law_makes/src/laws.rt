//! Laws of what lines make, as calls that do nothing and promise them.

ghost use Rattle.std.specs.Prelude.{◌≡◌, ℕ, IsTrue, List, Some, false, not};
ghost use Rattle.std.specs.List.{list_all};
ghost use Rattle.aft_model.specs.declared.script.Command.{Command};
ghost use Rattle.aft_model.specs.Membership.{the_office};
ghost use Rattle.aft_lines.specs.Advance.{leads_to};
ghost use Rattle.aft_lines.specs.Asked.{Asked, Ran};
ghost use Rattle.aft_lines.specs.CourseWords.{Ends};
ghost use Rattle.aft_lines.specs.LegalTrace.{LegalTrace};
ghost use Rattle.aft_lines.specs.LineCourse.{follows_course};
ghost use Rattle.aft_lines.specs.Progress.{Progress};
ghost use Rattle.aft_lines.specs.RunsSoFar.{all_make};
ghost use Rattle.aft_lines.specs.Turns.{Turn};
ghost use Rattle.law_rounds.specs.Along.{is_along};
ghost use Rattle.aft_lines.specs.Makes.{makes};

/// A line that has come somewhere in its course, where its positions are told apart, has made nothing but what lines of its command make.
pub fn lines_make()
    ensures { (command : Command) (nodes : List ℕ) (ends : Ends) (line : List Turn) (position : Progress) → IsTrue (not (is_along command)) → leads_to command nodes ends line ≡ Some position → IsTrue (list_all (makes command) line) }
{}

/// The turns of a line that keeps its course, whatever its command, are such as lines of its command make, wherever the office isn't shut out of the door, as it never is.
pub fn courses_make()
    ensures { (command : Command) (nodes : List ℕ) (ends : Ends) (line : List Turn) → ends.is_shut_out the_office 0 ≡ false → IsTrue (follows_course command nodes ends line) → IsTrue (list_all (makes command) line) }
{}

/// In a legal trace each line makes nothing but what lines of its command make.
pub fn runs_make()
    ensures { (asked : Asked) (ran : Ran) → LegalTrace asked ran → IsTrue (all_make asked ran) }
{}
