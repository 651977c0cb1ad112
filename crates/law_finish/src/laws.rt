//! Laws of courses of commits and aborts, as calls that do nothing and promise them.

ghost use Rattle.std.specs.Prelude.{◌&&◌, ◌||◌, ◌≡◌, Bool, ℕ, List};
ghost use Rattle.aft_model.specs.declared.caller.Attempt.{Attempt};
ghost use Rattle.aft_model.specs.Attempts.{Write};
ghost use Rattle.aft_lines.specs.Advance.{is_led_to_end, leads_to, tells_outcome};
ghost use Rattle.aft_lines.specs.CommitCourse.{Storing, ends_in_doubt, ends_with, finish_course, leave_course, puts_course, release_aborted, release_stored, settle_course, settling_course, stored_course, takes_away};
ghost use Rattle.aft_lines.specs.CourseWords.{Ends, any_answer, tells_no_memory};
ghost use Rattle.aft_lines.specs.Progress.{FoundAborted, HasFailed, IsNodeStored, IsRecorded, IsStoring, MustDoubt, MustEnd, MustLeave, Outcome, Settling};
ghost use Rattle.aft_lines.specs.Turns.{Turn};
ghost use Rattle.law_courses.specs.Led.{leads_from};
ghost use Rattle.law_finish.specs.Finishing.{finishing};

/// The turns of a commit, and those of an abort, are its course exactly where its positions lead to an end.
pub fn finishes_lead()
    ensures { (aborts : Bool) (nodes : List ℕ) (ends : Ends) (line : List Turn) → finish_course aborts ends line ≡ is_led_to_end (leads_to (finishing aborts) nodes ends line) }
{}

/// What is left of a commit or an abort that settles a doubt, and of an abort that found no record.
pub fn left_of_settlings()
    ensures settling { (aborts : Bool) (nodes : List ℕ) (ends : Ends) (storing : Storing) (line : List Turn) → leads_from (finishing aborts) nodes ends (Settling aborts storing) line ≡ settle_course aborts ends storing line }
    ensures none_found { (aborts : Bool) (nodes : List ℕ) (ends : Ends) (storing : Storing) (line : List Turn) → leads_from (finishing aborts) nodes ends (FoundAborted storing) line ≡ (release_aborted ends storing line || ends_in_doubt ends storing tells_no_memory line) }
{}

/// What is left where these writes are still to be put, where the record's put failed, where the record is there, and where the node knows of it.
pub fn left_of_storings()
    ensures puts { (aborts : Bool) (nodes : List ℕ) (ends : Ends) (storing : Storing) (writes : List Write) (line : List Turn) → leads_from (finishing aborts) nodes ends (IsStoring storing writes) line ≡ puts_course ends storing writes line }
    ensures failed { (aborts : Bool) (nodes : List ℕ) (ends : Ends) (storing : Storing) (line : List Turn) → leads_from (finishing aborts) nodes ends (HasFailed storing) line ≡ settling_course ends storing line }
    ensures recorded { (aborts : Bool) (nodes : List ℕ) (ends : Ends) (storing : Storing) (line : List Turn) → leads_from (finishing aborts) nodes ends (IsRecorded storing) line ≡ stored_course ends storing line }
    ensures stored { (aborts : Bool) (nodes : List ℕ) (ends : Ends) (storing : Storing) (line : List Turn) → leads_from (finishing aborts) nodes ends (IsNodeStored storing) line ≡ release_stored ends storing line }
{}

/// What is left where the attempt must be left in doubt, where it leaves, and where it has let its claim go.
pub fn left_of_endings()
    ensures doubting { (aborts : Bool) (nodes : List ℕ) (ends : Ends) (storing : Storing) (line : List Turn) → leads_from (finishing aborts) nodes ends (MustDoubt storing) line ≡ ends_in_doubt ends storing any_answer line }
    ensures leaving { (aborts : Bool) (nodes uuid : List ℕ) (a : Attempt) (ends : Ends) (line : List Turn) → leads_from (finishing aborts) nodes ends (MustLeave aborts a uuid) line ≡ leave_course aborts ends a uuid line }
    ensures ending { (aborts : Bool) (nodes : List ℕ) (a : Attempt) (outcome : Outcome) (ends : Ends) (line : List Turn) → leads_from (finishing aborts) nodes ends (MustEnd a outcome) line ≡ ends_with ends a (takes_away a (tells_outcome outcome)) line }
{}
