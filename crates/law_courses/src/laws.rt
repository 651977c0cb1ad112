//! Laws of courses, as calls that do nothing and promise them.

ghost use Rattle.std.specs.Prelude.{◌≡◌, ◌++◌, ℕ, List};
ghost use Rattle.aft_id.specs.declared.txn_id.TxnId.{TxnId};
ghost use Rattle.aft_model.specs.declared.caller.Attempt.{Attempt};
ghost use Rattle.aft_model.specs.declared.script.Command.{Command};
ghost use Rattle.aft_model.specs.declared.script.Command.TheVariants.{Begin, Forget, Get};
ghost use Rattle.aft_lines.specs.Advance.{is_led_to_end, leads_to};
ghost use Rattle.aft_lines.specs.BeginCourse.{Beginning, begin_course, claim_course, marker_course};
ghost use Rattle.aft_lines.specs.CourseWords.{Ends, closes, ends_at_node};
ghost use Rattle.aft_lines.specs.ForgetCourse.{forget_course, short_course};
ghost use Rattle.aft_lines.specs.GetCourse.{ends_get, fetch_course, get_course};
ghost use Rattle.aft_lines.specs.Progress.{Admitted, Fetching, FoundNoRecord, HasFetched};
ghost use Rattle.aft_lines.specs.Turns.{Turn};
ghost use Rattle.law_courses.specs.Led.{leads_from, leads_on};

/// Behind the turns that a line has made, what follows leads to its end exactly where it does from the position that they led to.
pub fn left_behind_turns()
    ensures { (command : Command) (nodes : List ℕ) (ends : Ends) (made rest : List Turn) → is_led_to_end (leads_to command nodes ends (made ++ rest)) ≡ leads_on command nodes ends (leads_to command nodes ends made) rest }
{}

/// The turns of a get are its course exactly where its positions lead to an end.
pub fn gets_lead()
    ensures { (key nodes : List ℕ) (ends : Ends) (line : List Turn) → get_course ends line ≡ is_led_to_end (leads_to (Get key) nodes ends line) }
{}

/// What is left of a get that fetches, and of one that has fetched.
pub fn left_of_gets()
    ensures fetching { (key nodes its : List ℕ) (id : TxnId) (a : Attempt) (ends : Ends) (line : List Turn) → leads_from (Get key) nodes ends (Fetching a its id) line ≡ fetch_course ends a its id line }
    ensures fetched { (key nodes its : List ℕ) (id : TxnId) (place : ℕ) (a : Attempt) (ends : Ends) (line : List Turn) → leads_from (Get key) nodes ends (HasFetched a its id place) line ≡ ends_at_node a.node (closes ends a.inc (ends_get a its id place)) line }
{}

/// The turns of a begin are its course exactly where its positions lead to an end.
pub fn begins_lead()
    ensures { (uuid nodes : List ℕ) (node : ℕ) (ends : Ends) (line : List Turn) → begin_course ends line ≡ is_led_to_end (leads_to (Begin uuid node) nodes ends line) }
{}

/// What is left of a begin whose attempt opens, and of one that has found no record.
pub fn left_of_begins()
    ensures opening { (uuid nodes : List ℕ) (node : ℕ) (begun : Beginning) (ends : Ends) (line : List Turn) → leads_from (Begin uuid node) nodes ends (Admitted begun) line ≡ claim_course (marker_course ends begun) ends begun line }
    ensures no_record { (uuid nodes : List ℕ) (node : ℕ) (begun : Beginning) (ends : Ends) (line : List Turn) → leads_from (Begin uuid node) nodes ends (FoundNoRecord begun) line ≡ marker_course ends begun line }
{}

/// The turns of a forget are its course exactly where its positions lead to an end.
pub fn forgets_lead()
    ensures { (uuid nodes : List ℕ) (node : ℕ) (ends : Ends) (line : List Turn) → forget_course ends line ≡ is_led_to_end (leads_to (Forget uuid node) nodes ends line) }
{}

/// What is left of a forget whose attempt opens, and of one that has found no record.
pub fn left_of_forgets()
    ensures opening { (uuid nodes : List ℕ) (node : ℕ) (begun : Beginning) (ends : Ends) (line : List Turn) → leads_from (Forget uuid node) nodes ends (Admitted begun) line ≡ claim_course (short_course ends begun) ends begun line }
    ensures no_record { (uuid nodes : List ℕ) (node : ℕ) (begun : Beginning) (ends : Ends) (line : List Turn) → leads_from (Forget uuid node) nodes ends (FoundNoRecord begun) line ≡ short_course ends begun line }
{}
