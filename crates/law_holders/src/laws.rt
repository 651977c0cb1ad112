//! Laws of who holds what, as calls that do nothing and promise them.

ghost use Rattle.std.specs.Prelude.{◌≡◌, ℕ, IsTrue, List, Some, false};
ghost use Rattle.aft_records.specs.declared.stored.Commit.{Commit};
ghost use Rattle.aft_model.specs.declared.door.DoorAct.{DoorAct};
ghost use Rattle.aft_model.specs.declared.script.Command.{Command};
ghost use Rattle.std.specs.Str.{bytes_eq};
ghost use Rattle.aft_model.specs.Bytes.{is_uuid};
ghost use Rattle.aft_model.specs.Membership.{Incarnation, same_incarnation};
ghost use Rattle.aft_model.specs.Stages.{Stage, put_after, stage_after};
ghost use Rattle.aft_lines.specs.Advance.{advance};
ghost use Rattle.aft_lines.specs.CourseWords.{Ends};
ghost use Rattle.aft_lines.specs.Progress.{Progress};
ghost use Rattle.aft_lines.specs.Turns.{AtDoor};
ghost use Rattle.aft_lines.specs.Makes.{makes_at_door};
ghost use Rattle.law_holders.specs.Rows.{are_row_puts, caller_at, is_of_attempt, is_of_node, is_own_act, is_row, uuid_at};

/// Where the stage of the UUID of a begin, a forget, a commit or an abort is that of the line's position, each of its turns
/// at the door makes it that of its next one.
pub fn rows_move()
    ensures { (command : Command) (nodes : List ℕ) (ends : Ends) (position next : Progress) (place : ℕ) (act : DoorAct) (before : Stage) → IsTrue (is_of_attempt command) → IsTrue (is_row position before) → advance command nodes ends position (AtDoor place act) ≡ Some next → IsTrue (is_row next (stage_after (caller_at position) (uuid_at position) before act)) }
{}

/// Each turn at the door of such a line is made by its attempt's incarnation, and claims, releases, looks up, deletes or puts
/// what is of the attempt's UUID.
pub fn acts_are_own()
    ensures { (command : Command) (nodes : List ℕ) (ends : Ends) (position next : Progress) (place : ℕ) (act : DoorAct) → IsTrue (is_of_attempt command) → advance command nodes ends position (AtDoor place act) ≡ Some next → IsTrue (is_own_act position act) }
{}

/// Such an act leaves the stages of other incarnations, and of other UUIDs, as they were.
pub fn others_stay()
    ensures incarnations { (position : Progress) (act : DoorAct) (who : Incarnation) (uuid : List ℕ) (before : Stage) → IsTrue (is_own_act position act) → same_incarnation who (caller_at position) ≡ false → stage_after who uuid before act ≡ before }
    ensures uuids { (position : Progress) (act : DoorAct) (who : Incarnation) (uuid : List ℕ) (before : Stage) → IsTrue (is_own_act position act) → IsTrue (is_uuid uuid) → IsTrue (is_uuid (uuid_at position)) → bytes_eq uuid (uuid_at position) ≡ false → stage_after who uuid before act ≡ before }
{}

/// What records were put under the claim are those of the commit that the line's position stores, if it stores one, and so
/// behind each of its turns at the door.
pub fn puts_move()
    ensures { (command : Command) (nodes : List ℕ) (ends : Ends) (position next : Progress) (place : ℕ) (act : DoorAct) (puts : List Commit) → IsTrue (is_of_attempt command) → IsTrue (are_row_puts position puts) → advance command nodes ends position (AtDoor place act) ≡ Some next → IsTrue (are_row_puts next (put_after (caller_at position) (uuid_at position) puts act)) }
{}

/// What lines of other commands make at the door leaves the stages of the nodes' incarnations as they were.
pub fn bystanders_stay()
    ensures { (command : Command) (act : DoorAct) (who : Incarnation) (uuid : List ℕ) (before : Stage) → is_of_attempt command ≡ false → IsTrue (makes_at_door command act) → IsTrue (is_of_node who) → stage_after who uuid before act ≡ before }
{}
