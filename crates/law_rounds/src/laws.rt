//! Laws of courses of the other lines, as calls that do nothing and promise them.

ghost use Rattle.std.specs.Prelude.{◌≡◌, ◌++◌, ℕ, Bool, IsTrue, List, Option, false};
ghost use Rattle.std.specs.List.{list_any};
ghost use Rattle.aft_keeper.specs.declared.keeper.Pair.{Pair};
ghost use Rattle.aft_records.specs.declared.stored.Commit.{Commit};
ghost use Rattle.aft_model.specs.declared.script.Command.{Command};
ghost use Rattle.aft_model.specs.declared.script.Command.TheVariants.{Backup, Orphans, Start};
ghost use Rattle.aft_model.specs.Membership.{Incarnation, the_office};
ghost use Rattle.aft_model.specs.Sound.{markers_prefix, records_prefix};
ghost use Rattle.aft_lines.specs.Advance.{copies_on, in_round, is_led_to_end, leads_to};
ghost use Rattle.aft_lines.specs.BackupCourse.{Copier, backup_course, fence_course, tells_copy};
ghost use Rattle.aft_lines.specs.CourseWords.{Ends, closes, ends_at_node, ends_at_office};
ghost use Rattle.aft_lines.specs.LineCourse.{answers_last, ends_boot, follows_course, scan_course, start_course, up_course};
ghost use Rattle.aft_lines.specs.OpeningCourse.{opening_begins, opening_course, opens_so_far};
ghost use Rattle.aft_lines.specs.OrphanCourse.{VersionAt, orphan_course, versions_prefix};
ghost use Rattle.aft_lines.specs.Progress.{Along, AtDesk, BootScan, BootScanned, CopyMarkers, CopyRecords, HasFenced, MustComeUp, MustFence, OrphanScan, Standing};
ghost use Rattle.aft_lines.specs.ScanCourse.{copy_limit, names_limit, scanned_from, versions_limit};
ghost use Rattle.aft_lines.specs.Turns.{Turn};
ghost use Rattle.law_courses.specs.Led.{leads_from, leads_on};
ghost use Rattle.law_rounds.specs.Along.{is_along};
ghost use Rattle.law_rounds.specs.Left.{behind_versions_scan, left_of_markers, left_of_records, left_of_standing, left_of_versions, scan_at};

/// The turns of a line whose positions aren't told apart, and that ends with its answer, are its course exactly where its positions lead to an end.
pub fn along_leads()
    ensures { (command : Command) (nodes : List ℕ) (ends : Ends) (line : List Turn) → IsTrue (is_along command) → IsTrue (answers_last line) → follows_course command nodes ends line ≡ is_led_to_end (leads_to command nodes ends line) }
{}

/// What is left of such a line: with the turns that it has made it is to be the course.
pub fn left_along()
    ensures { (command : Command) (nodes : List ℕ) (ends : Ends) (made line : List Turn) → IsTrue (is_along command) → IsTrue (answers_last line) → leads_from command nodes ends (Along made) line ≡ follows_course command nodes ends (made ++ line) }
{}

/// The turns of a start are its course exactly where its positions lead to an end.
pub fn starts_lead()
    ensures { (node : ℕ) (nodes : List ℕ) (ends : Ends) (line : List Turn) → start_course ends line ≡ is_led_to_end (leads_to (Start node) nodes ends line) }
{}

/// What is left of a start that is to come up, of one that scans, and of one whose scan has ended.
pub fn left_of_starts()
    ensures coming_up { (node : ℕ) (nodes : List ℕ) (who : Incarnation) (ends : Ends) (line : List Turn) → leads_from (Start node) nodes ends (MustComeUp who) line ≡ up_course ends who line }
    ensures scanning { (node : ℕ) (nodes after : List ℕ) (listed : List Pair) (who : Incarnation) (ends : Ends) (line : List Turn) → leads_from (Start node) nodes ends (BootScan (scan_at names_limit who records_prefix after listed)) line ≡ scan_course ends who (scanned_from names_limit who records_prefix after listed line) }
    ensures scanned { (node : ℕ) (nodes : List ℕ) (whole : Bool) (who : Incarnation) (ends : Ends) (line : List Turn) → leads_from (Start node) nodes ends (BootScanned who whole) line ≡ ends_at_node who.node (closes ends who.inc (ends_boot who.inc whole)) line }
{}

/// The turns of a copy are its course exactly where its positions lead to an end.
pub fn copies_lead()
    ensures { (nodes : List ℕ) (ends : Ends) (line : List Turn) → backup_course ends line ≡ is_led_to_end (leads_to Backup nodes ends line) }
{}

/// What is left of a copy that scans the records, or the markers, behind a page at some place; that has versions to get; that must be fenced; and that has been.
pub fn left_of_copies()
    ensures records { (nodes after : List ℕ) (place : ℕ) (listed : List Pair) (by : Copier) (ends : Ends) (line : List Turn) → leads_from Backup nodes ends (CopyRecords by (scan_at copy_limit by.who records_prefix after listed)) line ≡ left_of_records ends by place after listed line }
    ensures markers { (nodes after : List ℕ) (place : ℕ) (listed : List Pair) (by : Copier) (taken : List Commit) (ends : Ends) (line : List Turn) → leads_from Backup nodes ends (CopyMarkers by taken (scan_at names_limit by.who markers_prefix after listed)) line ≡ left_of_markers ends by taken place after listed line }
    ensures versions { (nodes : List ℕ) (left : List VersionAt) (by : Copier) (ends : Ends) (line : List Turn) → leads_from Backup nodes ends (copies_on by left) line ≡ left_of_versions by left line }
    ensures fence { (nodes : List ℕ) (whole : Bool) (by : Copier) (ends : Ends) (line : List Turn) → leads_from Backup nodes ends (MustFence by whole) line ≡ fence_course by.who whole line }
    ensures fenced { (nodes : List ℕ) (whole : Bool) (ends : Ends) (line : List Turn) → leads_from Backup nodes ends (HasFenced whole) line ≡ ends_at_office (tells_copy whole) line }
{}

/// The turns of a round of orphans are its course exactly where its positions lead to an end, wherever the office isn't shut out of the door, as it never is.
pub fn orphans_lead()
    ensures { (key nodes : List ℕ) (ends : Ends) (line : List Turn) → ends.is_shut_out the_office 0 ≡ false → orphan_course key ends line ≡ is_led_to_end (leads_to (Orphans key) nodes ends line) }
{}

/// What is left of a round of orphans that scans, and of one behind its scan: what is left of one of its ways to stand.
pub fn left_of_orphans()
    ensures scanning { (key nodes after : List ℕ) (listed : List Pair) (ends : Ends) (line : List Turn) → ends.is_shut_out the_office 0 ≡ false → leads_from (Orphans key) nodes ends (OrphanScan (scan_at versions_limit the_office (versions_prefix key) after listed)) line ≡ behind_versions_scan ends (scanned_from versions_limit the_office (versions_prefix key) after listed line) }
    ensures standing { (key nodes : List ℕ) (desk : Option AtDesk) (standings : List Standing) (ends : Ends) (line : List Turn) → ends.is_shut_out the_office 0 ≡ false → leads_on (Orphans key) nodes ends (in_round desk standings) line ≡ list_any (λ standing. left_of_standing ends standing line) standings }
{}

/// A whole opening is the beginning of one, and so is what came before the end of a beginning; the same of an opening that was refused.
pub fn openings_begin()
    ensures whole { (nodes : List ℕ) (line : List Turn) → IsTrue (opening_course nodes line) → IsTrue (opening_begins nodes line) }
    ensures before { (nodes : List ℕ) (made rest : List Turn) → IsTrue (opening_begins nodes (made ++ rest)) → IsTrue (opening_begins nodes made) }
    ensures refused { (nodes : List ℕ) (made rest : List Turn) → IsTrue (opens_so_far nodes (made ++ rest)) → IsTrue (opens_so_far nodes made) }
{}
