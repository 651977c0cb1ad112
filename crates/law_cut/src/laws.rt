//! Laws of the cut, as calls that do nothing and promise them.

ghost use Rattle.std.specs.Prelude.{◌≡◌, ◌++◌, ℕ, IsTrue, List, None, Some};
ghost use Rattle.aft_keeper.specs.declared.keeper.Pair.{Pair};
ghost use Rattle.aft_keeper.specs.Contents.{IsContents, bytes_at};
ghost use Rattle.aft_records.specs.declared.stored.Commit.{Commit};
ghost use Rattle.aft_records.specs.declared.stored.Marker.TheVariants.{Full};
ghost use Rattle.aft_model.specs.declared.door.DoorEntry.{DoorEntry};
ghost use Rattle.aft_model.specs.declared.reply.Reply.TheVariants.{Copied};
ghost use Rattle.aft_model.specs.declared.script.Command.TheVariants.{Backup};
ghost use Rattle.aft_model.specs.declared.script.Line.{Line};
ghost use Rattle.aft_model.specs.Contents.{GoesAlong};
ghost use Rattle.aft_model.specs.Cut.{cut, unmarked};
ghost use Rattle.aft_model.specs.DoorKnowledge.{is_open};
ghost use Rattle.aft_model.specs.Readings.{marker_name, record_name, records_in, version_name};
ghost use Rattle.aft_model.proofs.Histories.{In};
ghost use Rattle.aft_lines.specs.Asked.{Asked, Ran};
ghost use Rattle.aft_lines.specs.BackupCourse.{Copier};
ghost use Rattle.aft_lines.specs.FinishedText.{answers_of, line_of};
ghost use Rattle.aft_lines.specs.LegalTrace.{LegalTrace};
ghost use Rattle.aft_lines.specs.Lines.{lines};
ghost use Rattle.aft_lines.specs.Turns.{Turn};
ghost use Rattle.law_kept.specs.Kept.{Lawful};
ghost use Rattle.law_kept.specs.Tried.{markers_put};
ghost use Rattle.law_cut.specs.Copying.{CameThrough, CopiesFrom, shown_of_taken, taken_by};
ghost use Rattle.law_cut.specs.Served.{is_served};

/// Where contents that go along with the door's history have the record of a commit and no marker of its UUID, once the door is open
/// and somebody has come up, that record and each version of the commit stay there as they are, and no marker comes, while no full
/// marker of the UUID is put.
pub fn unmarked_stands()
    ensures record { (c : Commit) (bytes : List ℕ) (at_first held now : List Pair) (start more : List DoorEntry) → IsContents at_first → GoesAlong at_first start held → GoesAlong held more now → Lawful (start ++ more) → IsTrue (is_open start) → IsTrue (is_served start) → ((e : DoorEntry) → In e more → (d : Commit) → In (Full d) (markers_put e.act) → d.id.uuid ≡ c.id.uuid → ⊥) → bytes_at (record_name c.id.uuid) held ≡ Some bytes → In c (records_in (record { name = record_name c.id.uuid; bytes = bytes })) → bytes_at (marker_name c.id.uuid) held ≡ None → bytes_at (record_name c.id.uuid) now ≡ Some bytes }
    ensures marker { (c : Commit) (bytes : List ℕ) (at_first held now : List Pair) (start more : List DoorEntry) → IsContents at_first → GoesAlong at_first start held → GoesAlong held more now → Lawful (start ++ more) → IsTrue (is_open start) → IsTrue (is_served start) → ((e : DoorEntry) → In e more → (d : Commit) → In (Full d) (markers_put e.act) → d.id.uuid ≡ c.id.uuid → ⊥) → bytes_at (record_name c.id.uuid) held ≡ Some bytes → In c (records_in (record { name = record_name c.id.uuid; bytes = bytes })) → bytes_at (marker_name c.id.uuid) held ≡ None → bytes_at (marker_name c.id.uuid) now ≡ None }
    ensures versions { (c : Commit) (bytes key : List ℕ) (at_first held now : List Pair) (start more : List DoorEntry) → IsContents at_first → GoesAlong at_first start held → GoesAlong held more now → Lawful (start ++ more) → IsTrue (is_open start) → IsTrue (is_served start) → ((e : DoorEntry) → In e more → (d : Commit) → In (Full d) (markers_put e.act) → d.id.uuid ≡ c.id.uuid → ⊥) → bytes_at (record_name c.id.uuid) held ≡ Some bytes → In c (records_in (record { name = record_name c.id.uuid; bytes = bytes })) → bytes_at (marker_name c.id.uuid) held ≡ None → In key c.keys → bytes_at (version_name key c.id) now ≡ bytes_at (version_name key c.id) held }
{}

/// So a copy of a legal trace that copied all that it was to takes just the commits whose records the store held, without a marker of
/// their UUIDs, when its copier came up.
pub fn copies_take_the_unmarked()
    ensures unmarked { (asked : Asked) (ran : Ran) (line : Line) (copying : Copier) (behind : List Turn) (held : List Pair) (c : Commit) → CopiesFrom asked ran line copying behind held → In c (taken_by asked ran line copying behind) → In c (unmarked held) }
    ensures taken { (asked : Asked) (ran : Ran) (line : Line) (copying : Copier) (behind : List Turn) (held : List Pair) (c : Commit) → CopiesFrom asked ran line copying behind held → In c (unmarked held) → In c (taken_by asked ran line copying behind) }
{}

/// And what its turns were shown of these, their records and their versions, is just the cut of what the store held then.
pub fn copies_are_the_cut()
    ensures shown { (asked : Asked) (ran : Ran) (line : Line) (copying : Copier) (behind : List Turn) (held : List Pair) (pair : Pair) → CopiesFrom asked ran line copying behind held → In pair (shown_of_taken asked ran line copying behind) → In pair (cut held) }
    ensures cut { (asked : Asked) (ran : Ran) (line : Line) (copying : Copier) (behind : List Turn) (held : List Pair) (pair : Pair) → CopiesFrom asked ran line copying behind held → In pair (cut held) → In pair (shown_of_taken asked ran line copying behind) }
{}

/// A line of a legal trace that answers what it copied is a copy that came up, and copied all that it was to.
pub fn copied_came_through()
    ensures { (asked : Asked) (ran : Ran) (line : Line) (taken marked : ℕ) → LegalTrace asked ran → In line (lines asked) → In (Copied taken marked) (answers_of (line_of line) ran) → (line.order ≡ Backup) × (copying : Copier) × (behind : List Turn) × CameThrough asked ran line copying behind }
{}
