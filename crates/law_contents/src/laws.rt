//! Laws of contents, as calls that do nothing and promise them.

ghost use Rattle.std.specs.Prelude.{ℕ, List, IsFalse, IsTrue};
ghost use Rattle.std.specs.List.{list_all, list_any};
ghost use Rattle.aft_keeper.specs.declared.keeper.Pair.{Pair};
ghost use Rattle.aft_keeper.specs.Contents.{IsContents, bytes_at};
ghost use Rattle.aft_records.specs.declared.stored.Commit.{Commit};
ghost use Rattle.aft_model.specs.declared.door.DoorEntry.{DoorEntry};
ghost use Rattle.aft_model.specs.Committed.{Committed};
ghost use Rattle.aft_model.specs.Contents.{GoesAlong};
ghost use Rattle.aft_model.specs.DoorKnowledge.{is_open, knows_marked};
ghost use Rattle.aft_model.specs.Honest.{may_be};
ghost use Rattle.aft_model.specs.MayHold.{may_hold};
ghost use Rattle.aft_model.specs.Readings.{is_record_of, is_version_at};
ghost use Rattle.aft_model.specs.Sound.{Sound};
ghost use Rattle.aft_lines.specs.KeepsIds.{KeepsIds};
ghost use Rattle.law_kept.specs.Kept.{Lawful};

/// Where contents go along with a history, what stands under each name is something that the name may hold.
pub fn contents_are_possible()
    ensures { (name : List ℕ) (at_first now : List Pair) (history : List DoorEntry) → IsContents at_first → GoesAlong at_first history now → IsTrue (may_be (may_hold name history) (bytes_at name now)) }
{}

/// Once the door of a lawful history is open, contents that go along with it are sound.
pub fn contents_are_sound()
    ensures { (at_first now : List Pair) (history : List DoorEntry) → IsContents at_first → GoesAlong at_first history now → Lawful history → IsTrue (is_open history) → Sound now }
{}

/// They have the record and each version of every committed commit whose UUID isn't marked: so of each that isn't superseded.
pub fn unmarked_commits_are_held()
    ensures record { (c : Commit) (at_first now : List Pair) (history : List DoorEntry) → IsContents at_first → GoesAlong at_first history now → Lawful history → IsTrue (is_open history) → Committed c history → IsFalse (knows_marked c.id.uuid history) → IsTrue (list_any (is_record_of c) now) }
    ensures versions { (c : Commit) (at_first now : List Pair) (history : List DoorEntry) → IsContents at_first → GoesAlong at_first history now → Lawful history → IsTrue (is_open history) → Committed c history → IsFalse (knows_marked c.id.uuid history) → IsTrue (list_all (λ key. list_any (is_version_at key c.id) now) c.keys) }
{}

/// And behind each entry they have a record or a marker of each UUID that was used and isn't forgotten.
pub fn contents_keep_ids()
    ensures { (at_first : List Pair) (history : List DoorEntry) → IsContents at_first → Lawful history → KeepsIds at_first history }
{}
