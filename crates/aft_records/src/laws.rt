//! Laws of stored forms, which a caller can cite: each function does nothing.

ghost use Rattle.std.specs.Prelude.{◌≡◌, ℕ, ◌++◌, List};
ghost use Rattle.std.specs.Cmp.Lexicographic.{slice_cmp};
ghost use Rattle.std.specs.Ordering.{nat_cmp};
ghost use Rattle.aft_id.specs.TxnId.{id_cmp};
ghost use Rattle.aft_records.specs.Limits.{IsTime};
ghost use Rattle.aft_records.specs.Names.{id_digits, name_text};
ghost use Rattle.aft_records.specs.NameReading.{name_of};
ghost use Rattle.aft_records.specs.ReadIds.{read_id_of};
ghost use Rattle.aft_records.specs.Reading.{commit_of, record_of, version_of, marker_of};
ghost use Rattle.aft_records.specs.Records.{IsRecordOf, IsSpelledRecordOf};
ghost use Rattle.aft_records.specs.Rows.{commit_row, record_row, version_row, marker_row};
ghost use Rattle.aft_records.specs.Stored.{IsCommit, IsRecord, IsVersion, IsMarker, IsName, IsWritableId, IsWritableCommit, IsWritableRecord, IsWritableVersion, IsWritableMarker, IsWritableName, marker_time, if_timely};

use crate::name::Name;
use crate::stored::{Commit, Marker, Record, Version};
use aft_id::TxnId;

/// Reading what was written gives the value, for each value within the limits.
pub fn reading_of_written()
    ensures commit { (c : Commit) → IsCommit c → commit_of (commit_row c) ≡ Ok c }
    ensures whole { (r : Record) → IsRecord r → record_of (record_row r) ≡ Ok r }
    ensures version { (v : Version) → IsVersion v → version_of (version_row v) ≡ Ok v }
    ensures marker { (m : Marker) → IsMarker m → marker_of (marker_row m) ≡ Ok m }
{}

/// What was written has a reading exactly where its time keeps the limit, and is a `BadTime` otherwise.
pub fn reading_by_time()
    ensures commit { (c : Commit) → IsWritableCommit c → commit_of (commit_row c) ≡ if_timely c.id.time c }
    ensures whole { (r : Record) → IsWritableRecord r → record_of (record_row r) ≡ if_timely r.commit.id.time r }
    ensures version { (v : Version) → IsWritableVersion v → version_of (version_row v) ≡ if_timely v.id.time v }
    ensures marker { (m : Marker) → IsWritableMarker m → marker_of (marker_row m) ≡ if_timely (marker_time m) m }
{}

/// Two values have different spellings, and no spelling begins another of its table.
pub fn no_spelling_begins_another()
    ensures commit { (c d : Commit) (x y : List ℕ) → IsWritableCommit c → IsWritableCommit d → commit_row c ++ x ≡ commit_row d ++ y → (c ≡ d) × (x ≡ y) }
    ensures whole { (r s : Record) (x y : List ℕ) → IsWritableRecord r → IsWritableRecord s → record_row r ++ x ≡ record_row s ++ y → (r ≡ s) × (x ≡ y) }
    ensures version { (v w : Version) (x y : List ℕ) → IsWritableVersion v → IsWritableVersion w → version_row v ++ x ≡ version_row w ++ y → (v ≡ w) × (x ≡ y) }
    ensures marker { (m n : Marker) (x y : List ℕ) → IsWritableMarker m → IsWritableMarker n → marker_row m ++ x ≡ marker_row n ++ y → (m ≡ n) × (x ≡ y) }
{}

/// Each spelling of a record of a commit, in either format, is read as a record of that commit.
pub fn records_of_a_commit()
    ensures spelled { (bytes : List ℕ) (c : Commit) → IsCommit c → IsSpelledRecordOf bytes c → IsRecordOf bytes c }
    ensures whole { (r : Record) → IsWritableRecord r → commit_of (record_row r) ≡ if_timely r.commit.id.time r.commit }
{}

/// The texts of a record's reads ascend as the ids do, and are read as them.
pub fn texts_of_reads()
    ensures order { (a b : TxnId) → IsWritableId a → IsWritableId b → slice_cmp nat_cmp (id_digits a) (id_digits b) ≡ id_cmp a b }
    ensures reading { (id : TxnId) → IsWritableId id → IsTime id.time → read_id_of (id_digits id) ≡ Some id }
{}

/// Reading the text of a name gives the name, for each name within the limits.
pub fn name_of_written()
    ensures { (name : Name) → IsName name → name_of (name_text name) ≡ Some name }
{}

/// Two names have different texts, and no name's text begins another's.
pub fn no_name_begins_another()
    ensures { (a b : Name) (x y : List ℕ) → IsWritableName a → IsWritableName b → name_text a ++ x ≡ name_text b ++ y → (a ≡ b) × (x ≡ y) }
{}
