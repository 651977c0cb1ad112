//! Laws of names and stored values, as calls that do nothing and promise them.

ghost use Rattle.std.specs.Prelude.{◌≡◌, ◌++◌, ◌∷◌, ℕ, List, Ok, Some, codes, nat_eq, IsTrue};
ghost use Rattle.std.specs.List.{starts_with};
ghost use Rattle.hex.specs.Hex.{encode_lower};
ghost use Rattle.aft_id.specs.declared.txn_id.TxnId.{TxnId};
ghost use Rattle.aft_id.specs.TxnId.{IsUuid};
ghost use Rattle.aft_records.specs.declared.name.Name.{Name};
ghost use Rattle.aft_records.specs.declared.name.Name.TheVariants.{CommitOf, RetiredOf, VersionOf};
ghost use Rattle.aft_records.specs.declared.stored.Commit.{Commit};
ghost use Rattle.aft_records.specs.declared.stored.Marker.{Marker};
ghost use Rattle.aft_records.specs.declared.stored.Record.{Record};
ghost use Rattle.aft_records.specs.declared.stored.Version.{Version};
ghost use Rattle.aft_records.specs.Limits.{IsKey};
ghost use Rattle.aft_records.specs.Names.{name_text};
ghost use Rattle.aft_records.specs.NameReading.{name_of};
ghost use Rattle.aft_records.specs.Reading.{commit_of, marker_of, record_of, version_of};
ghost use Rattle.aft_records.specs.Records.{IsSpelledRecordOf};
ghost use Rattle.aft_records.specs.Rows.{marker_row, record_row, version_row};
ghost use Rattle.aft_records.specs.Stored.{IsCommit, IsMarker, IsName, IsRecord, IsVersion, IsWritableId};
ghost use Rattle.aft_model.specs.declared.door.DoorEntry.{DoorEntry};
ghost use Rattle.aft_model.specs.Bytes.{HasBytes, are_bytes, is_uuid};
ghost use Rattle.aft_model.specs.Committed.{Committed, Marked};
ghost use Rattle.aft_model.specs.Readings.{marker_name, record_name, version_name};

/// Records, markers and versions of different UUIDs, or keys and ids, have different names, and no name of one kind is
/// one of another.
pub fn names_differ()
    ensures records { (u v : List ℕ) → IsTrue (is_uuid u) → IsTrue (is_uuid v) → record_name u ≡ record_name v → u ≡ v }
    ensures markers { (u v : List ℕ) → IsTrue (is_uuid u) → IsTrue (is_uuid v) → marker_name u ≡ marker_name v → u ≡ v }
    ensures versions { (key other : List ℕ) (id its : TxnId) → IsKey key → IsKey other → IsWritableId id → IsWritableId its → version_name key id ≡ version_name other its → (key ≡ other) × (id ≡ its) }
    ensures record_and_marker { (u v : List ℕ) → record_name u ≡ marker_name v → ⊥ }
    ensures record_and_version { (u key : List ℕ) (id : TxnId) → record_name u ≡ version_name key id → ⊥ }
    ensures marker_and_version { (u key : List ℕ) (id : TxnId) → marker_name u ≡ version_name key id → ⊥ }
{}

/// The name of a record begins with `c/`, that of a marker with `r/`, and that of a version with `v/`, its key's digits and
/// a slash.
pub fn names_have_prefixes()
    ensures record { (u : List ℕ) → IsTrue (starts_with nat_eq (record_name u) (codes "c/")) }
    ensures marker { (u : List ℕ) → IsTrue (starts_with nat_eq (marker_name u) (codes "r/")) }
    ensures version { (key : List ℕ) (id : TxnId) → IsTrue (starts_with nat_eq (version_name key id) (codes "v/")) }
    ensures version_of_key { (key : List ℕ) (id : TxnId) → IsTrue (starts_with nat_eq (version_name key id) (codes "v/" ++ (encode_lower key ++ codes "/"))) }
{}

/// A text that is read as a name is its spelling, and the name is within the limits. So the text of a record's, a marker's
/// or a version's name is read as that name alone.
pub fn names_are_spelled()
    ensures spelled { (text : List ℕ) (name : Name) → name_of text ≡ Some name → IsName name × (text ≡ name_text name) }
    ensures record { (u v : List ℕ) → IsTrue (is_uuid u) → name_of (record_name u) ≡ Some (CommitOf v) → u ≡ v }
    ensures marker { (u v : List ℕ) → IsTrue (is_uuid u) → name_of (marker_name u) ≡ Some (RetiredOf v) → u ≡ v }
    ensures version { (key other : List ℕ) (id its : TxnId) → IsKey key → IsWritableId id → name_of (version_name key id) ≡ Some (VersionOf other its) → (key ≡ other) × (id ≡ its) }
{}

/// What bytes are read as is within the limits, and the bytes are a spelling of it: for a record of a commit one in either
/// format.
pub fn read_within_limits()
    ensures commit { (bytes : List ℕ) (c : Commit) → IsTrue (are_bytes bytes) → commit_of bytes ≡ Ok c → IsCommit c × IsSpelledRecordOf bytes c }
    ensures whole { (bytes : List ℕ) (r : Record) → IsTrue (are_bytes bytes) → record_of bytes ≡ Ok r → IsRecord r × (bytes ≡ record_row r) }
    ensures version { (bytes : List ℕ) (v : Version) → IsTrue (are_bytes bytes) → version_of bytes ≡ Ok v → IsVersion v × (bytes ≡ version_row v) }
    ensures marker { (bytes : List ℕ) (m : Marker) → IsTrue (are_bytes bytes) → marker_of bytes ≡ Ok m → IsMarker m × (bytes ≡ marker_row m) }
{}

/// The commits that a history made of bytes has acknowledged, shown or marked are within the limits: so their time is 1 or
/// more, and they wrote a key.
pub fn committed_within_limits()
    ensures committed { (c : Commit) (history : List DoorEntry) → HasBytes history → Committed c history → IsCommit c }
    ensures marked { (c : Commit) (history : List DoorEntry) → HasBytes history → Marked c history → IsCommit c }
{}
