//! Laws of effects, as calls that do nothing and promise them.

ghost use Rattle.std.specs.Prelude.{◌≡◌, ◌++◌, ◌∷◌, ℕ, List, [], Option, Some, IsTrue};
ghost use Rattle.aft_records.specs.declared.stored.Commit.{Commit};
ghost use Rattle.aft_records.specs.Commits.{is_among};
ghost use Rattle.aft_model.specs.declared.door.DoorEntry.{DoorEntry};
ghost use Rattle.aft_model.specs.Committed.{committed_by, marked_by, marks_in};
ghost use Rattle.aft_model.specs.Honest.{Honest, may_be};
ghost use Rattle.aft_model.specs.LegalDoor.{is_answered};
ghost use Rattle.aft_model.specs.MayHold.{may_hold};
ghost use Rattle.aft_model.specs.Readings.{is_record_of, marker_name, record_name};
ghost use Rattle.law_effects.specs.Effects.{Shows, after_effect, effect_of, proven_by};

/// What a name may hold after one entry more is what its effect leaves of what it might hold before.
pub fn effects_follow()
    ensures { (name : List ℕ) (history : List DoorEntry) (entry : DoorEntry) → may_hold name (history ++ entry ∷ []) ≡ after_effect (effect_of name entry.act) (may_hold name history) }
{}

/// Where the store keeps what it acknowledged, an entry shows of a name something that the name may hold.
pub fn effects_are_honest()
    ensures { (name : List ℕ) (outcome : Option (List ℕ)) (history more : List DoorEntry) (entry : DoorEntry) → Honest (history ++ entry ∷ more) → effect_of name entry.act ≡ Shows outcome → IsTrue (may_be (may_hold name history) outcome) }
{}

/// An entry that was answered as a store may commits what its effect on the name of the record proves, and marks what its
/// effect on the name of the marker proves; and nothing else.
pub fn proven_by_effect()
    ensures committed { (c : Commit) (entry : DoorEntry) → IsTrue (is_answered entry.act) → IsTrue (is_among c (committed_by entry)) → (bytes : List ℕ) × (proven_by (effect_of (record_name c.id.uuid) entry.act) ≡ Some bytes) × IsTrue (is_record_of c (record { name = record_name c.id.uuid; bytes = bytes })) }
    ensures commits { (c : Commit) (bytes : List ℕ) (entry : DoorEntry) → proven_by (effect_of (record_name c.id.uuid) entry.act) ≡ Some bytes → IsTrue (is_record_of c (record { name = record_name c.id.uuid; bytes = bytes })) → IsTrue (is_among c (committed_by entry)) }
    ensures marked { (c : Commit) (entry : DoorEntry) → IsTrue (is_answered entry.act) → IsTrue (is_among c (marked_by entry)) → (bytes : List ℕ) × (proven_by (effect_of (marker_name c.id.uuid) entry.act) ≡ Some bytes) × IsTrue (is_among c (marks_in (record { name = marker_name c.id.uuid; bytes = bytes }))) }
    ensures marks { (c : Commit) (bytes : List ℕ) (entry : DoorEntry) → proven_by (effect_of (marker_name c.id.uuid) entry.act) ≡ Some bytes → IsTrue (is_among c (marks_in (record { name = marker_name c.id.uuid; bytes = bytes }))) → IsTrue (is_among c (marked_by entry)) }
{}
