//! Laws of one UUID, as calls that do nothing and promise them.

ghost use Rattle.std.specs.Prelude.{◌≡◌, ◌++◌, ◌∷◌, ◌⊎◌, ◌==◌, ℕ, List, [], Option, IsFalse, IsTrue};
ghost use Rattle.aft_id.specs.declared.txn_id.TxnId.{TxnId};
ghost use Rattle.aft_keeper.specs.declared.keeper.KeeperAnswer.{KeeperAnswer};
ghost use Rattle.aft_keeper.specs.declared.keeper.KeeperCall.TheVariants.{Put};
ghost use Rattle.aft_records.specs.declared.stored.Commit.{Commit};
ghost use Rattle.aft_records.specs.declared.stored.Marker.{Marker};
ghost use Rattle.aft_records.specs.Superseded.{is_superseded};
ghost use Rattle.aft_model.specs.declared.door.DoorAct.TheVariants.{Call};
ghost use Rattle.aft_model.specs.declared.door.DoorEntry.{DoorEntry};
ghost use Rattle.aft_model.specs.Bytes.{is_uuid};
ghost use Rattle.aft_model.specs.Claims.{forgotten};
ghost use Rattle.aft_model.specs.Committed.{Committed, committed};
ghost use Rattle.aft_model.specs.DoorKnowledge.{is_delete, is_open};
ghost use Rattle.aft_model.specs.DoorRules.{may_delete_orphan};
ghost use Rattle.aft_model.specs.Honest.{Honest};
ghost use Rattle.aft_model.specs.LegalDoor.{Legal};
ghost use Rattle.aft_model.specs.Looks.{IsCleared, look};
ghost use Rattle.aft_model.specs.MayHold.{OneOf, may_hold};
ghost use Rattle.aft_model.specs.Readings.{marker_name, record_name, records_in};
ghost use Rattle.aft_model.specs.Whole.{Whole};
ghost use Rattle.aft_model.proofs.Histories.{In};
ghost use Rattle.law_effects.specs.Effects.{Shows, effect_of};
ghost use Rattle.law_kept.specs.Kept.{CommittedId, Comes, Kept, Lawful, is_claiming, is_membership, is_put, is_sight, is_write};
ghost use Rattle.law_kept.specs.Outcomes.{NeverAbsent, ProvenOf, Uncommitted};

/// What is kept of a UUID is kept behind each get and each scan, by whomever.
pub fn kept_behind_shows()
    ensures { (uuid : List ℕ) (history : List DoorEntry) (entry : DoorEntry) → Comes history entry → Kept uuid history → IsTrue (is_sight entry.act) → Kept uuid (history ++ entry ∷ []) }
{}

/// So it is behind each claim and each release, of this UUID and of others.
pub fn kept_behind_claims()
    ensures { (uuid : List ℕ) (history : List DoorEntry) (entry : DoorEntry) → Comes history entry → Kept uuid history → IsTrue (is_claiming entry.act) → Kept uuid (history ++ entry ∷ []) }
{}

/// So it is where an incarnation comes up or is fenced, and behind each give-up.
pub fn kept_behind_members()
    ensures { (uuid : List ℕ) (history : List DoorEntry) (entry : DoorEntry) → Comes history entry → Kept uuid history → IsTrue (is_membership entry.act) → Kept uuid (history ++ entry ∷ []) }
{}

/// So it is behind each put: of a version, of a record or of a marker, of this UUID and of others, whatever was answered.
pub fn kept_behind_puts()
    ensures { (uuid : List ℕ) (history : List DoorEntry) (entry : DoorEntry) → IsTrue (is_uuid uuid) → Comes history entry → Kept uuid history → IsTrue (is_put entry.act) → Kept uuid (history ++ entry ∷ []) }
{}

/// So it is behind each delete: of a record, of a version by either rule, or of a marker, whatever was answered.
pub fn kept_behind_deletes()
    ensures { (uuid : List ℕ) (history : List DoorEntry) (entry : DoorEntry) → IsTrue (is_uuid uuid) → Comes history entry → Kept uuid history → IsTrue (is_delete entry.act) → Kept uuid (history ++ entry ∷ []) }
{}

/// What is kept of a UUID at the open door is kept behind all entries that follow.
pub fn always_kept()
    ensures { (uuid : List ℕ) (history more : List DoorEntry) → IsTrue (is_uuid uuid) → IsTrue (is_open history) → Lawful (history ++ more) → Kept uuid history → Kept uuid (history ++ more) }
{}

/// What the rule on orphan versions asks the office to know is that its look has come to its end.
pub fn look_is_knowledge()
    ensures { (id : TxnId) (history : List DoorEntry) → IsTrue (may_delete_orphan history id) → look id history ≡ IsCleared }
{}

/// Where a UUID is kept, it has one commit.
pub fn commits_once_kept()
    ensures { (c d : Commit) (history : List DoorEntry) → Kept c.id.uuid history → Committed c history → Committed d history → c.id.uuid ≡ d.id.uuid → c ≡ d }
{}

/// Where a UUID is kept, its commit is whole until it is superseded.
pub fn whole_while_kept()
    ensures { (c : Commit) (history : List DoorEntry) → Kept c.id.uuid history → Committed c history → IsFalse (is_superseded c (committed history)) → Whole c history }
{}

/// Where a UUID that has a commit is kept, its record or its marker is surely there until it is forgotten.
pub fn closed_while_kept()
    ensures { (c : Commit) (history : List DoorEntry) → Kept c.id.uuid history → Committed c history → IsFalse (forgotten c.id.uuid history) → NeverAbsent (record_name c.id.uuid) history ⊎ NeverAbsent (marker_name c.id.uuid) history }
{}

/// Where a UUID is kept, the rule on orphan versions lets no version of a committed id of it be deleted.
pub fn orphans_while_kept()
    ensures { (id : TxnId) (history : List DoorEntry) → Kept id.uuid history → IsTrue (may_delete_orphan history id) → CommittedId id history → ⊥ }
{}

/// Till the door is open the office only gets and scans.
pub fn reads_till_open()
    ensures { (history : List DoorEntry) (entry : DoorEntry) → Legal history → IsFalse (is_open history) → In entry history → IsTrue (is_sight entry.act) }
{}

/// Where nothing was written, a name of which something was shown holds that alone.
pub fn holds_what_was_shown()
    ensures { (name : List ℕ) (history : List DoorEntry) (entry : DoorEntry) (outcome : Option (List ℕ)) → Honest history → ((e : DoorEntry) → In e history → IsFalse (is_write e.act)) → In entry history → effect_of name entry.act ≡ Shows outcome → may_hold name history ≡ OneOf (outcome ∷ []) }
{}

/// Where a UUID is kept, a node puts no record of it once it is used: none of its commits is committed then, and no marker
/// of it was acknowledged or shown.
pub fn used_no_more_while_kept()
    ensures { (c : Commit) (history : List DoorEntry) (entry : DoorEntry) (node inc : ℕ) (name bytes : List ℕ) (answer : KeeperAnswer) → Comes history entry → Kept c.id.uuid history → entry.act ≡ Call node inc (Put name bytes) answer → IsFalse (node == 0) → In c (records_in (record { name = name; bytes = bytes })) → Uncommitted c.id.uuid history × ((m : Marker) → ProvenOf c.id.uuid history m → ⊥) }
{}
