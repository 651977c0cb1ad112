//! Laws of whole histories, as calls that do nothing and promise them.

ghost use Rattle.std.specs.Prelude.{◌≡◌, ◌++◌, ◌∷◌, ◌⊎◌, ℕ, List, [], IsFalse, IsTrue, Option, Some, not, take};
ghost use Rattle.std.specs.List.{flat_map, list_all};
ghost use Rattle.aft_keeper.specs.declared.keeper.KeeperAnswer.TheVariants.{Found};
ghost use Rattle.aft_keeper.specs.declared.keeper.KeeperCall.TheVariants.{Get};
ghost use Rattle.aft_records.specs.declared.stored.Commit.{Commit};
ghost use Rattle.aft_records.specs.declared.stored.Marker.TheVariants.{Full};
ghost use Rattle.aft_records.specs.Superseded.{Superseded};
ghost use Rattle.aft_model.specs.declared.door.DoorAct.TheVariants.{Call};
ghost use Rattle.aft_model.specs.declared.door.DoorEntry.{DoorEntry};
ghost use Rattle.aft_model.specs.declared.node.NodeEntry.{NodeEntry};
ghost use Rattle.aft_model.specs.declared.trace.Trace.{Trace};
ghost use Rattle.aft_model.specs.Bytes.{is_uuid};
ghost use Rattle.aft_model.specs.Claims.{forgotten, holds};
ghost use Rattle.aft_model.specs.Committed.{Committed, committed};
ghost use Rattle.aft_model.specs.Course.{DeletesNothing};
ghost use Rattle.aft_model.specs.DoorKnowledge.{is_open, knows_marked};
ghost use Rattle.aft_model.specs.Evidence.{shown_pairs, shows_absent};
ghost use Rattle.aft_model.specs.History.{each_after};
ghost use Rattle.aft_model.specs.LegalNode.{LegalNode};
ghost use Rattle.aft_model.specs.Membership.{incarnation};
ghost use Rattle.aft_model.specs.NodeSights.{is_seen_node};
ghost use Rattle.aft_model.specs.Office.{before_open};
ghost use Rattle.aft_model.specs.Readings.{is_record_of, marker_name, markers_in, record_name, records_in, version_name};
ghost use Rattle.aft_model.specs.Stages.{HasPut, IsClear, stage};
ghost use Rattle.aft_model.specs.Whole.{Whole};
ghost use Rattle.aft_model.proofs.Histories.{In};
ghost use Rattle.aft_lines.specs.Headline.{all_whole, commits_once, has_one_each, is_acknowledged_in, is_used, record_put_by, value_of, whole_until_superseded};
ghost use Rattle.aft_lines.specs.LegalTrace.{are_legal_nodes};
ghost use Rattle.law_effects.specs.Effects.{Shows, effect_of};
ghost use Rattle.law_kept.specs.Kept.{Kept, Lawful};
ghost use Rattle.law_kept.specs.Tried.{Tried, markers_put};
ghost use Rattle.law_whole.specs.Marks.{MarkedAt};
ghost use Rattle.law_whole.specs.Readable.{is_readable};
ghost use Rattle.law_whole.specs.Values.{VersionIs};

/// The beginnings of a lawful history are lawful.
pub fn beginnings_are_lawful()
    ensures { (history more : List DoorEntry) → Lawful (history ++ more) → Lawful history }
{}

/// At each place of a lawful history from where the door was opened, each UUID is kept.
pub fn kept_throughout()
    ensures { (uuid : List ℕ) (history : List DoorEntry) → IsTrue (is_uuid uuid) → IsTrue (is_open history) → Lawful history → Kept uuid history }
{}

/// In a lawful history each UUID has one commit, also where the door isn't open yet.
pub fn committed_once_throughout()
    ensures { (history : List DoorEntry) → Lawful history → IsTrue (has_one_each (committed history)) }
{}

/// At each place of a lawful history a node puts no record of a UUID that is used before it: that is committed, or that stands
/// in a marker which was shown.
pub fn used_no_more_throughout()
    ensures { (history : List DoorEntry) → Lawful history → IsTrue (each_after (λ before entry. list_all (λ c. not (is_used c.id.uuid before)) (record_put_by entry.act)) [] history) }
{}

/// Behind each entry of a lawful history, once the door is open, each commit that isn't superseded is whole.
pub fn whole_throughout()
    ensures { (history : List DoorEntry) → Lawful history → IsTrue (each_after (λ before entry. all_whole (before ++ entry ∷ [])) [] history) }
{}

/// An end of a legal node that answers an id as committed has seen its record at the door.
pub fn acknowledged_throughout()
    ensures { (node capacity : ℕ) (door : List DoorEntry) (history : List NodeEntry) → LegalNode node capacity history → IsTrue (is_seen_node node door history) → IsTrue (each_after (λ before entry. is_acknowledged_in (take entry.front door) entry.act entry.answer) [] history) }
{}

/// So a trace whose door's history is lawful, and whose nodes are legal and have seen what they ask, keeps the promise that an
/// id commits once, and that commits are whole until superseded.
pub fn promised_of_the_door()
    ensures once { (trace : Trace) → Lawful trace.door → IsTrue (commits_once trace) }
    ensures whole { (first capacity : ℕ) (trace : Trace) → Lawful trace.door → IsTrue (are_legal_nodes first capacity trace.door trace.nodes) → IsTrue (whole_until_superseded trace) }
{}

/// Once the door of a lawful history is open, each pair that is shown of the records or of the markers has a reading.
pub fn readable_throughout()
    ensures { (history : List DoorEntry) → Lawful history → IsTrue (is_readable history) }
{}

/// A committed commit whose UUID isn't marked is whole, superseded or not; and where the marker of a UUID that isn't forgotten is
/// shown absent, the UUID isn't marked, and stays so while no full marker of it is put and it isn't forgotten. So who was shown a
/// record, and no marker of its UUID, finds each of its versions.
pub fn unmarked_is_whole()
    ensures whole { (c : Commit) (history : List DoorEntry) → Lawful history → IsTrue (is_open history) → Committed c history → IsFalse (knows_marked c.id.uuid history) → Whole c history }
    ensures absent { (uuid : List ℕ) (history : List DoorEntry) (entry : DoorEntry) → IsTrue (is_uuid uuid) → Lawful (history ++ entry ∷ []) → IsTrue (is_open history) → IsFalse (forgotten uuid history) → IsTrue (shows_absent (marker_name uuid) entry) → IsFalse (knows_marked uuid history) }
    ensures since { (uuid : List ℕ) (history : List DoorEntry) (entry : DoorEntry) (more : List DoorEntry) → IsTrue (is_uuid uuid) → Lawful (history ++ entry ∷ more) → IsTrue (is_open history) → IsTrue (shows_absent (marker_name uuid) entry) → IsFalse (forgotten uuid (history ++ entry ∷ more)) → ((e : DoorEntry) → In e more → (c : Commit) → In (Full c) (markers_put e.act) → c.id.uuid ≡ uuid → ⊥) → IsFalse (knows_marked uuid (history ++ entry ∷ more)) }
{}

/// Where nothing was deleted, the record of a committed commit isn't shown absent at the open door.
pub fn undeleted_is_found()
    ensures { (c : Commit) (history : List DoorEntry) (entry : DoorEntry) → Lawful (history ++ entry ∷ []) → IsTrue (is_open history) → Committed c history → DeletesNothing history → IsFalse (shows_absent (record_name c.id.uuid) entry) }
{}

/// Who holds a UUID and gets its record finds none where it is clear, and else none or that of the commit which it put.
pub fn settled_rightly()
    ensures clear { (uuid : List ℕ) (history : List DoorEntry) (entry : DoorEntry) (node inc : ℕ) (names : List (List ℕ)) (bytes : List ℕ) → IsTrue (is_uuid uuid) → Lawful (history ++ entry ∷ []) → IsTrue (is_open history) → IsTrue (holds (incarnation node inc) uuid history) → stage (incarnation node inc) uuid history ≡ IsClear names → entry.act ≡ Call node inc (Get (record_name uuid)) (Found bytes) → ⊥ }
    ensures put { (uuid : List ℕ) (history : List DoorEntry) (entry : DoorEntry) (node inc : ℕ) (d : Commit) (bytes : List ℕ) → IsTrue (is_uuid uuid) → Lawful (history ++ entry ∷ []) → IsTrue (is_open history) → IsTrue (holds (incarnation node inc) uuid history) → stage (incarnation node inc) uuid history ≡ HasPut d → entry.act ≡ Call node inc (Get (record_name uuid)) (Found bytes) → IsTrue (is_record_of d (record { name = record_name uuid; bytes = bytes })) × ((c : Commit) → In c (records_in (record { name = record_name uuid; bytes = bytes })) → c ≡ d) }
{}

/// Once the door is open, the name of each version of a committed commit whose UUID isn't marked surely holds one text, which is
/// that version with the value that it has by the history, and that is what is shown of it; and the UUID isn't marked where the
/// commit's full marker was never tried. The value of a version of a committed commit stays, whatever follows.
pub fn values_are_held()
    ensures there { (c : Commit) (key : List ℕ) (history : List DoorEntry) → Lawful history → IsTrue (is_open history) → Committed c history → IsFalse (knows_marked c.id.uuid history) → In key c.keys → (value : List ℕ) × VersionIs key c.id value history }
    ensures untried { (c : Commit) (history : List DoorEntry) → Lawful history → IsTrue (is_open history) → Committed c history → (Tried history (Full c) → ⊥) → IsFalse (knows_marked c.id.uuid history) }
    ensures shown { (c : Commit) (key : List ℕ) (history : List DoorEntry) (entry : DoorEntry) (outcome : Option (List ℕ)) → Lawful (history ++ entry ∷ []) → IsTrue (is_open history) → Committed c history → IsFalse (knows_marked c.id.uuid history) → In key c.keys → effect_of (version_name key c.id) entry.act ≡ Shows outcome → (value : List ℕ) × (is : VersionIs key c.id value history) × (outcome ≡ Some is.bytes) }
    ensures stay { (c : Commit) (key : List ℕ) (history more : List DoorEntry) → Lawful (history ++ more) → IsTrue (is_open history) → Committed c history → In key c.keys → value_of key c.id (history ++ more) ≡ value_of key c.id history }
{}

/// A full marker that was tried, put or shown before the door was open, is of a commit that is superseded. Where it was put, the
/// commit was superseded then, and each incarnation of a node that was up had given its id up.
pub fn tried_was_given_up()
    ensures superseded { (c : Commit) (history : List DoorEntry) → IsTrue (is_uuid c.id.uuid) → Lawful history → IsTrue (is_open history) → Tried history (Full c) → Superseded c (committed history) }
    ensures put { (c : Commit) (history : List DoorEntry) → Lawful history → Tried history (Full c) → In (Full c) (flat_map markers_in (flat_map (λ entry. shown_pairs entry) (before_open history))) ⊎ MarkedAt c history }
{}
