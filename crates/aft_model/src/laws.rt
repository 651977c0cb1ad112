//! Laws of this crate's definitions, as calls that do nothing and promise them.

ghost use Rattle.std.specs.Prelude.{◌≡◌, ◌++◌, ◌==◌, ℕ, List, [], ◌∷◌, Some, is_some, IsTrue, IsFalse};
ghost use Rattle.std.specs.List.{list_any};
ghost use Rattle.aft_id.specs.declared.txn_id.TxnId.{TxnId};
ghost use Rattle.aft_records.specs.declared.stored.Commit.{Commit};
ghost use Rattle.aft_model.specs.declared.door.DoorEntry.{DoorEntry};
ghost use Rattle.aft_keeper.specs.Contents.{IsContents};
ghost use Rattle.aft_keeper.specs.declared.keeper.Pair.{Pair};
ghost use Rattle.aft_records.specs.Superseded.{Superseded};
ghost use Rattle.aft_model.specs.Claims.{forgotten, claim_place, holder, is_claim_of};
ghost use Rattle.aft_model.specs.Committed.{Committed, Marked, committed};
ghost use Rattle.aft_model.specs.Contents.{GoesAlong};
ghost use Rattle.aft_model.specs.DoorKnowledge.{is_open, knows_unused, knows_stored, knows_superseded, knows_marked, knows_record_gone, knows_versions_gone, knows_short, knows_short_of, knows_orphan};
ghost use Rattle.aft_model.specs.Membership.{Incarnation};
ghost use Rattle.aft_model.specs.Course.{KeepsCourse, DeletesNothing, puts_record};
ghost use Rattle.aft_model.specs.History.{at_place};
ghost use Rattle.aft_model.specs.Honest.{Honest, is_honest_about};
ghost use Rattle.aft_model.specs.LegalDoor.{Legal};
ghost use Rattle.aft_model.specs.Stages.{KeepsStages};

/// What a history has acknowledged or shown stays so, whatever is added, and a UUID that is forgotten stays
/// forgotten.
pub fn facts_grow()
    ensures committed { (c : Commit) (history more : List DoorEntry) → Committed c history → Committed c (history ++ more) }
    ensures marked { (c : Commit) (history more : List DoorEntry) → Marked c history → Marked c (history ++ more) }
    ensures superseded { (c : Commit) (history more : List DoorEntry) → Superseded c (committed history) → Superseded c (committed (history ++ more)) }
    ensures forgotten { (uuid : List ℕ) (history more : List DoorEntry) → IsTrue (forgotten uuid history) → IsTrue (forgotten uuid (history ++ more)) }
{}

/// The place of the claim by which a UUID is held is that of a claim of it, and stays while somebody holds the UUID
/// and nobody claims it anew.
pub fn claims_have_places()
    ensures of_a_claim { (uuid : List ℕ) (place : ℕ) (history : List DoorEntry) → claim_place uuid history ≡ Some place → (entry : DoorEntry) × (at_place place history ≡ Some entry) × IsTrue (is_claim_of uuid entry.act) }
    ensures stays { (uuid : List ℕ) (place : ℕ) (history more : List DoorEntry) → claim_place uuid history ≡ Some place → IsFalse (list_any (λ entry. is_claim_of uuid entry.act) more) → IsTrue (is_some (holder uuid (history ++ more))) → claim_place uuid (history ++ more) ≡ Some place }
{}

/// What the caller of each rule of the door must know stays true, whatever is added.
pub fn knowledge_stays()
    ensures opened { (history more : List DoorEntry) → IsTrue (is_open history) → IsTrue (is_open (history ++ more)) }
    ensures unused { (who : Incarnation) (uuid : List ℕ) (history more : List DoorEntry) → IsTrue (knows_unused who uuid history) → IsTrue (knows_unused who uuid (history ++ more)) }
    ensures stored { (who : Incarnation) (c : Commit) (history more : List DoorEntry) → IsTrue (knows_stored who c history) → IsTrue (knows_stored who c (history ++ more)) }
    ensures superseded { (c : Commit) (history more : List DoorEntry) → IsTrue (knows_superseded c history) → IsTrue (knows_superseded c (history ++ more)) }
    ensures marked { (uuid : List ℕ) (history more : List DoorEntry) → IsTrue (knows_marked uuid history) → IsTrue (knows_marked uuid (history ++ more)) }
    ensures record_gone { (id : TxnId) (history more : List DoorEntry) → IsTrue (knows_record_gone id history) → IsTrue (knows_record_gone id (history ++ more)) }
    ensures short { (who : Incarnation) (uuid : List ℕ) (history more : List DoorEntry) → IsTrue (knows_short who uuid history) → IsTrue (knows_short who uuid (history ++ more)) }
    ensures short_of { (who : Incarnation) (id : TxnId) (history more : List DoorEntry) → IsTrue (knows_short_of who id history) → IsTrue (knows_short_of who id (history ++ more)) }
    ensures orphan { (id : TxnId) (place : ℕ) (history more : List DoorEntry) → IsTrue (knows_orphan id place history) → IsTrue (knows_orphan id place (history ++ more)) }
    ensures versions_gone { (id : TxnId) (history more : List DoorEntry) → IsTrue (knows_versions_gone id history) → IsTrue (knows_versions_gone id (history ++ more)) }
{}

/// A store that shows only what the names that are called or listed may hold shows of each name what it may hold.
pub fn honest_everywhere()
    ensures { (name : List ℕ) (history : List DoorEntry) → Honest history → IsTrue (is_honest_about name history) }
{}

/// A history that some contents of a store go along with is honest, and so is each that begins it: what goes along with a
/// history goes along with its parts one after the other.
pub fn contents_tell()
    ensures honest { (contents : List Pair) (history : List DoorEntry) (now : List Pair) → IsContents contents → GoesAlong contents history now → Honest history }
    ensures joined { (contents between now : List Pair) (history more : List DoorEntry) → GoesAlong contents history between → GoesAlong between more now → GoesAlong contents (history ++ more) now }
    ensures parted { (contents now : List Pair) (history more : List DoorEntry) → GoesAlong contents (history ++ more) now → (between : List Pair) × (GoesAlong contents history between) × (GoesAlong between more now) }
{}

/// In a history without deletes, over a store that keeps what it acknowledged, an id commits once, if each
/// record that a node put was put when it was the node's turn: since a claim that it had not released it had found
/// no record, and it had put none since. The office puts a record again, in the second format, and so it still is
/// that of the one commit; a node puts no record of what is committed.
pub fn id_commits_once()
    ensures one_commit { (c d : Commit) (history : List DoorEntry) → Legal history → Honest history → KeepsCourse history → DeletesNothing history → Committed c history → Committed d history → c.id.uuid ≡ d.id.uuid → c ≡ d }
    ensures no_more_puts { (c : Commit) (who : Incarnation) (history : List DoorEntry) (entry : DoorEntry) → IsFalse (who.node == 0) → Legal (history ++ entry ∷ []) → Honest (history ++ entry ∷ []) → KeepsCourse (history ++ entry ∷ []) → DeletesNothing history → Committed c history → IsFalse (puts_record who c.id.uuid entry.act) }
{}

/// A history that keeps the stages of the lines that commit keeps their course, as the law above takes it.
pub fn stages_keep_course()
    ensures { (history : List DoorEntry) → KeepsStages history → KeepsCourse history }
{}
