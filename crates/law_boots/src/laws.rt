//! Laws of nodes beside the door, as calls that do nothing and promise them.

ghost use Rattle.std.specs.Prelude.{◌≡◌, ◌++◌, ◌∷◌, ◌⊎◌, ℕ, List, [], IsFalse, IsTrue, take, ◌==◌};
ghost use Rattle.aft_records.specs.declared.stored.Commit.{Commit};
ghost use Rattle.aft_id.specs.declared.txn_id.TxnId.{TxnId};
ghost use Rattle.aft_records.specs.Commits.{has_id, is_among};
ghost use Rattle.aft_model.specs.declared.door.DoorEntry.{DoorEntry};
ghost use Rattle.aft_model.specs.declared.caller.Attempt.{Attempt};
ghost use Rattle.aft_model.specs.declared.node.NodeEntry.{NodeEntry};
ghost use Rattle.aft_model.specs.declared.trace.Trace.{Trace};
ghost use Rattle.aft_model.specs.AtomicReads.{Atomic};
ghost use Rattle.aft_model.specs.Attempts.{reads};
ghost use Rattle.aft_model.specs.Bytes.{HasBytes, is_uuid};
ghost use Rattle.aft_model.specs.Committed.{Committed, committed};
ghost use Rattle.aft_model.specs.Known.{known};
ghost use Rattle.aft_model.specs.declared.node.NodeAct.TheVariants.{Boot, GiveUp};
ghost use Rattle.aft_model.specs.Claims.{given_up};
ghost use Rattle.aft_model.specs.Membership.{incarnation};
ghost use Rattle.aft_model.specs.NodeState.{node_state, part, serves};
ghost use Rattle.aft_lines.specs.Headline.{names_blockers, reads_atomic_sets};
ghost use Rattle.aft_lines.specs.Holding.{FetchesStayOpen};
ghost use Rattle.aft_lines.specs.LegalTrace.{are_legal_nodes};
ghost use Rattle.law_kept.specs.Kept.{Lawful};
ghost use Rattle.law_kept.specs.Tried.{Tried};
ghost use Rattle.law_boots.specs.Boots.{SeesGreatest};
ghost use Rattle.aft_records.specs.Superseded.{Superseded};
ghost use Rattle.aft_records.specs.declared.stored.Marker.TheVariants.{Full};
ghost use Rattle.law_reads.specs.Brings.{are_real, brings};
ghost use Rattle.law_boots.specs.Beside.{Beside, backs_give_ups};
ghost use Rattle.law_boots.specs.Gets.{answers_own, reads_recorded_ids, repeats_versions};

/// What an entry of a node brings, and what the node knows before it, is committed in what the entry has seen at the door.
pub fn known_is_committed()
    ensures brought { (node capacity : ℕ) (c : Commit) (door : List DoorEntry) (history : List NodeEntry) (entry : NodeEntry) → Beside node capacity door (history ++ entry ∷ []) → IsTrue (is_among c (brings entry.act)) → Committed c (take entry.front door) }
    ensures known { (node capacity : ℕ) (c : Commit) (door : List DoorEntry) (history : List NodeEntry) (entry : NodeEntry) → Beside node capacity door (history ++ entry ∷ []) → IsTrue (is_among c (known history)) → Committed c (take entry.front door) }
{}

/// So beside a lawful history of the door two commits of one UUID that a node knows, or that are committed, are equal. And no
/// node is told of a commit of the id of absent keys.
pub fn ids_have_one_commit()
    ensures one { (node capacity : ℕ) (c d : Commit) (door : List DoorEntry) (history : List NodeEntry) → Lawful door → Beside node capacity door history → IsTrue (is_among c (known history)) ⊎ Committed c door → IsTrue (is_among d (known history)) ⊎ Committed d door → c.id.uuid ≡ d.id.uuid → c ≡ d }
    ensures real { (node capacity : ℕ) (door : List DoorEntry) (history : List NodeEntry) → HasBytes door → Beside node capacity door history → IsTrue (are_real history) }
{}

/// So what each attempt of a service has read, whether it is there or gone, is atomic beside all that is committed at the door.
pub fn reads_are_atomic()
    ensures each { (node capacity : ℕ) (a : Attempt) (door : List DoorEntry) (history : List NodeEntry) → Lawful door → Beside node capacity door history → Atomic (reads a (part history)) (committed door) }
    ensures nodes { (first capacity : ℕ) (trace : Trace) → Lawful trace.door → IsTrue (are_legal_nodes first capacity trace.door trace.nodes) → IsTrue (reads_atomic_sets trace) }
{}

/// Legal nodes read at ids of commits that were recorded before, or at that of absent keys.
pub fn ids_were_recorded()
    ensures { (first capacity : ℕ) (trace : Trace) → IsTrue (are_legal_nodes first capacity trace.door trace.nodes) → IsTrue (reads_recorded_ids trace) }
{}

/// An answer of theirs that no version fits names, for each known version of the key, a conflicting earlier read.
pub fn blockers_are_named()
    ensures { (first capacity : ℕ) (trace : Trace) → HasBytes trace.door → IsTrue (are_legal_nodes first capacity trace.door trace.nodes) → IsTrue (names_blockers trace) }
{}

/// A get that follows an own put answers it.
pub fn own_puts_are_answered()
    ensures { (first capacity : ℕ) (trace : Trace) → IsTrue (are_legal_nodes first capacity trace.door trace.nodes) → IsTrue (answers_own trace) }
{}

/// Where each fetch that ends stood open since its line's pick, gets of one key with no own put between are answered of one
/// version, or all that the key is absent.
pub fn gets_repeat_versions()
    ensures { (first capacity : ℕ) (trace : Trace) → HasBytes trace.door → FetchesStayOpen trace → IsTrue (are_legal_nodes first capacity trace.door trace.nodes) → IsTrue (repeats_versions trace) }
{}

/// What a node has given up, beside a lawful history of the door, isn't known again while its incarnation serves.
pub fn given_up_is_never_known()
    ensures { (node capacity inc : ℕ) (id : TxnId) (door : List DoorEntry) (history more : List NodeEntry) (entry : NodeEntry) → Lawful door → Beside node capacity door ((history ++ entry ∷ []) ++ more) → entry.act ≡ GiveUp id → IsTrue (serves inc (node_state history)) → IsTrue (serves inc (node_state ((history ++ entry ∷ []) ++ more))) → IsFalse (has_id id (known ((history ++ entry ∷ []) ++ more))) }
{}

/// Where each give-up of the node at the door has one of its own in the node's history, the incarnation that boots has given
/// nothing up by what the boot has seen.
pub fn boots_gave_nothing_up()
    ensures { (node capacity inc : ℕ) (id : TxnId) (commits : List Commit) (door : List DoorEntry) (history more : List NodeEntry) (entry : NodeEntry) → Beside node capacity door ((history ++ entry ∷ []) ++ more) → IsTrue (backs_give_ups node ((history ++ entry ∷ []) ++ more) door) → entry.act ≡ Boot inc commits → IsFalse (given_up (incarnation node inc) id (take entry.front door)) }
{}

/// A boot of a node sees of each key the greatest commit that was committed before its incarnation came up: those that weren't
/// superseded then are among its commits.
pub fn boots_see_the_greatest()
    ensures { (node capacity inc : ℕ) (commits : List Commit) (door : List DoorEntry) (history more : List NodeEntry) (entry : NodeEntry) → Lawful door → Beside node capacity door ((history ++ entry ∷ []) ++ more) → IsTrue (backs_give_ups node ((history ++ entry ∷ []) ++ more) door) → IsFalse (node == 0) → entry.act ≡ Boot inc commits → SeesGreatest (incarnation node inc) commits (take entry.front door) }
{}

/// So what was superseded before the incarnation came up, and each commit whose full marker was tried before that, is never known
/// while it serves.
pub fn retired_before_is_never_known()
    ensures superseded { (node capacity inc : ℕ) (t : Commit) (commits : List Commit) (door : List DoorEntry) (history more : List NodeEntry) (entry : NodeEntry) → Lawful door → Beside node capacity door ((history ++ entry ∷ []) ++ more) → entry.act ≡ Boot inc commits → (sees : SeesGreatest (incarnation node inc) commits (take entry.front door)) → Superseded t (committed sees.before) → IsTrue (serves inc (node_state ((history ++ entry ∷ []) ++ more))) → IsFalse (is_among t (known ((history ++ entry ∷ []) ++ more))) }
    ensures tried { (node capacity inc : ℕ) (t : Commit) (commits : List Commit) (door : List DoorEntry) (history more : List NodeEntry) (entry : NodeEntry) → Lawful door → Beside node capacity door ((history ++ entry ∷ []) ++ more) → IsTrue (backs_give_ups node ((history ++ entry ∷ []) ++ more) door) → IsFalse (node == 0) → entry.act ≡ Boot inc commits → (sees : SeesGreatest (incarnation node inc) commits (take entry.front door)) → IsTrue (is_uuid t.id.uuid) → Tried sees.before (Full t) → IsTrue (serves inc (node_state ((history ++ entry ∷ []) ++ more))) → IsFalse (is_among t (known ((history ++ entry ∷ []) ++ more))) }
{}
