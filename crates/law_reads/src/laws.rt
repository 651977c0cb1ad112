//! Laws of reads, as calls that do nothing and promise them.

ghost use Rattle.std.specs.Prelude.{◌≡◌, ◌++◌, ◌∷◌, ◌&&◌, ℕ, List, [], Some, IsTrue, IsFalse, map};
ghost use Rattle.std.specs.List.{list_all};
ghost use Rattle.aft_id.specs.TxnId.{id_lt, same_id, zero_id};
ghost use Rattle.aft_id.specs.declared.txn_id.TxnId.{TxnId};
ghost use Rattle.aft_records.specs.Commits.{first_known, has_id, is_among, versions};
ghost use Rattle.aft_records.specs.Superseded.{Superseded};
ghost use Rattle.aft_records.specs.declared.stored.Commit.{Commit};
ghost use Rattle.aft_model.specs.declared.caller.Attempt.{Attempt};
ghost use Rattle.aft_model.specs.declared.choice.Blocked.{Blocked};
ghost use Rattle.aft_model.specs.declared.choice.Choice.TheVariants.{Absent, NoneFits, Version};
ghost use Rattle.aft_model.specs.declared.node.NodeAct.TheVariants.{Boot, GiveUp};
ghost use Rattle.aft_model.specs.declared.node.NodeEntry.{NodeEntry};
ghost use Rattle.aft_model.specs.declared.read_set.ReadPair.{ReadPair};
ghost use Rattle.aft_model.specs.Attempts.{attempt_state, is_gone, is_read, reads};
ghost use Rattle.aft_model.specs.AtomicReads.{Atomic};
ghost use Rattle.aft_model.specs.Choice.{choice, wrote_at};
ghost use Rattle.aft_model.specs.Cache.{cache, cache_after};
ghost use Rattle.aft_model.specs.Known.{known, known_after, unannounced, unannounced_after};
ghost use Rattle.aft_model.specs.LegalNode.{LegalNode};
ghost use Rattle.aft_model.specs.NodeState.{node_state, part, serves};
ghost use Rattle.aft_model.specs.ReadSet.{HasEachKeyOnce, read_at};
ghost use Rattle.law_reads.specs.Brings.{are_real};

/// A key that was read at the id of a known commit which wrote it, and not as absent, is chosen at that id again, whatever
/// other commits are known by now.
pub fn choice_repeats()
    ensures { (key : List ℕ) (id : TxnId) (reads : List ReadPair) (known : List Commit) → Atomic reads known → IsTrue (is_read (record { key = key; id = id }) reads) → IsTrue (wrote_at key id known) → IsFalse (is_read (record { key = key; id = zero_id }) reads) → choice key reads known ≡ Version id }
{}

/// In a service to which no commit of the zero id is brought, an attempt reads each key at one id. While it is there, the
/// commit of each id but the zero id that it has read is known and wrote the key, and what it has read is atomic beside
/// all that is known.
pub fn keys_are_read_once()
    ensures once { (node capacity inc : ℕ) (a : Attempt) (history : List NodeEntry) → LegalNode node capacity history → IsTrue (are_real history) → IsTrue (serves inc (node_state history)) → HasEachKeyOnce (reads a (part history)) }
    ensures written { (node capacity inc : ℕ) (a : Attempt) (key : List ℕ) (id : TxnId) (history : List NodeEntry) → LegalNode node capacity history → IsTrue (are_real history) → IsTrue (serves inc (node_state history)) → IsFalse (is_gone (attempt_state a (part history))) → IsTrue (is_read (record { key = key; id = id }) (reads a (part history))) → IsFalse (same_id id zero_id) → IsTrue (wrote_at key id (known history)) }
    ensures atomic { (node capacity inc : ℕ) (a : Attempt) (history : List NodeEntry) → LegalNode node capacity history → IsTrue (are_real history) → IsTrue (serves inc (node_state history)) → IsFalse (is_gone (attempt_state a (part history))) → Atomic (reads a (part history)) (known history) }
    ensures unused { (node capacity inc : ℕ) (history : List NodeEntry) → LegalNode node capacity history → IsTrue (are_real history) → IsTrue (serves inc (node_state history)) → IsFalse (has_id zero_id (known history)) }
{}

/// In such a service an attempt that is there is given the id at which it has read a key again, and what is chosen for it
/// is no other id.
pub fn gets_repeat()
    ensures again { (node capacity inc : ℕ) (a : Attempt) (key : List ℕ) (id : TxnId) (history : List NodeEntry) → LegalNode node capacity history → IsTrue (are_real history) → IsTrue (serves inc (node_state history)) → IsFalse (is_gone (attempt_state a (part history))) → read_at key (reads a (part history)) ≡ Some id → IsFalse (same_id id zero_id) → choice key (reads a (part history)) (known history) ≡ Version id }
    ensures version { (node capacity inc : ℕ) (a : Attempt) (key : List ℕ) (id read : TxnId) (history : List NodeEntry) → LegalNode node capacity history → IsTrue (are_real history) → IsTrue (serves inc (node_state history)) → IsFalse (is_gone (attempt_state a (part history))) → choice key (reads a (part history)) (known history) ≡ Version id → read_at key (reads a (part history)) ≡ Some read → read ≡ id }
    ensures absent { (node capacity inc : ℕ) (a : Attempt) (key : List ℕ) (read : TxnId) (history : List NodeEntry) → LegalNode node capacity history → IsTrue (are_real history) → IsTrue (serves inc (node_state history)) → IsFalse (is_gone (attempt_state a (part history))) → choice key (reads a (part history)) (known history) ≡ Absent → read_at key (reads a (part history)) ≡ Some read → read ≡ zero_id }
{}

/// In such a service a get that picks nothing names just the known versions of the key, in their order, and of each a key
/// that its commit wrote and that the attempt has read at a lower id.
pub fn blockers_are_named()
    ensures versions { (node capacity inc : ℕ) (a : Attempt) (key : List ℕ) (blocked : List Blocked) (history : List NodeEntry) → LegalNode node capacity history → IsTrue (are_real history) → IsTrue (serves inc (node_state history)) → IsFalse (is_gone (attempt_state a (part history))) → choice key (reads a (part history)) (known history) ≡ NoneFits blocked → map (λ b. b.id) blocked ≡ versions key (known history) }
    ensures blocking { (node capacity inc : ℕ) (a : Attempt) (key : List ℕ) (blocked : List Blocked) (history : List NodeEntry) → LegalNode node capacity history → IsTrue (are_real history) → IsTrue (serves inc (node_state history)) → IsFalse (is_gone (attempt_state a (part history))) → choice key (reads a (part history)) (known history) ≡ NoneFits blocked → IsTrue (list_all (λ b. wrote_at b.key b.id (known history) && id_lt b.read b.id && is_read (record { key = b.key; id = b.read }) (reads a (part history))) blocked) }
{}

/// What an entry of a service makes of what the node knows, keeps and has to announce.
pub fn known_follows()
    ensures known { (node capacity inc : ℕ) (history : List NodeEntry) (entry : NodeEntry) → LegalNode node capacity (history ++ entry ∷ []) → IsTrue (serves inc (node_state history)) → IsTrue (serves inc (node_state (history ++ entry ∷ []))) → known (history ++ entry ∷ []) ≡ known_after (known history) entry.act }
    ensures kept { (node capacity inc : ℕ) (history : List NodeEntry) (entry : NodeEntry) → LegalNode node capacity (history ++ entry ∷ []) → IsTrue (serves inc (node_state history)) → IsTrue (serves inc (node_state (history ++ entry ∷ []))) → (values : ℕ) → cache values (part (history ++ entry ∷ [])) ≡ cache_after values (cache values (part history)) entry.act entry.answer }
    ensures unannounced { (node capacity inc : ℕ) (history : List NodeEntry) (entry : NodeEntry) → LegalNode node capacity (history ++ entry ∷ []) → IsTrue (serves inc (node_state history)) → IsTrue (serves inc (node_state (history ++ entry ∷ []))) → unannounced (part (history ++ entry ∷ [])) ≡ unannounced_after (unannounced (part history)) entry.act }
{}

/// What the commits that a boot was shown supersede is never known while its incarnation serves, if no two of them have one
/// id: it isn't among those known at first, and these supersede it.
pub fn left_out_is_missed()
    ensures first { (history : List NodeEntry) (entry : NodeEntry) (inc : ℕ) (commits : List Commit) → entry.act ≡ Boot inc commits → known (history ++ entry ∷ []) ≡ first_known commits }
    ensures unknown { (t : Commit) (commits : List Commit) → Superseded t commits → IsFalse (is_among t (first_known commits)) }
    ensures superseded { (t : Commit) (commits : List Commit) → ((c d : Commit) → IsTrue (is_among c commits) → IsTrue (is_among d commits) → c.id ≡ d.id → c ≡ d) → Superseded t commits → Superseded t (first_known commits) }
    ensures missed { (node capacity inc : ℕ) (t : Commit) (commits : List Commit) (history more : List NodeEntry) (entry : NodeEntry) → LegalNode node capacity ((history ++ entry ∷ []) ++ more) → entry.act ≡ Boot inc commits → ((c d : Commit) → IsTrue (is_among c commits) → IsTrue (is_among d commits) → c.id ≡ d.id → c ≡ d) → Superseded t commits → IsTrue (serves inc (node_state ((history ++ entry ∷ []) ++ more))) → IsFalse (is_among t (known ((history ++ entry ∷ []) ++ more))) }
{}

/// No commit of an id that is given up is known; and one of that id that the known ones supersede is never known while the
/// incarnation serves.
pub fn given_up_is_missed()
    ensures unknown { (node capacity : ℕ) (id : TxnId) (history : List NodeEntry) (entry : NodeEntry) → LegalNode node capacity (history ++ entry ∷ []) → entry.act ≡ GiveUp id → IsFalse (has_id id (known history)) }
    ensures missed { (node capacity inc : ℕ) (c : Commit) (history more : List NodeEntry) (entry : NodeEntry) → LegalNode node capacity ((history ++ entry ∷ []) ++ more) → IsTrue (serves inc (node_state history)) → IsTrue (serves inc (node_state ((history ++ entry ∷ []) ++ more))) → entry.act ≡ GiveUp c.id → Superseded c (known history) → IsFalse (is_among c (known ((history ++ entry ∷ []) ++ more))) }
{}
