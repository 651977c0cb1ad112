//! Laws of what a node knows and reads, as calls that do nothing and promise them.

ghost use Rattle.std.specs.Prelude.{◌≡◌, ◌++◌, ℕ, List, [], ◌∷◌, None, Some, IsTrue, IsFalse};
ghost use Rattle.std.specs.List.{list_any};
ghost use Rattle.aft_id.specs.TxnId.{zero_id, same_id};
ghost use Rattle.aft_id.specs.declared.txn_id.TxnId.{TxnId};
ghost use Rattle.aft_records.specs.Superseded.{Superseded, is_superseded, wrote};
ghost use Rattle.aft_records.specs.declared.stored.Commit.{Commit};
ghost use Rattle.aft_model.specs.declared.choice.Blocked.{Blocked};
ghost use Rattle.aft_model.specs.declared.choice.Choice.TheVariants.{NoneFits};
ghost use Rattle.aft_model.specs.declared.node.NodeEntry.{NodeEntry};
ghost use Rattle.aft_model.specs.declared.read_set.ReadPair.{ReadPair};
ghost use Rattle.aft_model.specs.Attempts.{is_pinned, is_read};
ghost use Rattle.aft_model.specs.AtomicReads.{Atomic};
ghost use Rattle.aft_model.specs.Choice.{fits, choice, wrote_at};
ghost use Rattle.aft_records.specs.Commits.{has_id, ids_ascend, is_among, latest, latest_le};
ghost use Rattle.aft_model.specs.Known.{known};
ghost use Rattle.aft_model.specs.LegalNode.{LegalNode};
ghost use Rattle.aft_model.specs.NodeState.{node_state, serves, part};

/// What a get adds to a read set that is atomic leaves it atomic; for an absent key, where the zero id is no known commit's.
pub fn reads_stay_atomic()
    ensures fitting { (key : List ℕ) (id : TxnId) (reads : List ReadPair) (known : List Commit) → Atomic reads known → IsTrue (fits key id reads known) → Atomic (reads ++ record { key = key; id = id } ∷ []) known }
    ensures absent { (key : List ℕ) (reads : List ReadPair) (known : List Commit) → Atomic reads known → IsFalse (has_id zero_id known) → IsFalse (list_any (wrote key) known) → Atomic (reads ++ record { key = key; id = zero_id } ∷ []) known }
{}

/// Where a commit that was read wrote the key, a get of an atomic read set isn't blocked.
pub fn read_commit_fits()
    ensures { (key : List ℕ) (pair : ReadPair) (reads : List ReadPair) (known : List Commit) (blocked : List Blocked) → Atomic reads known → IsTrue (is_read pair reads) → IsTrue (wrote_at key pair.id known) → choice key reads known ≡ NoneFits blocked → ⊥ }
{}

/// What a node knows, within one incarnation.
pub fn known_within_incarnation()
    ensures greatest_stays { (node capacity inc : ℕ) (key : List ℕ) (history more : List NodeEntry) → LegalNode node capacity (history ++ more) → IsTrue (serves inc (node_state history)) → IsTrue (serves inc (node_state (history ++ more))) → IsTrue (latest_le (latest key (known history)) (latest key (known (history ++ more)))) }
    ensures pinned_is_known { (node capacity : ℕ) (id : TxnId) (history : List NodeEntry) → LegalNode node capacity history → IsTrue (is_pinned id (part history)) → IsFalse (same_id id zero_id) → IsTrue (has_id id (known history)) }
    ensures pinned_stays { (node capacity inc : ℕ) (id : TxnId) (history : List NodeEntry) (entry : NodeEntry) → LegalNode node capacity (history ++ entry ∷ []) → IsTrue (serves inc (node_state history)) → IsTrue (serves inc (node_state (history ++ entry ∷ []))) → IsTrue (is_pinned id (part history)) → IsTrue (has_id id (known history)) → IsTrue (has_id id (known (history ++ entry ∷ []))) }
    ensures superseded_stays_unknown { (node capacity inc : ℕ) (c : Commit) (history more : List NodeEntry) → LegalNode node capacity (history ++ more) → IsTrue (serves inc (node_state history)) → IsTrue (serves inc (node_state (history ++ more))) → IsFalse (is_among c (known history)) → Superseded c (known history) → IsFalse (is_among c (known (history ++ more))) }
{}

/// The greatest commit of a key is not superseded by the commits that it is the greatest of.
pub fn newest_is_not_superseded()
    ensures { (key : List ℕ) (c : Commit) (commits : List Commit) → IsTrue (wrote key c) → latest key commits ≡ Some c.id → IsFalse (is_superseded c commits) }
{}

/// What a node knows stands in the order of ids, each id once.
pub fn known_ascends()
    ensures { (history : List NodeEntry) → IsTrue (ids_ascend (known history)) }
{}
