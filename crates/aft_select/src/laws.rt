//! Laws of the choice, as calls that do nothing and promise them.

ghost use Rattle.std.specs.Prelude.{◌≡◌, ◌++◌, ◌&&◌, ℕ, List, [], ◌∷◌, map, IsTrue, IsFalse};
ghost use Rattle.std.specs.List.{list_all};
ghost use Rattle.aft_id.specs.TxnId.{id_lt, same_id, zero_id};
ghost use Rattle.aft_id.specs.declared.txn_id.TxnId.{TxnId};
ghost use Rattle.aft_records.specs.Commits.{has_id, ids_ascend, versions};
ghost use Rattle.aft_records.specs.declared.stored.Commit.{Commit};
ghost use Rattle.aft_model.specs.Attempts.{is_read};
ghost use Rattle.aft_model.specs.AtomicReads.{Atomic};
ghost use Rattle.aft_model.specs.Choice.{choice, wrote_at};
ghost use Rattle.aft_model.specs.ReadSet.{HasEachKeyOnce};
ghost use Rattle.aft_model.specs.declared.choice.Blocked.{Blocked};
ghost use Rattle.aft_model.specs.declared.choice.Choice.TheVariants.{Absent, NoneFits, Version};
ghost use Rattle.aft_model.specs.declared.read_set.ReadPair.{ReadPair};

/// A version that is chosen is known and wrote the key, and leaves an atomic read set atomic.
pub fn chosen_keeps_reads_atomic()
    ensures written { (key : List ℕ) (id : TxnId) (reads : List ReadPair) (known : List Commit) → choice key reads known ≡ Version id → IsTrue (wrote_at key id known) }
    ensures atomic { (key : List ℕ) (id : TxnId) (reads : List ReadPair) (known : List Commit) → Atomic reads known → choice key reads known ≡ Version id → Atomic (reads ++ record { key = key; id = id } ∷ []) known }
{}

/// A key that is chosen to be absent is read as absent already, or leaves an atomic read set atomic, where the zero id is no known commit's.
pub fn absent_keeps_reads_atomic()
    ensures { (key : List ℕ) (reads : List ReadPair) (known : List Commit) → Atomic reads known → IsFalse (has_id zero_id known) → choice key reads known ≡ Absent → IsFalse (is_read (record { key = key; id = zero_id }) reads) → Atomic (reads ++ record { key = key; id = zero_id } ∷ []) known }
{}

/// Where a commit that was read wrote the key, and the read set is atomic, some version fits.
pub fn read_commit_never_blocked()
    ensures { (key : List ℕ) (pair : ReadPair) (reads : List ReadPair) (known : List Commit) (blocked : List Blocked) → Atomic reads known → IsTrue (is_read pair reads) → IsTrue (wrote_at key pair.id known) → choice key reads known ≡ NoneFits blocked → ⊥ }
{}

/// Where no version fits beside reads that are atomic, each known version has one blocker, in the order of the versions.
/// Whatever the reads are, a blocker names a key that its version's commit wrote, and the lower id at which it was read.
pub fn none_fits_names_each()
    ensures each { (key : List ℕ) (reads : List ReadPair) (known : List Commit) (blocked : List Blocked) → IsTrue (ids_ascend known) → Atomic reads known → choice key reads known ≡ NoneFits blocked → map (λ b. b.id) blocked ≡ versions key known }
    ensures conflicts { (key : List ℕ) (reads : List ReadPair) (known : List Commit) (blocked : List Blocked) → choice key reads known ≡ NoneFits blocked → IsTrue (list_all (λ b. wrote_at b.key b.id known && id_lt b.read b.id && is_read (record { key = b.key; id = b.read }) reads) blocked) }
{}

/// A key that was read is chosen at the same id again, whatever other commits are known by now.
pub fn choice_repeats()
    ensures version { (key : List ℕ) (id : TxnId) (reads : List ReadPair) (known : List Commit) → HasEachKeyOnce reads → Atomic reads known → IsTrue (is_read (record { key = key; id = id }) reads) → IsFalse (same_id id zero_id) → IsTrue (wrote_at key id known) → choice key reads known ≡ Version id }
    ensures absent { (key : List ℕ) (reads : List ReadPair) (known : List Commit) → IsTrue (is_read (record { key = key; id = zero_id }) reads) → choice key reads known ≡ Absent }
{}
