//! Runs that don't keep the promise, each in one part of it.

ghost use Rattle.std.specs.Prelude.{[], ◌∷◌};
ghost use Rattle.aft_runs.specs.Gets.{gets_y, found_x_absent, gets_newer};
ghost use Rattle.aft_runs.specs.Promises.{Breaks, AtomicReadSets, RecordedBefore, OwnWritesAndRepeats, OneCommitAnId, WholeCommits, NothingFoundDeleted, BlockersNamed};
ghost use Rattle.aft_runs.specs.Reads.{absent_blocks};
ghost use Rattle.aft_runs.specs.Unkept.{read_early, read_unadmitted, first_put_got, own_put_passed_over, committed_twice, record_first, answered_unrecorded, picked_and_deleted, nothing_named};

/// What a transaction may not read.
#[tactic(auto, unfolding(aft_histories::proofs::Stored::stored_forms))]
pub fn reads_unkept()
    ensures kept { Breaks [] absent_blocks }
    ensures newer_beside_older { Breaks (AtomicReadSets ∷ []) (gets_y found_x_absent gets_newer) }
    ensures not_admitted { Breaks (AtomicReadSets ∷ []) read_unadmitted }
    ensures not_recorded { Breaks (RecordedBefore ∷ []) read_early }
    ensures older_own_put { Breaks (OwnWritesAndRepeats ∷ []) first_put_got }
    ensures no_own_put { Breaks (OwnWritesAndRepeats ∷ []) own_put_passed_over }
    ensures no_blocker { Breaks (BlockersNamed ∷ []) nothing_named }
{}

/// What may not come of commits.
#[tactic(auto, unfolding(aft_histories::proofs::Stored::stored_forms))]
pub fn commits_unkept()
    ensures twice { Breaks (OneCommitAnId ∷ []) committed_twice }
    ensures record_first { Breaks (WholeCommits ∷ []) record_first }
    ensures not_recorded { Breaks (WholeCommits ∷ []) answered_unrecorded }
    ensures deleted_while_picked { Breaks (NothingFoundDeleted ∷ []) picked_and_deleted }
{}
