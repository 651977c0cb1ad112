//! What a store may hold along a history, and what a copy of it takes.

ghost use Rattle.std.specs.Prelude.{◌≡◌, [], ◌∷◌, codes, IsTrue, IsFalse, length};
ghost use Rattle.aft_keeper.specs.declared.keeper.KeeperAnswer.TheVariants.{Absent, Done};
ghost use Rattle.aft_keeper.specs.declared.keeper.KeeperCall.TheVariants.{Get, Put};
ghost use Rattle.aft_model.specs.Contents.{GoesAlong, keeper_entries, may_be_held};
ghost use Rattle.aft_model.specs.Cut.{cut, is_taken};
ghost use Rattle.aft_histories.specs.Entries.{first, record_of, full_pair};
ghost use Rattle.aft_histories.specs.Facts.{in_doubt, whole_first};
ghost use Rattle.aft_histories.specs.Honest.{forgotten as acknowledged_and_absent};
ghost use Rattle.aft_histories.specs.Legal.{ordinary, settled, forgot};
ghost use Rattle.aft_histories.specs.Copies.{copied, copier_up, marked_store, only_versions, recorded_since, up_place};

/// The cut of a store: the records whose UUID has no marker, and their versions.
#[tactic(auto, unfolding(crate::proofs::Stored::stored_forms))]
pub fn cuts()
    ensures unmarked { cut marked_store ≡ copied }
    ensures itself { cut copied ≡ copied }
    ensures no_record { cut only_versions ≡ [] }
{}

/// Which commits a copier takes of those that it was shown.
#[tactic(auto, unfolding(crate::proofs::Stored::stored_forms))]
pub fn taken()
    ensures shown { IsTrue (is_taken up_place [] copier_up first) }
    ensures recorded_before { IsTrue (is_taken (length ordinary) [] ordinary first) }
    ensures recorded_since { IsFalse (is_taken up_place [] recorded_since first) }
    ensures marked { IsFalse (is_taken up_place (full_pair first ∷ []) copier_up first) }
    ensures forgotten { IsFalse (is_taken (length forgot) [] forgot first) }
{}

/// What a store that was empty may hold after a history, and which calls of the store a history has.
#[tactic(auto, unfolding(crate::proofs::Stored::stored_forms))]
pub fn contents()
    ensures ordinary { GoesAlong [] ordinary whole_first }
    ensures either { may_be_held [] in_doubt ≡ whole_first ∷ only_versions ∷ [] }
    ensures settled { may_be_held [] settled ≡ whole_first ∷ [] }
    ensures unlike { may_be_held [] acknowledged_and_absent ≡ [] }
    ensures calls { keeper_entries acknowledged_and_absent ≡ record { call = Put (record_of 1) (codes "one"); answer = Done } ∷ record { call = Get (record_of 1); answer = Absent } ∷ [] }
{}
