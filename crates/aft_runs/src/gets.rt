//! Gets by the rules, and others, which are refused.

ghost use Rattle.std.specs.Prelude.{[], ◌∷◌};
ghost use Rattle.aft_runs.specs.Gets.{gets_y, found_x_absent, gets_older, gets_newer, gets_x_again, gets_absent_again, gets_new_x, gets_none, gets_own, gets_put, fetches_behind, scans_records};
ghost use Rattle.aft_runs.specs.Parts.{RefusedBy, Nodes, Courses, Causes};
ghost use Rattle.aft_runs.specs.Words.{hi, a};

/// The newest version that fits what was read beside it is got, and no other.
#[tactic(auto, unfolding(aft_histories::proofs::Stored::stored_forms))]
pub fn versions_refused()
    ensures older { RefusedBy [] (gets_y found_x_absent gets_older) }
    ensures newest_beside_older_read { RefusedBy (Nodes ∷ Causes ∷ []) (gets_y found_x_absent gets_newer) }
    ensures newest { RefusedBy [] (gets_y [] gets_newer) }
    ensures older_where_newest_fits { RefusedBy (Nodes ∷ Causes ∷ []) (gets_y [] gets_older) }
{}

/// An absent key is read too, and a version is got by one call of the store.
#[tactic(auto, unfolding(aft_histories::proofs::Stored::stored_forms))]
pub fn sights_refused()
    ensures absent_again { RefusedBy [] (gets_x_again gets_absent_again) }
    ensures absent_forgotten { RefusedBy (Nodes ∷ Causes ∷ []) (gets_x_again gets_new_x) }
    ensures one_call { RefusedBy [] (fetches_behind []) }
    ensures scan_at_a_get { RefusedBy (Courses ∷ []) (fetches_behind scans_records) }
{}

/// A transaction gets what it put itself.
#[tactic(auto, unfolding(aft_histories::proofs::Stored::stored_forms))]
pub fn own_values_refused()
    ensures own { RefusedBy [] (gets_put (gets_own hi)) }
    ensures another { RefusedBy (Nodes ∷ Causes ∷ []) (gets_put (gets_own a)) }
    ensures absent { RefusedBy (Nodes ∷ Causes ∷ []) (gets_put gets_none) }
{}
