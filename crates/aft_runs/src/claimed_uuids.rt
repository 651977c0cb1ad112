//! Runs that claim UUIDs, and others, which are refused.

ghost use Rattle.std.specs.Prelude.{◌≡◌, [], ◌∷◌};
ghost use Rattle.aft_model.specs.Readings.{record_name};
ghost use Rattle.aft_runs.specs.Parts.{RefusedBy, Bytes, Nodes, Courses, Causes};
ghost use Rattle.aft_runs.specs.ClaimedUuids.{begins_two, begins_unclaimed, ending};

/// Past 255 two UUIDs can have one record name; so each is made of bytes. Who begins has claimed its own.
#[tactic(auto, unfolding(aft_histories::proofs::Stored::stored_forms))]
pub fn uuids_of_bytes()
    ensures one_name { record_name (ending 256) ≡ record_name (ending 272) }
    ensures bytes { RefusedBy [] (begins_two 1 255) }
    ensures no_bytes { RefusedBy (Bytes ∷ []) (begins_two 256 272) }
    ensures unclaimed { RefusedBy (Nodes ∷ Courses ∷ Causes ∷ []) begins_unclaimed }
{}
