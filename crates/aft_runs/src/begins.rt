//! Begins by the rules, and others, which are refused.

ghost use Rattle.std.specs.Prelude.{[], ◌∷◌};
ghost use Rattle.aft_runs.specs.Begins.{begins_then, in_order, backwards, without_marker, commits_too, begins_beside};
ghost use Rattle.aft_runs.specs.Parts.{RefusedBy, Door, Nodes, Courses, Causes};

/// A begin asks for the record and then for the marker, and claims a UUID that nobody holds.
#[tactic(auto, unfolding(aft_histories::proofs::Stored::stored_forms))]
pub fn begins_refused()
    ensures in_order { RefusedBy [] (begins_then in_order commits_too) }
    ensures marker_first { RefusedBy (Nodes ∷ Courses ∷ Causes ∷ []) (begins_then backwards []) }
    ensures marker_first_and_commit { RefusedBy (Door ∷ Nodes ∷ Courses ∷ Causes ∷ []) (begins_then backwards commits_too) }
    ensures without_marker { RefusedBy (Nodes ∷ Courses ∷ Causes ∷ []) (begins_then without_marker []) }
    ensures others { RefusedBy [] (begins_beside 2) }
    ensures held_by_another { RefusedBy (Door ∷ []) (begins_beside 1) }
{}
