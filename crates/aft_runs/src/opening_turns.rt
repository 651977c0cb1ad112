//! Runs in which the opening and the lines don't stand one behind the other, or the settings are past their limits.

ghost use Rattle.std.specs.Prelude.{[], ◌∷◌, IsFalse, IsTrue};
ghost use Rattle.aft_lines.specs.RefusedTrace.{RefusedTrace};
ghost use Rattle.aft_model.specs.LegalDoor.{is_legal};
ghost use Rattle.aft_runs.specs.OpeningTurns.{boots_all, boots_by, boots_with, c_newer, c_older, claims_and_stores, refused_behind, round_at, round_within_boot};
ghost use Rattle.aft_runs.specs.Openings.{no_line_runs};
ghost use Rattle.aft_runs.specs.Parts.{RefusedBy, Settings, Nodes, Opening};

/// A refused opening does nothing but the beginning of its boots, also where the door would let it.
#[tactic(auto, unfolding(aft_histories::proofs::Stored::stored_forms))]
pub fn refused_openings_boot()
    ensures boots { RefusedTrace (refused_behind []).asked (refused_behind []).ran }
    ensures at_door { IsTrue (is_legal (refused_behind claims_and_stores).ran.trace.door) }
    ensures more { IsFalse (no_line_runs (refused_behind claims_and_stores)) }
{}

/// No line stands before the end of the opening, and each has seen all of it.
#[tactic(auto, unfolding(aft_histories::proofs::Stored::stored_forms))]
pub fn lines_behind_opening()
    ensures behind { RefusedBy [] (round_at 7) }
    ensures not_seen { RefusedBy (Opening ∷ []) (round_at 5) }
    ensures within { RefusedBy (Opening ∷ []) round_within_boot }
{}

/// A boot serves with each commit that it was shown, once, in the order of their ids.
#[tactic(auto, unfolding(aft_histories::proofs::Stored::stored_forms))]
pub fn boots_in_order()
    ensures in_order { RefusedBy [] (boots_with (c_older ∷ c_newer ∷ [])) }
    ensures backwards { RefusedBy (Nodes ∷ []) (boots_with (c_newer ∷ c_older ∷ [])) }
    ensures twice { RefusedBy (Nodes ∷ []) (boots_with (c_older ∷ c_older ∷ c_newer ∷ [])) }
{}

/// A run has one to eight nodes, a cache and boxes of some size, and at most twenty rounds.
#[tactic(auto, unfolding(aft_histories::proofs::Stored::stored_forms))]
pub fn limits_kept()
    ensures within { RefusedBy [] (boots_by 1 4096 20) }
    ensures no_cache { RefusedBy (Settings ∷ []) (boots_by 0 4096 20) }
    ensures large_boxes { RefusedBy (Settings ∷ []) (boots_by 1 4097 20) }
    ensures many_rounds { RefusedBy (Settings ∷ []) (boots_by 1 4096 21) }
    ensures eight_nodes { RefusedBy [] (boots_all 8) }
    ensures no_node { RefusedBy (Settings ∷ []) (boots_all 0) }
    ensures ninth_node { RefusedBy (Settings ∷ []) (boots_all 9) }
{}
