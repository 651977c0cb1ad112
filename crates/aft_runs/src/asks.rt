//! Runs that fit what they were asked, and others, which are refused.

ghost use Rattle.std.specs.Prelude.{[], ◌∷◌};
ghost use Rattle.aft_histories.specs.Entries.{x, y};
ghost use Rattle.aft_runs.specs.Asks.{puts_by, puts_it, answers_again, asks_store, answers_for, line_nine, puts_value, gets_key, begins_for, rounds_for, puts_for, gets_for, puts_at, runs_within, begins_by, histories_of};
ghost use Rattle.aft_runs.specs.Lines.{attempt};
ghost use Rattle.aft_runs.specs.Parts.{RefusedBy, Settings, Nodes, Opening, Courses, Answers, Words, Places, Attempts, Clients, WholeLines, Causes};
ghost use Rattle.aft_runs.specs.Words.{hi, a};
ghost use Rattle.aft_runs.specs.Works.{whole};

/// A line answers once, and is over then.
#[tactic(auto, unfolding(aft_histories::proofs::Stored::stored_forms))]
pub fn endings_refused()
    ensures answered { RefusedBy [] (puts_by (puts_it ∷ []) []) }
    ensures answered_twice { RefusedBy (Courses ∷ Answers ∷ []) (puts_by (puts_it ∷ answers_again ∷ []) []) }
    ensures not_answered { RefusedBy (Courses ∷ Answers ∷ []) (puts_by [] []) }
    ensures goes_on { RefusedBy (Courses ∷ []) (puts_by (puts_it ∷ []) (asks_store ∷ [])) }
{}

/// A line does what its words say, and nothing is done for no line.
#[tactic(auto, unfolding(aft_histories::proofs::Stored::stored_forms))]
pub fn lines_refused()
    ensures line_asked { RefusedBy [] (answers_for line_nine) }
    ensures line_not_asked { RefusedBy (Opening ∷ []) (answers_for []) }
    ensures value { RefusedBy [] (puts_value hi) }
    ensures other_value { RefusedBy (Words ∷ Causes ∷ []) (puts_value a) }
    ensures key { RefusedBy [] (gets_key x) }
    ensures other_key { RefusedBy (Words ∷ []) (gets_key y) }
{}

/// A line stands at its node, and speaks of what its client holds.
#[tactic(auto, unfolding(aft_histories::proofs::Stored::stored_forms))]
pub fn places_refused()
    ensures begin { RefusedBy [] (begins_for 2) }
    ensures begin_elsewhere { RefusedBy (Places ∷ Causes ∷ []) (begins_for 1) }
    ensures round { RefusedBy [] (rounds_for 2) }
    ensures round_elsewhere { RefusedBy (Places ∷ []) (rounds_for 1) }
    ensures own_put { RefusedBy [] (puts_for (attempt 1 1 1)) }
    ensures put_of_another { RefusedBy (Attempts ∷ Causes ∷ []) (puts_for (attempt 1 1 2)) }
    ensures own_get { RefusedBy [] (gets_for (attempt 1 1 1)) }
    ensures get_of_another { RefusedBy (Attempts ∷ []) (gets_for (attempt 1 1 2)) }
{}

/// Fronts never fall, a client's lines come one after the other, and lines that run whole do so in their order.
#[tactic(auto, unfolding(aft_histories::proofs::Stored::stored_forms))]
pub fn orders_refused()
    ensures front { RefusedBy [] (puts_at 8) }
    ensures front_falls { RefusedBy (Nodes ∷ []) (puts_at 7) }
    ensures beside_another { RefusedBy [] (runs_within 2) }
    ensures interleaved { RefusedBy (Clients ∷ []) (runs_within 1) }
    ensures by_number { RefusedBy [] (begins_by []) }
    ensures other_order { RefusedBy (WholeLines ∷ []) (begins_by (whole 2 ∷ [])) }
{}

/// There are the histories of as many nodes as the settings say.
#[tactic(auto, unfolding(aft_histories::proofs::Stored::stored_forms))]
pub fn settings_refused()
    ensures two { RefusedBy [] (histories_of 2) }
    ensures three { RefusedBy (Settings ∷ []) (histories_of 3) }
{}
