//! Deliveries and rounds of the manager by the rules, and others, which are refused.

ghost use Rattle.std.specs.Prelude.{[], ◌∷◌, ◌++◌};
ghost use Rattle.aft_runs.specs.Deliveries.{commits_then, the_commit, tells_of_it, takes_and_learns, finds_missed};
ghost use Rattle.aft_runs.specs.Parts.{RefusedBy, Office, Boxes, Posts};

/// A box gives what was posted, and a node learns that alone.
#[tactic(auto, unfolding(aft_histories::proofs::Stored::stored_forms))]
pub fn boxes_refused()
    ensures learned { RefusedBy [] (commits_then (tells_of_it ++ takes_and_learns the_commit the_commit)) }
    ensures lost { RefusedBy (Boxes ∷ []) (commits_then (tells_of_it ++ takes_and_learns [] [])) }
    ensures nothing { RefusedBy [] (commits_then (takes_and_learns [] [])) }
    ensures invented { RefusedBy (Boxes ∷ []) (commits_then (takes_and_learns the_commit the_commit)) }
    ensures learned_unposted { RefusedBy (Posts ∷ []) (commits_then (takes_and_learns [] the_commit)) }
    ensures not_learned { RefusedBy (Posts ∷ []) (commits_then (tells_of_it ++ takes_and_learns the_commit [])) }
{}

/// The manager finds what nobody announced.
#[tactic(auto, unfolding(aft_histories::proofs::Stored::stored_forms))]
pub fn rounds_refused()
    ensures missed { RefusedBy [] (commits_then (finds_missed the_commit)) }
    ensures overlooked { RefusedBy (Office ∷ []) (commits_then (finds_missed [])) }
{}
