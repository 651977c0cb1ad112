//! A run in which a mailbox is full, and others, which are refused.

ghost use Rattle.std.specs.Prelude.{◌≡◌, [], ◌∷◌};
ghost use Rattle.aft_lines.specs.Headline.{Headline};
ghost use Rattle.aft_model.specs.Honest.{Honest};
ghost use Rattle.aft_lines.specs.LegalTrace.{LegalTrace};
ghost use Rattle.aft_runs.specs.FullBoxes.{announces_in, c_x, c_y, full_box, announced_both, known_at_last, rounds_at_full, full_again};
ghost use Rattle.aft_runs.specs.LeftOut.{AnswersAll};
ghost use Rattle.aft_runs.specs.Parts.{RefusedBy, Nodes, Boxes, Posts, Causes};

/// What a full box refuses is found by the manager.
#[tactic(auto, unfolding(aft_histories::proofs::Stored::stored_forms))]
pub fn box_full()
    ensures legal { LegalTrace full_box.asked full_box.ran }
    ensures honest { Honest full_box.ran.trace.door }
    ensures promise { Headline full_box.ran.trace }
    ensures answers_all { AnswersAll full_box }
    ensures again_legal { LegalTrace full_again.asked full_again.ran }
    ensures again_honest { Honest full_again.ran.trace.door }
    ensures again_promise { Headline full_again.ran.trace }
    ensures again_answers_all { AnswersAll full_again }
{}

/// A box takes what it has room for, the office is told of just that, and the answer counts what was refused.
#[tactic(auto, unfolding(aft_histories::proofs::Stored::stored_forms))]
pub fn full_boxes_refused()
    ensures one_taken { RefusedBy [] (announced_both 1 (c_x ∷ []) 1) }
    ensures two_taken { RefusedBy (Boxes ∷ Posts ∷ Causes ∷ []) (announced_both 2 (c_x ∷ []) 1) }
    ensures none_taken { RefusedBy (Boxes ∷ Posts ∷ Causes ∷ []) (announced_both 0 (c_x ∷ []) 1) }
    ensures two_taken_none_dropped { RefusedBy (Boxes ∷ Posts ∷ []) (announced_both 2 (c_x ∷ []) 0) }
    ensures none_said_dropped { RefusedBy (Causes ∷ []) (announced_both 1 (c_x ∷ []) 0) }
    ensures other_told { RefusedBy (Posts ∷ []) (announced_both 1 (c_y ∷ []) 1) }
    ensures nothing_told { RefusedBy (Posts ∷ []) (announced_both 1 [] 1) }
    ensures none_noted { RefusedBy [] (rounds_at_full [] []) }
    ensures refused_noted { RefusedBy (Posts ∷ []) (rounds_at_full (c_y ∷ []) []) }
{}

/// Commits are announced in the order of their ids, in whichever they were stored.
#[tactic(auto, unfolding(aft_histories::proofs::Stored::stored_forms))]
pub fn announced_by_id()
    ensures by_id { RefusedBy [] (announces_in (c_x ∷ c_y ∷ [])) }
    ensures as_stored { RefusedBy (Nodes ∷ Posts ∷ []) (announces_in (c_y ∷ c_x ∷ [])) }
{}

/// A node knows commits in the order of their ids, in whichever they were stored.
#[tactic(auto, unfolding(aft_histories::proofs::Stored::stored_forms))]
pub fn known_by_id()
    ensures by_id { known_at_last (announces_in (c_x ∷ c_y ∷ [])) ≡ c_x ∷ c_y ∷ [] }
{}
