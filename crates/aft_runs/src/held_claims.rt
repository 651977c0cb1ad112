//! Runs in which a begin is refused rightly, and others, which are refused.

ghost use Rattle.std.specs.Prelude.{[], ◌∷◌};
ghost use Rattle.aft_lines.specs.Headline.{Headline};
ghost use Rattle.aft_model.specs.Honest.{Honest};
ghost use Rattle.aft_lines.specs.LegalTrace.{LegalTrace};
ghost use Rattle.aft_model.specs.declared.reply.Reply.TheVariants as replies;
ghost use Rattle.aft_histories.specs.Entries.{u};
ghost use Rattle.aft_runs.specs.HeldClaims.{refuses_with, held_claim, begins_again, begun_again, lets_go, begun_retired, begins_within, begun_within};
ghost use Rattle.aft_runs.specs.LeftOut.{AnswersAll};
ghost use Rattle.aft_runs.specs.Parts.{RefusedBy, Courses, Causes};
ghost use Rattle.aft_runs.specs.Reads.{x_hi};

/// A UUID is held by another node, or committed there.
#[tactic(auto, unfolding(aft_histories::proofs::Stored::stored_forms))]
pub fn claims_held()
    ensures held_legal { LegalTrace held_claim.asked held_claim.ran }
    ensures held_honest { Honest held_claim.ran.trace.door }
    ensures held_promise { Headline held_claim.ran.trace }
    ensures held_answers_all { AnswersAll held_claim }
    ensures committed_legal { LegalTrace begun_again.asked begun_again.ran }
    ensures committed_honest { Honest begun_again.ran.trace.door }
    ensures committed_promise { Headline begun_again.ran.trace }
    ensures committed_answers_all { AnswersAll begun_again }
{}

/// It is retired, or an attempt of it opens at the node.
#[tactic(auto, unfolding(aft_histories::proofs::Stored::stored_forms))]
pub fn claims_retired()
    ensures retired_legal { LegalTrace begun_retired.asked begun_retired.ran }
    ensures retired_honest { Honest begun_retired.ran.trace.door }
    ensures retired_promise { Headline begun_retired.ran.trace }
    ensures retired_answers_all { AnswersAll begun_retired }
    ensures opening_legal { LegalTrace begun_within.asked begun_within.ran }
    ensures opening_honest { Honest begun_within.ran.trace.door }
    ensures opening_promise { Headline begun_within.ran.trace }
    ensures opening_answers_all { AnswersAll begun_within }
{}

/// A begin that is refused says who holds the UUID, and lets its own claim go.
#[tactic(auto, unfolding(aft_histories::proofs::Stored::stored_forms))]
pub fn claims_refused()
    ensures by_holder { RefusedBy [] (refuses_with (replies.Busy 1 1)) }
    ensures by_itself { RefusedBy (Causes ∷ []) (refuses_with (replies.Busy 2 1)) }
    ensures by_next { RefusedBy (Causes ∷ []) (refuses_with (replies.Busy 1 2)) }
    ensures by_nobody { RefusedBy (Courses ∷ Causes ∷ []) (refuses_with (replies.Committed x_hi.id)) }
    ensures let_go { RefusedBy [] (begins_again lets_go) }
    ensures kept { RefusedBy (Courses ∷ []) (begins_again []) }
    ensures opening { RefusedBy [] (begins_within (replies.Busy 1 1)) }
    ensures opening_by_next { RefusedBy (Causes ∷ []) (begins_within (replies.Busy 1 2)) }
    ensures opening_joined { RefusedBy (Causes ∷ []) (begins_within (replies.Joined (u 1))) }
{}
