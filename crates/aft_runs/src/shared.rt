//! Runs in which two clients share an attempt, and others, which are refused.

ghost use Rattle.std.specs.Prelude.{[], ◌∷◌};
ghost use Rattle.aft_lines.specs.Headline.{Headline};
ghost use Rattle.aft_model.specs.Honest.{Honest};
ghost use Rattle.aft_lines.specs.LegalTrace.{LegalTrace};
ghost use Rattle.aft_model.specs.declared.reply.Reply.TheVariants as replies;
ghost use Rattle.aft_histories.specs.Entries.{u};
ghost use Rattle.aft_runs.specs.LeftOut.{AnswersAll};
ghost use Rattle.aft_runs.specs.Parts.{RefusedBy, Nodes, Attempts, Causes};
ghost use Rattle.aft_runs.specs.Shared.{shares, shared_attempt, commit_answers, commits_beside, settled_by_other, shared_doubt};

/// Two clients share an attempt, and each finds what the other one's line is about.
#[tactic(auto, unfolding(aft_histories::proofs::Stored::stored_forms))]
pub fn attempt_shared()
    ensures legal { LegalTrace shared_attempt.asked shared_attempt.ran }
    ensures honest { Honest shared_attempt.ran.trace.door }
    ensures promise { Headline shared_attempt.ran.trace }
    ensures answers_all { AnswersAll shared_attempt }
    ensures doubt_legal { LegalTrace shared_doubt.asked shared_doubt.ran }
    ensures doubt_honest { Honest shared_doubt.ran.trace.door }
    ensures doubt_promise { Headline shared_doubt.ran.trace }
    ensures doubt_answers_all { AnswersAll shared_doubt }
{}

/// No commit starts while a read is open, and as many are answered as there are.
#[tactic(auto, unfolding(aft_histories::proofs::Stored::stored_forms))]
pub fn sharing_refused()
    ensures one_open { RefusedBy [] (shares (commit_answers (replies.OpenReads 1)) 14 []) }
    ensures two_open { RefusedBy (Causes ∷ []) (shares (commit_answers (replies.OpenReads 2)) 14 []) }
    ensures committing { RefusedBy (Causes ∷ []) (shares (commit_answers replies.Committing) 14 []) }
    ensures committed_beside { RefusedBy (Nodes ∷ []) (shares commits_beside 17 []) }
    ensures in_doubt { RefusedBy [] (settled_by_other (replies.Joined (u 1))) }
    ensures in_doubt_busy { RefusedBy (Attempts ∷ Causes ∷ []) (settled_by_other (replies.Busy 1 1)) }
{}
