//! Runs in which a transaction is aborted, and others, which are refused.

ghost use Rattle.std.specs.Prelude.{[], ◌∷◌};
ghost use Rattle.aft_lines.specs.Headline.{Headline};
ghost use Rattle.aft_model.specs.Honest.{Honest};
ghost use Rattle.aft_lines.specs.LegalTrace.{LegalTrace};
ghost use Rattle.aft_model.specs.declared.reply.Reply.TheVariants as replies;
ghost use Rattle.aft_runs.specs.Aborts.{leaves_and, aborted, aborts_doubt, finds_it, finds_nothing, is_aborted, is_stored, x_is_absent, x_is_there, doubt_aborted, doubt_committed, doubt_kept, doubt_let_go, doubt_stored};
ghost use Rattle.aft_runs.specs.LeftOut.{AnswersAll};
ghost use Rattle.aft_runs.specs.Parts.{RefusedBy, Nodes, Courses, Causes};

/// A transaction that runs is aborted.
#[tactic(auto, unfolding(aft_histories::proofs::Stored::stored_forms))]
pub fn running_aborted()
    ensures legal { LegalTrace aborted.asked aborted.ran }
    ensures honest { Honest aborted.ran.trace.door }
    ensures promise { Headline aborted.ran.trace }
    ensures answers_all { AnswersAll aborted }
{}

/// So is one whose commit is in doubt, where there is no record of it; else it is committed.
#[tactic(auto, unfolding(aft_histories::proofs::Stored::stored_forms))]
pub fn doubts_aborted()
    ensures aborted_legal { LegalTrace doubt_aborted.asked doubt_aborted.ran }
    ensures aborted_honest { Honest doubt_aborted.ran.trace.door }
    ensures aborted_promise { Headline doubt_aborted.ran.trace }
    ensures aborted_answers_all { AnswersAll doubt_aborted }
    ensures committed_legal { LegalTrace doubt_committed.asked doubt_committed.ran }
    ensures committed_honest { Honest doubt_committed.ran.trace.door }
    ensures committed_promise { Headline doubt_committed.ran.trace }
    ensures committed_answers_all { AnswersAll doubt_committed }
{}

/// An abort answers that the transaction is aborted, which it isn't where its record was found.
#[tactic(auto, unfolding(aft_histories::proofs::Stored::stored_forms))]
pub fn aborts_refused()
    ensures left { RefusedBy [] (leaves_and replies.Aborted) }
    ensures said_ended { RefusedBy (Courses ∷ Causes ∷ []) (leaves_and replies.Ended) }
    ensures no_record { RefusedBy [] (aborts_doubt finds_nothing is_aborted x_is_absent) }
    ensures aborted_though_found { RefusedBy (Nodes ∷ Courses ∷ Causes ∷ []) (aborts_doubt finds_it is_aborted x_is_absent) }
    ensures found { RefusedBy [] (aborts_doubt finds_it is_stored x_is_there) }
    ensures stored_though_absent { RefusedBy (Nodes ∷ Courses ∷ Causes ∷ []) (aborts_doubt finds_nothing is_stored x_is_there) }
{}

/// One in doubt that is in doubt still keeps its claim, and once its record is stored it isn't in doubt for want of memory.
#[tactic(auto, unfolding(aft_histories::proofs::Stored::stored_forms))]
pub fn doubts_refused()
    ensures kept { RefusedBy [] doubt_kept }
    ensures let_go { RefusedBy (Courses ∷ []) doubt_let_go }
    ensures stored { RefusedBy (Courses ∷ []) doubt_stored }
{}
