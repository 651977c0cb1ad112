//! Runs in which a line tries again what failed, and others, which are refused.

ghost use Rattle.std.specs.Prelude.{[], ◌∷◌};
ghost use Rattle.aft_lines.specs.Headline.{Headline};
ghost use Rattle.aft_model.specs.Honest.{Honest};
ghost use Rattle.aft_lines.specs.LegalTrace.{LegalTrace};
ghost use Rattle.aft_model.specs.declared.reply.Reply.TheVariants as replies;
ghost use Rattle.aft_runs.specs.LeftOut.{AnswersAll};
ghost use Rattle.aft_runs.specs.Parts.{RefusedBy, Nodes, Courses, Causes};
ghost use Rattle.aft_runs.specs.Reads.{x_hi};
ghost use Rattle.aft_runs.specs.Retries.{commits_anew, stores_anew, stores_record, doubt_stored_anew, gets_anew, failed_get};

/// A commit in doubt is stored anew, and a fetch that failed is made again.
#[tactic(auto, unfolding(aft_histories::proofs::Stored::stored_forms))]
pub fn tried_again()
    ensures stored_legal { LegalTrace doubt_stored_anew.asked doubt_stored_anew.ran }
    ensures stored_honest { Honest doubt_stored_anew.ran.trace.door }
    ensures stored_promise { Headline doubt_stored_anew.ran.trace }
    ensures stored_answers_all { AnswersAll doubt_stored_anew }
    ensures got_legal { LegalTrace failed_get.asked failed_get.ran }
    ensures got_honest { Honest failed_get.ran.trace.door }
    ensures got_promise { Headline failed_get.ran.trace }
    ensures got_answers_all { AnswersAll failed_get }
{}

/// All is stored anew, and a call that failed shows nothing.
#[tactic(auto, unfolding(aft_histories::proofs::Stored::stored_forms))]
pub fn retries_refused()
    ensures all { RefusedBy [] (commits_anew stores_anew) }
    ensures record_alone { RefusedBy (Courses ∷ []) (commits_anew stores_record) }
    ensures fault { RefusedBy [] (gets_anew replies.StoreFault) }
    ensures missing { RefusedBy (Causes ∷ []) (gets_anew (replies.Missing x_hi.id)) }
    ensures down { RefusedBy (Causes ∷ []) (gets_anew (replies.NodeDown 1 1)) }
    ensures absent { RefusedBy (Nodes ∷ Causes ∷ []) (gets_anew replies.Absent) }
{}
