//! A run in which the scan of a boot fails, and others, which are refused.

ghost use Rattle.std.specs.Prelude.{[], ◌∷◌};
ghost use Rattle.aft_lines.specs.Headline.{Headline};
ghost use Rattle.aft_model.specs.Honest.{Honest};
ghost use Rattle.aft_lines.specs.LegalTrace.{LegalTrace};
ghost use Rattle.aft_model.specs.declared.node.NodeAct.TheVariants as turns;
ghost use Rattle.aft_model.specs.declared.reply.Reply.TheVariants as replies;
ghost use Rattle.aft_runs.specs.BootFaults.{boot_fault, start_fails_and};
ghost use Rattle.aft_runs.specs.LeftOut.{AnswersAll};
ghost use Rattle.aft_runs.specs.Parts.{RefusedBy, Nodes, Courses, Causes};
ghost use Rattle.aft_runs.specs.Reads.{x_hi};
ghost use Rattle.aft_runs.specs.Words.{commit_of};

/// A boot whose scan failed is stopped, and a later start tries it again.
#[tactic(auto, unfolding(aft_histories::proofs::Stored::stored_forms))]
pub fn boot_tried_again()
    ensures legal { LegalTrace boot_fault.asked boot_fault.ran }
    ensures honest { Honest boot_fault.ran.trace.door }
    ensures promise { Headline boot_fault.ran.trace }
    ensures answers_all { AnswersAll boot_fault }
{}

/// It doesn't serve, whatever it would serve with, and is stopped for no other reason.
#[tactic(auto, unfolding(aft_histories::proofs::Stored::stored_forms))]
pub fn boot_faults_refused()
    ensures stopped { RefusedBy [] (start_fails_and (turns.BootStopped 2) replies.StoreFault) }
    ensures serves { RefusedBy (Nodes ∷ Courses ∷ Causes ∷ []) (start_fails_and (turns.Boot 2 []) (replies.Started 1 2)) }
    ensures serves_all { RefusedBy (Nodes ∷ Courses ∷ Causes ∷ []) (start_fails_and (turns.Boot 2 (commit_of x_hi ∷ [])) (replies.Started 1 2)) }
    ensures too_many { RefusedBy (Causes ∷ []) (start_fails_and (turns.BootStopped 2) replies.TooManyRecords) }
    ensures down { RefusedBy (Causes ∷ []) (start_fails_and (turns.BootStopped 2) (replies.NodeDown 1 2)) }
{}
