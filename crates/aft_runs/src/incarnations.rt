//! Runs of several incarnations, and others, which are refused.

ghost use Rattle.std.specs.Prelude.{[], ◌∷◌};
ghost use Rattle.aft_lines.specs.Headline.{Headline};
ghost use Rattle.aft_model.specs.Honest.{Honest};
ghost use Rattle.aft_lines.specs.LegalTrace.{LegalTrace};
ghost use Rattle.aft_model.specs.declared.node.NodeAct.TheVariants as turns;
ghost use Rattle.aft_model.specs.declared.reply.Reply.TheVariants as replies;
ghost use Rattle.aft_runs.specs.Incarnations.{puts_for_older, incarnations, crashes_start, crashed_at_boot, scans};
ghost use Rattle.aft_runs.specs.LeftOut.{AnswersAll};
ghost use Rattle.aft_runs.specs.Parts.{RefusedBy, Door, Nodes, Causes};

/// An attempt ends with its incarnation, and a node may crash while it boots.
#[tactic(auto, unfolding(aft_histories::proofs::Stored::stored_forms))]
pub fn older_and_newer()
    ensures older_legal { LegalTrace incarnations.asked incarnations.ran }
    ensures older_honest { Honest incarnations.ran.trace.door }
    ensures older_promise { Headline incarnations.ran.trace }
    ensures older_answers_all { AnswersAll incarnations }
    ensures booting_legal { LegalTrace crashed_at_boot.asked crashed_at_boot.ran }
    ensures booting_honest { Honest crashed_at_boot.ran.trace.door }
    ensures booting_promise { Headline crashed_at_boot.ran.trace }
    ensures booting_answers_all { AnswersAll crashed_at_boot }
{}

/// A line speaks of the incarnation of its attempt, and one that is shut out neither scans nor serves.
#[tactic(auto, unfolding(aft_histories::proofs::Stored::stored_forms))]
pub fn incarnations_refused()
    ensures of_attempt { RefusedBy [] (puts_for_older (replies.NodeDown 1 1)) }
    ensures of_newest { RefusedBy (Causes ∷ []) (puts_for_older (replies.NodeDown 1 2)) }
    ensures of_none { RefusedBy (Causes ∷ []) (puts_for_older replies.NoTransaction) }
    ensures shut_out { RefusedBy [] (crashes_start [] turns.Nothing (replies.NodeDown 1 2) []) }
    ensures stopped { RefusedBy (Nodes ∷ []) (crashes_start [] (turns.BootStopped 2) (replies.NodeDown 1 2) []) }
    ensures scanned { RefusedBy (Door ∷ []) (crashes_start scans turns.Nothing (replies.NodeDown 1 2) []) }
    ensures served { RefusedBy (Door ∷ Nodes ∷ []) (crashes_start scans (turns.Boot 2 []) (replies.Started 1 2) []) }
{}
