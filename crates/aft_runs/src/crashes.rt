//! A run in which a node crashes between the puts of a commit, and others, which are refused.

ghost use Rattle.std.specs.Prelude.{true, [], ◌∷◌};
ghost use Rattle.aft_lines.specs.Headline.{Headline};
ghost use Rattle.aft_model.specs.Honest.{Honest};
ghost use Rattle.aft_lines.specs.LegalTrace.{LegalTrace};
ghost use Rattle.aft_model.specs.declared.node.NodeAct.TheVariants as turns;
ghost use Rattle.aft_model.specs.declared.reply.Reply.TheVariants as replies;
ghost use Rattle.aft_histories.specs.Entries.{x};
ghost use Rattle.aft_runs.specs.Crashes.{crashes_between, crash_between_versions, stores_other, crashes_in_get, fetches_it, crash_behind_fetch, crash_before_fetch};
ghost use Rattle.aft_runs.specs.LeftOut.{AnswersAll};
ghost use Rattle.aft_runs.specs.Lines.{attempt};
ghost use Rattle.aft_runs.specs.Parts.{RefusedBy, Door, Nodes};
ghost use Rattle.aft_runs.specs.Reads.{x_hi};
ghost use Rattle.aft_runs.specs.Words.{hi};

/// A commit that was cut off by a crash is made anew at another node.
#[tactic(auto, unfolding(aft_histories::proofs::Stored::stored_forms))]
pub fn crash_between_puts()
    ensures legal { LegalTrace crash_between_versions.asked crash_between_versions.ran }
    ensures honest { Honest crash_between_versions.ran.trace.door }
    ensures promise { Headline crash_between_versions.ran.trace }
    ensures answers_all { AnswersAll crash_between_versions }
{}

/// A get that is cut off by a crash answers that the node is down, also where it has fetched its version.
#[tactic(auto, unfolding(aft_histories::proofs::Stored::stored_forms))]
pub fn crash_in_get()
    ensures behind_legal { LegalTrace crash_behind_fetch.asked crash_behind_fetch.ran }
    ensures behind_honest { Honest crash_behind_fetch.ran.trace.door }
    ensures behind_promise { Headline crash_behind_fetch.ran.trace }
    ensures behind_answers_all { AnswersAll crash_behind_fetch }
    ensures before_legal { LegalTrace crash_before_fetch.asked crash_before_fetch.ran }
    ensures before_honest { Honest crash_before_fetch.ran.trace.door }
    ensures before_promise { Headline crash_before_fetch.ran.trace }
    ensures before_answers_all { AnswersAll crash_before_fetch }
{}

/// An incarnation that is shut out stores and gets no more, and answers nothing for it.
#[tactic(auto, unfolding(aft_histories::proofs::Stored::stored_forms))]
pub fn puts_behind_crash_refused()
    ensures cut_off { RefusedBy [] (crashes_between [] []) }
    ensures next_version_stored { RefusedBy (Door ∷ []) (crashes_between stores_other []) }
    ensures get_cut_off { RefusedBy [] (crashes_in_get fetches_it [] turns.Nothing (replies.NodeDown 1 1)) }
    ensures fetched_behind { RefusedBy (Door ∷ []) (crashes_in_get [] fetches_it turns.Nothing (replies.NodeDown 1 1)) }
    ensures answered_behind { RefusedBy (Nodes ∷ []) (crashes_in_get fetches_it [] (turns.Value (attempt 1 1 2) x x_hi.id 14 true) (replies.Value x_hi.id hi)) }
    ensures lost_behind { RefusedBy (Nodes ∷ []) (crashes_in_get [] [] (turns.Lost (attempt 1 1 2) x x_hi.id) (replies.NodeDown 1 1)) }
{}
