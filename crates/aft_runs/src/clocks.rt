//! Runs in which the clock stands at an edge, and others, which are refused.

ghost use Rattle.std.specs.Prelude.{[], ◌∷◌, Some, None, ◌^◌};
ghost use Rattle.aft_lines.specs.Headline.{Headline};
ghost use Rattle.aft_model.specs.Honest.{Honest};
ghost use Rattle.aft_lines.specs.LegalTrace.{LegalTrace};
ghost use Rattle.aft_model.specs.declared.reply.Reply.TheVariants as replies;
ghost use Rattle.aft_runs.specs.Clocks.{commits_where, last_time, earliest, latest, untold, past_end};
ghost use Rattle.aft_runs.specs.LeftOut.{AnswersAll};
ghost use Rattle.aft_runs.specs.Parts.{RefusedBy, Door, Nodes, Clock, Courses, Causes};

/// A commit has a time from 1 to the last one, by what the clock tells.
#[tactic(auto, unfolding(aft_histories::proofs::Stored::stored_forms))]
pub fn times_at_edges()
    ensures earliest_legal { LegalTrace earliest.asked earliest.ran }
    ensures earliest_honest { Honest earliest.ran.trace.door }
    ensures earliest_promise { Headline earliest.ran.trace }
    ensures earliest_answers_all { AnswersAll earliest }
    ensures latest_legal { LegalTrace latest.asked latest.ran }
    ensures latest_honest { Honest latest.ran.trace.door }
    ensures latest_promise { Headline latest.ran.trace }
    ensures latest_answers_all { AnswersAll latest }
{}

/// Where the clock tells nothing, a commit may have read any time; where it stands past the last one, none is made.
#[tactic(auto, unfolding(aft_histories::proofs::Stored::stored_forms))]
pub fn times_beyond()
    ensures untold_legal { LegalTrace untold.asked untold.ran }
    ensures untold_honest { Honest untold.ran.trace.door }
    ensures untold_promise { Headline untold.ran.trace }
    ensures untold_answers_all { AnswersAll untold }
    ensures past_legal { LegalTrace past_end.asked past_end.ran }
    ensures past_honest { Honest past_end.ran.trace.door }
    ensures past_promise { Headline past_end.ran.trace }
    ensures past_answers_all { AnswersAll past_end }
{}

/// A commit has the greatest of 1 and what the clock tells, and no time past the last one.
#[tactic(auto, unfolding(aft_histories::proofs::Stored::stored_forms))]
pub fn clocks_refused()
    ensures from_one { RefusedBy [] (commits_where (Some 0) 0 1) }
    ensures above { RefusedBy (Nodes ∷ []) (commits_where (Some 0) 0 2) }
    ensures untold { RefusedBy [] (commits_where None 5 5) }
    ensures below { RefusedBy (Nodes ∷ []) (commits_where None 6 5) }
    ensures other { RefusedBy (Clock ∷ []) (commits_where (Some 6) 5 5) }
    ensures last { RefusedBy [] (commits_where (Some last_time) last_time last_time) }
    ensures past_last { RefusedBy (Door ∷ Nodes ∷ Courses ∷ Causes ∷ []) (commits_where (Some (2 ^ 48)) (2 ^ 48) (2 ^ 48)) }
{}
