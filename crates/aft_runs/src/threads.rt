//! A run with threads, and others, which are refused.

ghost use Rattle.std.specs.Prelude.{[], ◌∷◌};
ghost use Rattle.aft_lines.specs.Headline.{Headline};
ghost use Rattle.aft_model.specs.Honest.{Honest};
ghost use Rattle.aft_lines.specs.LegalTrace.{LegalTrace};
ghost use Rattle.aft_runs.specs.LeftOut.{AnswersAll};
ghost use Rattle.aft_runs.specs.Parts.{RefusedBy, Nodes, Opening, Courses, Answers};
ghost use Rattle.aft_runs.specs.Threads.{runs_beside, with_threads, says_announced, drops_nothing};

/// The background's rounds go on beside a client's lines.
#[tactic(auto, unfolding(aft_histories::proofs::Stored::stored_forms))]
pub fn runs_with_threads()
    ensures legal { LegalTrace with_threads.asked with_threads.ran }
    ensures honest { Honest with_threads.ran.trace.door }
    ensures promise { Headline with_threads.ran.trace }
    ensures answers_all { AnswersAll with_threads }
{}

/// Each background line answers, and there are as many as the settings say.
#[tactic(auto, unfolding(aft_histories::proofs::Stored::stored_forms))]
pub fn threads_refused()
    ensures each { RefusedBy [] (runs_beside says_announced 16 []) }
    ensures no_answer { RefusedBy (Courses ∷ Answers ∷ []) (runs_beside [] 16 []) }
    ensures one_more { RefusedBy (Opening ∷ []) (runs_beside says_announced 16 (drops_nothing 16 6 ∷ [])) }
    ensures twice { RefusedBy (Courses ∷ Answers ∷ []) (runs_beside says_announced 16 (drops_nothing 16 3 ∷ [])) }
{}

/// A front may lag behind the door's history, but neither behind an earlier front of the node nor before a later one.
#[tactic(auto, unfolding(aft_histories::proofs::Stored::stored_forms))]
pub fn fronts_refused()
    ensures lags { RefusedBy [] (runs_beside says_announced 16 []) }
    ensures up_to_date { RefusedBy [] (runs_beside says_announced 17 []) }
    ensures below_earlier { RefusedBy (Nodes ∷ []) (runs_beside says_announced 15 []) }
    ensures above_later { RefusedBy (Nodes ∷ []) (runs_beside says_announced 18 []) }
{}
