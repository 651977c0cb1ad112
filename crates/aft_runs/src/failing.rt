//! Runs in which calls of the store fail, or a node crashes.

ghost use Rattle.aft_lines.specs.Headline.{Headline};
ghost use Rattle.aft_model.specs.Honest.{Honest};
ghost use Rattle.aft_lines.specs.LegalTrace.{LegalTrace};
ghost use Rattle.aft_runs.specs.Faults.{doubt_settled, started_again};

/// A commit in doubt that is settled, and a node that starts again.
#[tactic(auto, unfolding(aft_histories::proofs::Stored::stored_forms))]
pub fn faults()
    ensures doubt_legal { LegalTrace doubt_settled.asked doubt_settled.ran }
    ensures doubt_honest { Honest doubt_settled.ran.trace.door }
    ensures doubt_promise { Headline doubt_settled.ran.trace }
    ensures started_legal { LegalTrace started_again.asked started_again.ran }
    ensures started_honest { Honest started_again.ran.trace.door }
    ensures started_promise { Headline started_again.ran.trace }
{}
