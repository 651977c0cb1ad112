//! Runs of two nodes, with announcements, rounds of the office, and collections.

ghost use Rattle.aft_lines.specs.Headline.{Headline};
ghost use Rattle.aft_model.specs.Honest.{Honest};
ghost use Rattle.aft_lines.specs.LegalTrace.{LegalTrace};
ghost use Rattle.aft_runs.specs.Pinned.{pinned_version};
ghost use Rattle.aft_runs.specs.Told.{announced, never_announced};

/// A commit that is announced, and one that the office tells of.
#[tactic(auto, unfolding(aft_histories::proofs::Stored::stored_forms))]
pub fn told()
    ensures announced_legal { LegalTrace announced.asked announced.ran }
    ensures announced_honest { Honest announced.ran.trace.door }
    ensures announced_promise { Headline announced.ran.trace }
    ensures missed_legal { LegalTrace never_announced.asked never_announced.ran }
    ensures missed_honest { Honest never_announced.ran.trace.door }
    ensures missed_promise { Headline never_announced.ran.trace }
{}

/// A version that is kept while it is read, and deleted later.
#[tactic(auto, unfolding(aft_histories::proofs::Stored::stored_forms))]
pub fn pinned()
    ensures legal { LegalTrace pinned_version.asked pinned_version.ran }
    ensures honest { Honest pinned_version.ran.trace.door }
    ensures promise { Headline pinned_version.ran.trace }
{}
