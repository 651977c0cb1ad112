//! Runs of transactions that write and read at one node.

ghost use Rattle.aft_lines.specs.Headline.{Headline};
ghost use Rattle.aft_model.specs.Honest.{Honest};
ghost use Rattle.aft_lines.specs.LegalTrace.{LegalTrace};
ghost use Rattle.aft_runs.specs.Reads.{ordinary_use, absent_repeats, absent_blocks, older_version_fits};

/// Gets of a key that was written, and of one that was absent and stays so.
#[tactic(auto, unfolding(aft_histories::proofs::Stored::stored_forms))]
pub fn reads()
    ensures ordinary_legal { LegalTrace ordinary_use.asked ordinary_use.ran }
    ensures ordinary_honest { Honest ordinary_use.ran.trace.door }
    ensures ordinary_promise { Headline ordinary_use.ran.trace }
    ensures absent_legal { LegalTrace absent_repeats.asked absent_repeats.ran }
    ensures absent_honest { Honest absent_repeats.ran.trace.door }
    ensures absent_promise { Headline absent_repeats.ran.trace }
{}

/// Gets of which no version or only an older one fits.
#[tactic(auto, unfolding(aft_histories::proofs::Stored::stored_forms))]
pub fn reads_beside()
    ensures blocked_legal { LegalTrace absent_blocks.asked absent_blocks.ran }
    ensures blocked_honest { Honest absent_blocks.ran.trace.door }
    ensures blocked_promise { Headline absent_blocks.ran.trace }
    ensures older_legal { LegalTrace older_version_fits.asked older_version_fits.ran }
    ensures older_honest { Honest older_version_fits.ran.trace.door }
    ensures older_promise { Headline older_version_fits.ran.trace }
{}
