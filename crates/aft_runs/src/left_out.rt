//! What runs answer where a reply comes exactly where its cause is.

ghost use Rattle.std.specs.Prelude.{[], ◌∷◌};
ghost use Rattle.aft_model.specs.declared.reply.Reply.TheVariants as reply;
ghost use Rattle.aft_runs.specs.Faults.{doubt_settled, started_again};
ghost use Rattle.aft_runs.specs.LeftOut.{AnswersAll, LeavesOut, doubted};
ghost use Rattle.aft_runs.specs.Parts.{RefusedBy, Causes};
ghost use Rattle.aft_runs.specs.Pinned.{pinned_version};
ghost use Rattle.aft_runs.specs.Reads.{ordinary_use, absent_repeats, absent_blocks, older_version_fits};
ghost use Rattle.aft_runs.specs.Told.{announced, never_announced};

/// Runs of one node leave out no reply of a list that has each kind.
#[tactic(auto, unfolding(aft_histories::proofs::Stored::stored_forms))]
pub fn reads_answer_all()
    ensures ordinary { AnswersAll ordinary_use }
    ensures absent { AnswersAll absent_repeats }
    ensures blocked { AnswersAll absent_blocks }
    ensures older { AnswersAll older_version_fits }
{}

/// So do runs with faults, and with rounds.
#[tactic(auto, unfolding(aft_histories::proofs::Stored::stored_forms))]
pub fn others_answer_all()
    ensures settled { AnswersAll doubt_settled }
    ensures started { AnswersAll started_again }
    ensures told { AnswersAll announced }
    ensures round { AnswersAll never_announced }
{}

/// And so does the run whose collection is held and then retires a commit.
#[tactic(auto, unfolding(aft_histories::proofs::Stored::stored_forms))]
pub fn collections_answer_all()
    ensures pinned { AnswersAll pinned_version }
{}

/// A commit whose record and its settling both failed is in doubt: a store fault would leave that out, and has no cause there.
#[tactic(auto, unfolding(aft_histories::proofs::Stored::stored_forms))]
pub fn doubts_left_out()
    ensures in_doubt { AnswersAll (doubted reply.InDoubt) }
    ensures no_cause { RefusedBy (Causes ∷ []) (doubted reply.StoreFault) }
    ensures left_out { LeavesOut reply.InDoubt (doubted reply.StoreFault) }
{}
