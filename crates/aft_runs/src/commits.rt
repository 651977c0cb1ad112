//! Commits by the rules, and others, which are refused.

ghost use Rattle.std.specs.Prelude.{◌≡◌, [], ◌∷◌};
ghost use Rattle.aft_model.specs.Origins.{greatest_reads};
ghost use Rattle.aft_runs.specs.Commits.{finishes, lets_go, stores_by, version_first, record_first, answers_behind, finds_it, finds_nothing, answers_after, reads_clock, commits_at, records_as, of_reads, of_another, of_old, nine_reads, eight_ids};
ghost use Rattle.aft_runs.specs.Reads.{x_hi};
ghost use Rattle.aft_runs.specs.Parts.{RefusedBy, Door, Nodes, Courses, Clock, Causes};

/// What is answered as committed was recorded, behind its versions, and its claim is let go.
#[tactic(auto, unfolding(aft_histories::proofs::Stored::stored_forms))]
pub fn answers_refused()
    ensures record_found { RefusedBy [] (finishes (answers_behind finds_it)) }
    ensures no_record_found { RefusedBy (Nodes ∷ Courses ∷ Causes ∷ []) (finishes (answers_behind finds_nothing)) }
    ensures version_first { RefusedBy [] (finishes (stores_by version_first)) }
    ensures record_first { RefusedBy (Door ∷ Courses ∷ []) (finishes (stores_by record_first)) }
    ensures let_go { RefusedBy [] (finishes (answers_after lets_go)) }
    ensures not_let_go { RefusedBy (Courses ∷ []) (finishes (answers_after [])) }
{}

/// A commit has the time of the clock, and one above each that it read.
#[tactic(auto, unfolding(aft_histories::proofs::Stored::stored_forms))]
pub fn times_refused()
    ensures clock { RefusedBy [] (finishes (reads_clock 1000)) }
    ensures other_clock { RefusedBy (Clock ∷ []) (finishes (reads_clock 1001)) }
    ensures above_what_was_read { RefusedBy [] (commits_at 1001) }
    ensures not_above_what_was_read { RefusedBy (Nodes ∷ []) (commits_at 1000) }
{}

/// A record names who wrote it, and the eight greatest ids that were read, each once.
#[tactic(auto, unfolding(aft_histories::proofs::Stored::stored_forms))]
pub fn records_refused()
    ensures named { RefusedBy [] (records_as (of_reads (x_hi.id ∷ []))) }
    ensures not_named { RefusedBy (Courses ∷ []) (records_as (of_reads [])) }
    ensures of_another { RefusedBy (Door ∷ Courses ∷ []) (records_as of_another) }
    ensures of_old { RefusedBy (Door ∷ Courses ∷ []) (records_as of_old) }
    ensures eight { greatest_reads nine_reads ≡ eight_ids }
{}
