//! What holds of each run that forgets, deletes orphan versions, copies the store or asks for a session.

ghost use Rattle.std.specs.Prelude.{IsFalse};
ghost use Rattle.aft_lines.specs.Clean.{is_clean};
ghost use Rattle.aft_model.specs.Honest.{Honest};
ghost use Rattle.aft_model.specs.Orphans.{deletes_orphans};
ghost use Rattle.aft_model.specs.Stages.{KeepsStages, keeps_stages, retires_unheld};
ghost use Rattle.aft_runs.specs.Every.{Each};
ghost use Rattle.aft_runs.specs.NearReplies.{AnswerNear, of_stores};
ghost use Rattle.aft_runs.specs.OrphanRounds.{counts, settles_and, though_hidden};
ghost use Rattle.aft_runs.specs.Upgrades.{upgraded};

/// Versions and records are put, and markers deleted, in their stage, and no commit is retired under who is about to record it.
#[tactic(auto, unfolding(aft_histories::proofs::Stored::stored_forms))]
pub fn puts_in_stage()
    ensures stores { Each (λ trace. keeps_stages trace.door) of_stores }
    ensures upgraded { KeepsStages upgraded.trace.door }
    ensures unheld { Each (λ trace. retires_unheld trace.door) of_stores }
{}

/// What a round of orphans deletes is an orphan. Where the store hides a record that it has acknowledged, it is none.
#[tactic(auto, unfolding(aft_histories::proofs::Stored::stored_forms))]
pub fn orphans_deleted_alone()
    ensures stores { Each (λ trace. deletes_orphans trace.door) of_stores }
    ensures hidden { IsFalse (deletes_orphans (settles_and though_hidden (counts 1 0 0 0)).ran.trace.door) }
    ensures lying { Honest (settles_and though_hidden (counts 1 0 0 0)).ran.trace.door → ⊥ }
{}

/// Their traces are clean, and they leave none of the replies near theirs out.
#[tactic(auto, unfolding(aft_histories::proofs::Stored::stored_forms))]
pub fn stores_answered()
    ensures clean { Each is_clean of_stores }
    ensures answered { AnswerNear of_stores }
{}
