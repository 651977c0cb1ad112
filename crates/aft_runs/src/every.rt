//! What holds of each legal run.

ghost use Rattle.std.specs.Prelude.{◌≡◌, ◌++◌, IsFalse};
ghost use Rattle.aft_lines.specs.Clean.{DoorUnclean, IsClean, NodeUnclean, finding, is_clean};
ghost use Rattle.aft_lines.specs.Holding.{claims_held, desk_held, fetches_stay_open};
ghost use Rattle.aft_lines.specs.RunsSoFar.{progress_is_course, steps_are_turns};
ghost use Rattle.aft_model.specs.Looks.{deletes_cleared};
ghost use Rattle.aft_model.specs.Stages.{keeps_stages, retires_unheld};
ghost use Rattle.aft_runs.specs.Every.{Each, EachRun, all_runs, comes_along, of_nodes, of_office, of_transactions};
ghost use Rattle.aft_runs.specs.Gets.{gets_y, found_x_absent, gets_newer};
ghost use Rattle.aft_runs.specs.Reads.{ordinary_use};
ghost use Rattle.aft_runs.specs.Unkept.{first_put_got, own_put_passed_over, committed_twice, nothing_named};

/// Each put and each delete of a marker is made in its stage, no commit is retired under who is about to record it, and a version is deleted of a
/// commit whose record is gone, or of an id that was looked for under the claim that holds.
#[tactic(auto, unfolding(aft_histories::proofs::Stored::stored_forms))]
pub fn stages_kept()
    ensures transactions { Each (λ trace. keeps_stages trace.door) of_transactions }
    ensures nodes { Each (λ trace. keeps_stages trace.door) of_nodes }
    ensures office { Each (λ trace. keeps_stages trace.door) of_office }
    ensures unheld { Each (λ trace. retires_unheld trace.door) (of_nodes ++ of_office) }
    ensures cleared { Each (λ trace. deletes_cleared trace.door) (of_nodes ++ of_office) }
{}

/// Each trace is clean, to a checker that knows nothing of how it came about.
#[tactic(auto, unfolding(aft_histories::proofs::Stored::stored_forms))]
pub fn traces_clean()
    ensures transactions { Each is_clean of_transactions }
    ensures nodes { Each is_clean of_nodes }
    ensures office { Each is_clean of_office }
{}

/// Each line's turns lead to an end exactly where they are its course, and its own steps are its turns.
#[tactic(auto, unfolding(aft_histories::proofs::Stored::stored_forms))]
pub fn positions_kept()
    ensures along { EachRun comes_along }
    ensures course { EachRun progress_is_course }
    ensures steps { EachRun steps_are_turns }
{}

/// At each moment an attempt that needs its claim holds it, and the office holds what one round holds, and each fetch
/// that ends has stood open.
#[tactic(auto, unfolding(aft_histories::proofs::Stored::stored_forms))]
pub fn holders_kept()
    ensures claims { Each claims_held all_runs }
    ensures desk { EachRun desk_held }
    ensures fetches { Each fetches_stay_open all_runs }
{}

/// One in which a commit is read in part, own writes are passed over, a transaction commits twice or no blocker is named isn't, and the first entry that makes it so is found.
#[tactic(auto, unfolding(aft_histories::proofs::Stored::stored_forms))]
pub fn traces_unclean()
    ensures newer_beside_older { IsFalse (is_clean (gets_y found_x_absent gets_newer).ran.trace) }
    ensures older_own_put { IsFalse (is_clean first_put_got.ran.trace) }
    ensures no_own_put { IsFalse (is_clean own_put_passed_over.ran.trace) }
    ensures twice { IsFalse (is_clean committed_twice.ran.trace) }
    ensures no_blocker { IsFalse (is_clean nothing_named.ran.trace) }
    ensures clean_found { finding ordinary_use.ran.trace ≡ IsClean }
    ensures door_found { finding committed_twice.ran.trace ≡ DoorUnclean 12 }
    ensures node_found { finding first_put_got.ran.trace ≡ NodeUnclean 1 6 }
{}
