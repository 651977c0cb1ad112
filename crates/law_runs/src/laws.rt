//! Laws of runs so far, as calls that do nothing and promise them.

ghost use Rattle.std.specs.Prelude.{◌≡◌, ◌++◌, List, []};
ghost use Rattle.aft_model.specs.Stages.{KeepsStages, RetiresUnheld};
ghost use Rattle.aft_lines.specs.Asked.{Asked, Ran};
ghost use Rattle.aft_lines.specs.LegalTrace.{LegalTrace};
ghost use Rattle.aft_lines.specs.RunsSoFar.{RunsSoFar};
ghost use Rattle.aft_lines.specs.Steps.{Made};
ghost use Rattle.law_claims.specs.Moments.{MayCome, scene_of};
ghost use Rattle.law_claims.specs.Scenes.{AreLegal, Keeps};
ghost use Rattle.law_runs.specs.Runs.{asking_of, run_steps};

/// Each step of a run so far, but for those of the office, is made and comes by its rule behind those before it; and so are
/// those of a legal trace.
pub fn runs_come()
    ensures so_far { (asked : Asked) (ran : Ran) → RunsSoFar asked ran → MayCome (asking_of asked ran) asked.settings.cache [] (run_steps ran) }
    ensures legal { (asked : Asked) (ran : Ran) → LegalTrace asked ran → MayCome (asking_of asked ran) asked.settings.cache [] (run_steps ran) }
{}

/// And at each of its moments a run so far, and a legal trace, keeps all that a moment keeps of attempts and claims.
pub fn runs_keep()
    ensures so_far { (asked : Asked) (ran : Ran) (made rest : List Made) → RunsSoFar asked ran → run_steps ran ≡ made ++ rest → Keeps (scene_of (asking_of asked ran) made) × AreLegal asked.settings.cache (scene_of (asking_of asked ran) made) }
    ensures legal { (asked : Asked) (ran : Ran) (made rest : List Made) → LegalTrace asked ran → run_steps ran ≡ made ++ rest → Keeps (scene_of (asking_of asked ran) made) × AreLegal asked.settings.cache (scene_of (asking_of asked ran) made) }
{}

/// In a run so far, and in a legal trace, each put at the door, and each delete of a marker, is made in its stage.
pub fn runs_keep_stages()
    ensures so_far { (asked : Asked) (ran : Ran) → RunsSoFar asked ran → KeepsStages ran.trace.door }
    ensures legal { (asked : Asked) (ran : Ran) → LegalTrace asked ran → KeepsStages ran.trace.door }
{}

/// In a run so far, and in a legal trace, no commit is retired under an incarnation of a node that is about to record it: for
/// each that holds its UUID, at some time before a commit of the id was committed, and it had put no record of the id under
/// its claim.
pub fn runs_retire_unheld()
    ensures so_far { (asked : Asked) (ran : Ran) → RunsSoFar asked ran → RetiresUnheld ran.trace.door }
    ensures legal { (asked : Asked) (ran : Ran) → LegalTrace asked ran → RetiresUnheld ran.trace.door }
{}
