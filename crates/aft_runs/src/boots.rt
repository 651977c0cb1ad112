//! Boots by the rules, and others, which are refused.

ghost use Rattle.std.specs.Prelude.{[], ◌∷◌};
ghost use Rattle.aft_model.specs.declared.node.NodeAct.TheVariants as turns;
ghost use Rattle.aft_model.specs.declared.reply.Reply.TheVariants as replies;
ghost use Rattle.aft_runs.specs.Boots.{serves_at, crashes_by, answers_of_older, is_superseded, is_known};
ghost use Rattle.aft_runs.specs.Parts.{RefusedBy, Nodes, Courses, Causes};

/// A boot serves behind its scan run, and takes in no commit that is superseded.
#[tactic(auto, unfolding(aft_histories::proofs::Stored::stored_forms))]
pub fn boots_refused()
    ensures behind_scan { RefusedBy [] (serves_at 8) }
    ensures before_scan { RefusedBy (Nodes ∷ Courses ∷ []) (serves_at 7) }
    ensures superseded { RefusedBy [] (answers_of_older is_superseded) }
    ensures taken_in { RefusedBy (Nodes ∷ Causes ∷ []) (answers_of_older is_known) }
{}

/// A crash takes its node down.
#[tactic(auto, unfolding(aft_histories::proofs::Stored::stored_forms))]
pub fn crashes_refused()
    ensures down { RefusedBy [] (crashes_by (turns.Down 1) (replies.Crashed 1 1)) }
    ensures still_serving { RefusedBy (Courses ∷ []) (crashes_by turns.Nothing (replies.Crashed 1 1)) }
    ensures without_memory { RefusedBy (Courses ∷ []) (crashes_by turns.Nothing replies.NoMemory) }
{}
