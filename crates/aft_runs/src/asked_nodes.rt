//! Runs in which a collection asks each node and tells each fault as a verdict, and others, which are refused.

ghost use Rattle.std.specs.Prelude.{[], ◌∷◌};
ghost use Rattle.aft_lines.specs.Headline.{Headline};
ghost use Rattle.aft_model.specs.declared.reply.Reply.TheVariants as replies;
ghost use Rattle.aft_runs.specs.AskedNodes.{collects_read, fails_to_mark, none_gives_up, second_gives_up, tells_fault};
ghost use Rattle.aft_runs.specs.Parts.{RefusedBy, Courses, Causes};

/// Each node that need not hold on to a commit gives it up, also where another holds it.
#[tactic(auto, unfolding(aft_histories::proofs::Stored::stored_forms))]
pub fn nodes_asked()
    ensures asked { RefusedBy [] (collects_read second_gives_up) }
    ensures promise { Headline (collects_read second_gives_up).ran.trace }
    ensures not_asked { RefusedBy (Courses ∷ Causes ∷ []) (collects_read none_gives_up) }
{}

/// Behind its scans a collection tells a failed call as a verdict.
#[tactic(auto, unfolding(aft_histories::proofs::Stored::stored_forms))]
pub fn verdicts_of_faults()
    ensures verdict { RefusedBy [] (fails_to_mark tells_fault) }
    ensures store_fault { RefusedBy (Courses ∷ Causes ∷ []) (fails_to_mark replies.StoreFault) }
{}
