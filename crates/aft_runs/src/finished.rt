//! The text of a run that was done.

ghost use Rattle.std.specs.Prelude.{◌≡◌, codes, [], ◌∷◌, ◌++◌};
ghost use Rattle.aft_model.specs.declared.reply.Reply.TheVariants as reply;
ghost use Rattle.aft_lines.specs.FinishedText.{answers_of, printed};
ghost use Rattle.aft_runs.specs.Finished.{asks_two, both_answered, answered_twice};
ghost use Rattle.aft_runs.specs.Works.{by};

/// What is printed for the lines of a script, and of it alone. A line that isn't answered exactly once prints nothing.
#[tactic(auto, unfolding(aft_histories::proofs::Texts::texts))]
pub fn finished_texts()
    ensures both { printed asks_two both_answered ≡ codes "1 1 value 1000-00000000-0000-0000-0000-000000000001 hi" ++ 10 ∷ codes "3 2 manager heard 0 missed 1" ++ 10 ∷ [] }
    ensures of_line { answers_of (by 2 3) both_answered ≡ reply.Managed 0 1 ∷ [] }
    ensures of_client { answers_of (by 1 3) both_answered ≡ [] }
    ensures twice { answers_of (by 1 1) answered_twice ≡ reply.Absent ∷ reply.Absent ∷ [] }
    ensures twice_printed { printed asks_two answered_twice ≡ codes "3 2 manager heard 0 missed 1" ++ 10 ∷ [] }
{}
