//! Runs in which a collection meets another one or a fault, and others, which are refused.

ghost use Rattle.std.specs.Prelude.{[], ◌∷◌};
ghost use Rattle.aft_lines.specs.Headline.{Headline};
ghost use Rattle.aft_model.specs.Honest.{Honest};
ghost use Rattle.aft_lines.specs.LegalTrace.{LegalTrace};
ghost use Rattle.aft_model.specs.declared.office.OfficeAct.TheVariants as desk;
ghost use Rattle.aft_model.specs.declared.reply.Reply.TheVariants as replies;
ghost use Rattle.aft_runs.specs.CollectionFaults.{collects_beside, two_collections, is_faulty, collected_twice, says_of_fault};
ghost use Rattle.aft_runs.specs.Collections.{held_by, is_retired};
ghost use Rattle.aft_runs.specs.Entries.{says, closes};
ghost use Rattle.aft_runs.specs.LeftOut.{AnswersAll};
ghost use Rattle.aft_runs.specs.Parts.{RefusedBy, Office, Courses, Answers, Causes};
ghost use Rattle.aft_runs.specs.Works.{by};

/// One collection runs at a time, and one that met a fault is ended by the next.
#[tactic(auto, unfolding(aft_histories::proofs::Stored::stored_forms))]
pub fn collected_in_the_end()
    ensures beside_legal { LegalTrace two_collections.asked two_collections.ran }
    ensures beside_honest { Honest two_collections.ran.trace.door }
    ensures beside_promise { Headline two_collections.ran.trace }
    ensures beside_answers_all { AnswersAll two_collections }
    ensures twice_legal { LegalTrace collected_twice.asked collected_twice.ran }
    ensures twice_honest { Honest collected_twice.ran.trace.door }
    ensures twice_promise { Headline collected_twice.ran.trace }
    ensures twice_answers_all { AnswersAll collected_twice }
{}

/// No other begins beside it, and what met a fault is said to be at fault.
#[tactic(auto, unfolding(aft_histories::proofs::Stored::stored_forms))]
pub fn collection_faults_refused()
    ensures refused { RefusedBy [] (collects_beside (closes 6 (by 2 2) desk.Nothing replies.Collecting)) }
    ensures begins_too { RefusedBy (Office ∷ Courses ∷ Answers ∷ []) (collects_beside (says 6 (by 2 2) desk.Collecting)) }
    ensures fault { RefusedBy [] (says_of_fault is_faulty) }
    ensures retired { RefusedBy (Causes ∷ []) (says_of_fault is_retired) }
    ensures held { RefusedBy (Causes ∷ []) (says_of_fault (held_by 1 1)) }
{}
