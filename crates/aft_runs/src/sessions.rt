//! Runs behind whose script a session asks, and others, which are refused; and which reads are clean.

ghost use Rattle.std.specs.Prelude.{[], ◌∷◌, IsTrue, IsFalse};
ghost use Rattle.aft_lines.specs.Clean.{is_clean};
ghost use Rattle.aft_lines.specs.Floor.{keeps_floor};
ghost use Rattle.aft_lines.specs.Headline.{Headline};
ghost use Rattle.aft_model.specs.Honest.{Honest};
ghost use Rattle.aft_lines.specs.LegalTrace.{LegalTrace};
ghost use Rattle.aft_runs.specs.Gets.{found_x_absent, gets_absent_again, gets_older, gets_x_again, gets_y};
ghost use Rattle.aft_runs.specs.LeftOut.{AnswersAll};
ghost use Rattle.aft_runs.specs.Parts.{RefusedBy, AsksLast};
ghost use Rattle.aft_runs.specs.Sessions.{asks_alone, begin_before, begin_behind, exchanges, kept_x, kept_y, later_commit, other_commit, read_commit, round_behind, session};
ghost use Rattle.aft_runs.specs.Works.{threaded};

/// What a session asks is done behind the script, and is of a transaction.
#[tactic(auto, unfolding(aft_histories::proofs::Stored::stored_forms))]
pub fn asked_behind()
    ensures legal { LegalTrace session.asked session.ran }
    ensures honest { Honest session.ran.trace.door }
    ensures promise { Headline session.ran.trace }
    ensures answers_all { AnswersAll session }
    ensures behind { RefusedBy [] begin_behind }
    ensures before { RefusedBy (AsksLast ∷ []) begin_before }
    ensures no_round { RefusedBy (AsksLast ∷ []) round_behind }
    ensures alone { RefusedBy [] asks_alone }
    ensures with_threads { RefusedBy (AsksLast ∷ []) (threaded asks_alone) }
{}

/// What it is told is not below its floor, where that wrote the key.
#[tactic(auto, unfolding(aft_histories::proofs::Stored::stored_forms))]
pub fn floors_kept()
    ensures read { IsTrue (keeps_floor read_commit (exchanges session)) }
    ensures later { IsFalse (keeps_floor later_commit (exchanges session)) }
    ensures of_other_key { IsTrue (keeps_floor other_commit (exchanges session)) }
{}

/// A run is clean where each get fits what was read before, and not where the last one doesn't.
#[tactic(auto, unfolding(aft_histories::proofs::Stored::stored_forms))]
pub fn reads_clean()
    ensures older { IsTrue (is_clean (gets_y found_x_absent gets_older).ran.trace) }
    ensures newer { IsFalse (is_clean (gets_y found_x_absent kept_y).ran.trace) }
    ensures absent { IsTrue (is_clean (gets_x_again gets_absent_again).ran.trace) }
    ensures not_absent { IsFalse (is_clean (gets_x_again kept_x).ran.trace) }
{}
