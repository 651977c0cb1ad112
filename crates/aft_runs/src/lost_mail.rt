//! A run in which a node that is down loses its mail, and others, which are refused.

ghost use Rattle.std.specs.Prelude.{[], ◌∷◌};
ghost use Rattle.aft_lines.specs.Headline.{Headline};
ghost use Rattle.aft_model.specs.Honest.{Honest};
ghost use Rattle.aft_lines.specs.LegalTrace.{LegalTrace};
ghost use Rattle.aft_runs.specs.LeftOut.{AnswersAll};
ghost use Rattle.aft_runs.specs.LostMail.{delivers_down, takes_it, lost_mail};
ghost use Rattle.aft_runs.specs.Parts.{RefusedBy, Posts};

/// A delivery to a node that is down loses what was in the box, and nothing is lost by that.
#[tactic(auto, unfolding(aft_histories::proofs::Stored::stored_forms))]
pub fn mail_lost()
    ensures legal { LegalTrace lost_mail.asked lost_mail.ran }
    ensures honest { Honest lost_mail.ran.trace.door }
    ensures promise { Headline lost_mail.ran.trace }
    ensures answers_all { AnswersAll lost_mail }
{}

/// It takes the box all the same.
#[tactic(auto, unfolding(aft_histories::proofs::Stored::stored_forms))]
pub fn mail_kept_refused()
    ensures taken { RefusedBy [] (delivers_down takes_it []) }
    ensures kept { RefusedBy (Posts ∷ []) (delivers_down [] []) }
{}
