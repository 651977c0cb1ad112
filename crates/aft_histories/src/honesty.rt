//! Histories of stores that keep what they acknowledged, and of stores that don't.

ghost use Rattle.aft_model.specs.Honest.{Honest};
ghost use Rattle.aft_histories.specs.Honest.{shown_again, failed_and_there, failed_and_absent, forgotten, left_out};

/// A store that shows what it acknowledged, and either outcome of a put that failed.
#[tactic(auto, unfolding(crate::proofs::Stored::stored_forms))]
pub fn honest()
    ensures again { Honest shown_again }
    ensures there { Honest failed_and_there }
    ensures absent { Honest failed_and_absent }
{}

/// A store that forgets what it acknowledged.
#[tactic(auto, unfolding(crate::proofs::Stored::stored_forms))]
pub fn dishonest()
    ensures get { Honest forgotten → ⊥ }
    ensures page { Honest left_out → ⊥ }
{}
