//! Which histories keep the stages of the lines that make their entries, and what is made of bytes.

ghost use Rattle.std.specs.Prelude.{◌≡◌, IsTrue, IsFalse, Some};
ghost use Rattle.std.specs.Str.{bytes_eq};
ghost use Rattle.aft_model.specs.Bytes.{HasBytes};
ghost use Rattle.aft_model.specs.Claims.{holder};
ghost use Rattle.aft_model.specs.Honest.{Honest};
ghost use Rattle.aft_model.specs.LegalDoor.{Legal};
ghost use Rattle.aft_model.specs.Membership.{incarnation};
ghost use Rattle.aft_model.specs.Orphans.{deletes_orphans, is_orphan};
ghost use Rattle.aft_model.specs.Readings.{record_name};
ghost use Rattle.aft_model.specs.Stages.{KeepsStages, RetiresUnheld};
ghost use Rattle.aft_histories.specs.Entries.{x, first};
ghost use Rattle.aft_histories.specs.Facts.{tried_again};
ghost use Rattle.aft_histories.specs.Legal.{stored, marked, upgraded, forgot, left_behind, orphan_deleted, committed_beside, other, other_kept};
ghost use Rattle.aft_histories.specs.Stages.{claimed_by_two, forgot_by_office, marked_while_held, recorded_early, stored_by_older, stored_wide, upgraded_beside_claim, wide};

/// Versions and records are put under the claim behind which their caller found neither record nor marker, and a
/// record behind its last version. The office puts a record again only where nobody has claimed anything, and forgets
/// nothing. The rules of the door alone let an older claim's gets count, and the office claim and forget.
#[tactic(auto, unfolding(crate::proofs::Stored::stored_forms))]
pub fn stages()
    ensures tried_again { KeepsStages tried_again }
    ensures upgraded { KeepsStages upgraded }
    ensures forgot { KeepsStages forgot }
    ensures older_gets_legal { Legal stored_by_older }
    ensures older_gets { KeepsStages stored_by_older → ⊥ }
    ensures early_legal { Legal recorded_early }
    ensures early { KeepsStages recorded_early → ⊥ }
    ensures beside_claim_legal { Legal upgraded_beside_claim }
    ensures beside_claim { KeepsStages upgraded_beside_claim → ⊥ }
    ensures by_office_legal { Legal forgot_by_office }
    ensures by_office { KeepsStages forgot_by_office → ⊥ }
{}

/// No commit is marked while the node that has just put its record holds its UUID. The rules of the door alone
/// let it be.
#[tactic(auto, unfolding(crate::proofs::Stored::stored_forms))]
pub fn retiring()
    ensures marked { RetiresUnheld marked }
    ensures held_legal { Legal marked_while_held }
    ensures held { RetiresUnheld marked_while_held → ⊥ }
{}

/// Which versions are orphans: those of an id that isn't committed and whose UUID no node holds.
#[tactic(auto, unfolding(crate::proofs::Stored::stored_forms))]
pub fn orphans()
    ensures left_behind { IsTrue (is_orphan x first.id left_behind) }
    ensures held { IsFalse (is_orphan x first.id stored) }
    ensures beside { IsTrue (is_orphan x first.id committed_beside) }
    ensures recorded { IsFalse (is_orphan x other.id committed_beside) }
    ensures deleted { IsTrue (deletes_orphans orphan_deleted) }
    ensures kept { IsTrue (deletes_orphans other_kept) }
{}

/// Two UUIDs whose numbers are no bytes can have one record name, and then two incarnations hold the claims that guard
/// it, by the rules of the door. What is read is made of bytes, so nothing can be put for such a UUID.
#[tactic(auto, unfolding(crate::proofs::Stored::stored_forms))]
pub fn bytes()
    ensures ordinary { HasBytes forgot }
    ensures two { IsFalse (bytes_eq (wide 256) (wide 512)) }
    ensures one_name { record_name (wide 256) ≡ record_name (wide 512) }
    ensures legal { Legal claimed_by_two }
    ensures honest { Honest claimed_by_two }
    ensures in_stage { KeepsStages claimed_by_two }
    ensures first_holder { holder (wide 256) claimed_by_two ≡ Some (incarnation 1 1) }
    ensures second_holder { holder (wide 512) claimed_by_two ≡ Some (incarnation 2 1) }
    ensures no_bytes { HasBytes claimed_by_two → ⊥ }
    ensures not_put { Legal stored_wide → ⊥ }
{}
