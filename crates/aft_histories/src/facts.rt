//! What histories and stores show of commits, claims and pages.

ghost use Rattle.std.specs.Prelude.{◌≡◌, [], ◌∷◌, ◌++◌, codes, Some, None, IsTrue, IsFalse};
ghost use Rattle.aft_model.specs.Claims.{claim_place, forgotten, given_up, holder, holdout};
ghost use Rattle.aft_records.specs.Superseded.{Superseded};
ghost use Rattle.aft_model.specs.Committed.{Committed, Marked, committed};
ghost use Rattle.aft_model.specs.Course.{KeepsCourse};
ghost use Rattle.aft_model.specs.Evidence.{covers};
ghost use Rattle.aft_model.specs.Honest.{Honest};
ghost use Rattle.aft_model.specs.LegalDoor.{Legal};
ghost use Rattle.aft_model.specs.MayHold.{Unknown, OneOf, may_hold};
ghost use Rattle.aft_model.specs.Membership.{greatest_fenced, incarnation, is_up, last_inc, next_inc, the_office, up_now};
ghost use Rattle.aft_model.specs.Readings.{first_format_in, has_reading, records_in, written_in};
ghost use Rattle.aft_model.specs.ScanRun.{is_scan_run};
ghost use Rattle.aft_model.specs.Sound.{Sound, first_offender};
ghost use Rattle.aft_model.specs.Whole.{Whole};
ghost use Rattle.aft_histories.specs.Entries.{u, x, y, first, second, record_of, marker_of, version_of, written, pair_of_record, record_pair, old_record, version_pair, full_pair, done_pair};
ghost use Rattle.aft_histories.specs.Facts.{in_doubt, tried_again, older_gets, forget_failed, last_fenced, whole_first, whole_both, pair, full_page, last_page};
ghost use Rattle.aft_histories.specs.Illegal.{claimed_again, half_given_up, holder_fenced};
ghost use Rattle.aft_histories.specs.Legal.{begun, stored, ordinary, settled, superseded, marked, retired, upgraded, forgot, other};

/// Which commits are committed, superseded, marked and whole.
#[tactic(auto, unfolding(crate::proofs::Stored::stored_forms))]
pub fn commits()
    ensures stored { Committed first stored → ⊥ }
    ensures in_doubt { Committed first in_doubt → ⊥ }
    ensures put { Committed first ordinary }
    ensures shown { Committed first settled }
    ensures superseded { Superseded first (committed superseded) }
    ensures newest { Superseded second (committed superseded) → ⊥ }
    ensures unmarked { Marked first superseded → ⊥ }
    ensures marked { Marked first marked }
    ensures whole { Whole first ordinary }
    ensures whole_shown { Whole first settled }
    ensures not_whole { Whole first in_doubt → ⊥ }
    ensures gone { Whole first retired → ⊥ }
    ensures newest_whole { Whole second retired }
    ensures upgraded { Committed first upgraded }
    ensures upgraded_whole { Whole first upgraded }
{}

/// What a name may hold, who is up, who holds a claim, and who has given a commit up.
#[tactic(auto, unfolding(crate::proofs::Stored::stored_forms))]
pub fn door()
    ensures unknown { may_hold (record_of 2) ordinary ≡ OneOf (None ∷ []) }
    ensures unseen { may_hold (codes "v/") ordinary ≡ Unknown }
    ensures either { may_hold (record_of 1) in_doubt ≡ OneOf (None ∷ Some (record_pair first).bytes ∷ []) }
    ensures settled { may_hold (record_of 1) settled ≡ OneOf (Some (record_pair first).bytes ∷ []) }
    ensures up { IsTrue (is_up (incarnation 1 1) begun) }
    ensures office { IsTrue (is_up the_office []) }
    ensures fenced { IsFalse (is_up (incarnation 1 1) holder_fenced) }
    ensures held { holder (u 1) begun ≡ Some (incarnation 1 1) }
    ensures released { holder (u 1) ordinary ≡ None }
    ensures fenced_holder { holder (u 1) holder_fenced ≡ None }
    ensures given_up { IsTrue (given_up (incarnation 1 1) first.id marked) }
    ensures kept { IsFalse (given_up (incarnation 1 1) second.id marked) }
{}

/// Which incarnations of nodes are up or were fenced, which may come up next, by which claim a UUID is held, who has
/// not given a commit up, and which UUIDs are forgotten.
#[tactic(auto, unfolding(crate::proofs::Stored::stored_forms))]
pub fn claims()
    ensures up { up_now 1 begun ≡ Some 1 }
    ensures not_up { up_now 2 begun ≡ None }
    ensures fenced { up_now 1 holder_fenced ≡ None }
    ensures greatest { greatest_fenced 1 holder_fenced ≡ 1 }
    ensures none_fenced { greatest_fenced 1 begun ≡ 0 }
    ensures next { next_inc 1 holder_fenced ≡ 2 }
    ensures first_inc { next_inc 2 holder_fenced ≡ 1 }
    ensures last { next_inc 1 last_fenced ≡ last_inc }
    ensures place { claim_place (u 1) begun ≡ Some 4 }
    ensures later_place { claim_place (u 1) claimed_again ≡ Some 8 }
    ensures let_go { claim_place (u 1) ordinary ≡ None }
    ensures fenced_place { claim_place (u 1) holder_fenced ≡ None }
    ensures holds_out { holdout first.id half_given_up ≡ Some (incarnation 2 1) }
    ensures least { holdout second.id half_given_up ≡ Some (incarnation 1 1) }
    ensures none_holds_out { holdout first.id marked ≡ None }
    ensures forgot { IsTrue (forgotten (u 1) forgot) }
    ensures forget_failed { IsTrue (forgotten (u 1) forget_failed) }
    ensures retired { IsFalse (forgotten (u 1) retired) }
{}

/// How a record is read in either format.
#[tactic(auto, unfolding(crate::proofs::Stored::stored_forms))]
pub fn formats()
    ensures new { records_in (record_pair first) ≡ first ∷ [] }
    ensures new_written { written_in (pair_of_record (written 1 2 (first.id ∷ []) second)) ≡ written 1 2 (first.id ∷ []) second ∷ [] }
    ensures new_first { first_format_in (record_pair first) ≡ [] }
    ensures old { records_in (old_record first) ≡ first ∷ [] }
    ensures old_written { written_in (old_record first) ≡ [] }
    ensures old_first { first_format_in (old_record first) ≡ first ∷ [] }
    ensures of_the_office_alone { written_in (pair_of_record (written 0 1 [] first)) ≡ [] }
    ensures neither { records_in (pair_of_record (written 0 1 [] first)) ≡ [] }
{}

/// Which stores are sound, and which name offends first.
#[tactic(auto, unfolding(crate::proofs::Stored::stored_forms))]
pub fn stores()
    ensures empty { Sound [] }
    ensures whole { Sound whole_first }
    ensures old { Sound (old_record first ∷ version_pair x first.id ∷ version_pair y first.id ∷ []) }
    ensures marked { Sound (whole_both ++ full_pair first ∷ []) }
    ensures gone { Sound (done_pair first.id ∷ []) }
    ensures others { Sound (pair (codes "v/junk") (codes "junk") ∷ pair (codes "x") [] ∷ []) }
    ensures no_reading { first_offender (pair (record_of 1) (codes "junk") ∷ []) ≡ Some (record_of 1) }
    ensures no_name { first_offender (pair (codes "r/1") (done_pair first.id).bytes ∷ []) ≡ Some (codes "r/1") }
    ensures other_uuid { first_offender (pair (record_of 2) (record_pair first).bytes ∷ []) ≡ Some (record_of 2) }
    ensures other_commit { first_offender (whole_both ++ full_pair other ∷ []) ≡ Some (marker_of 1) }
    ensures not_superseded { first_offender (whole_first ++ full_pair first ∷ []) ≡ Some (marker_of 1) }
    ensures record_behind { first_offender (whole_both ++ done_pair first.id ∷ []) ≡ Some (marker_of 1) }
    ensures version_absent { first_offender (record_pair first ∷ version_pair y first.id ∷ []) ≡ Some (version_of x first.id) }
    ensures other_version { first_offender (record_pair first ∷ version_pair y first.id ∷ pair (version_of x first.id) (version_pair x second.id).bytes ∷ []) ≡ Some (version_of x first.id) }
    ensures least { first_offender (pair (codes "r/1") [] ∷ pair (codes "c/2") [] ∷ pair (codes "c/3") [] ∷ []) ≡ Some (codes "c/2") }
    ensures reading { IsTrue (has_reading (version_pair x first.id)) }
    ensures no_key { IsFalse (has_reading (pair (version_of y first.id) (version_pair x first.id).bytes)) }
{}

/// Which names a page covers, and which pages are a scan run.
#[tactic(auto, unfolding(crate::proofs::Stored::stored_forms))]
pub fn pages()
    ensures behind { IsFalse (covers (codes "c/") [] 64 full_page.listed (record_of 65)) }
    ensures within { IsTrue (covers (codes "c/") [] 64 full_page.listed (record_of 64)) }
    ensures not_full { IsTrue (covers (codes "c/") (record_of 64) 64 last_page.listed (record_of 80)) }
    ensures before { IsFalse (covers (codes "c/") (record_of 64) 64 last_page.listed (record_of 64)) }
    ensures run { IsTrue (is_scan_run (full_page ∷ last_page ∷ [])) }
    ensures no_pages { IsFalse (is_scan_run []) }
    ensures not_over { IsFalse (is_scan_run (full_page ∷ [])) }
    ensures gap { IsFalse (is_scan_run (full_page ∷ record last_page { after = record_of 66 } ∷ [])) }
    ensures too_far { IsFalse (is_scan_run (full_page ∷ last_page ∷ last_page ∷ [])) }
{}

/// Which histories keep the course of the lines that commit. One that goes by what its caller had found under an
/// older claim keeps each rule of the door, and commits an id twice.
#[tactic(auto, unfolding(crate::proofs::Stored::stored_forms))]
pub fn courses()
    ensures ordinary { KeepsCourse ordinary }
    ensures tried_again { KeepsCourse tried_again }
    ensures tried_legal { Legal tried_again }
    ensures upgraded { KeepsCourse upgraded }
    ensures older_legal { Legal older_gets }
    ensures older_honest { Honest older_gets }
    ensures older_first { Committed first older_gets }
    ensures older_other { Committed other older_gets }
    ensures older_course { KeepsCourse older_gets → ⊥ }
{}
