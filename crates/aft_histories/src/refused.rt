//! Histories that the door may not have, each refused by the rule that is there for it.

ghost use Rattle.std.specs.Prelude.{codes, [], ◌∷◌, ◌++◌, ◌==◌, length, not};
ghost use Rattle.aft_keeper.specs.declared.keeper.KeeperAnswer.TheVariants.{Absent, Done};
ghost use Rattle.aft_model.specs.declared.door.DoorAct.TheVariants.{Opened};
ghost use Rattle.aft_model.specs.Claims.{claim_place, forgotten, holds};
ghost use Rattle.aft_model.specs.DoorKnowledge.{is_untouched, knows_unused, knows_stored, knows_superseded, knows_record_gone, knows_short, knows_versions_gone, shows_first_format};
ghost use Rattle.aft_model.specs.DoorRules.{all_gave_up, is_looked_at, may_claim, may_come_up, may_put_record, may_upgrade};
ghost use Rattle.aft_model.specs.LegalDoor.{Legal, may_come};
ghost use Rattle.aft_model.specs.Membership.{incarnation, is_up, the_office};
ghost use Rattle.aft_model.specs.Readings.{written_in};
ghost use Rattle.aft_model.specs.Opening.{may_open, knows_sound};
ghost use Rattle.aft_histories.specs.Entries.{x, first, second, record_of, marker_of, version_of, written, record_pair, record_by, upgraded_pair, old_record, version_pair, full_pair, done_pair, opening_entry, first_page, gets, puts, deletes, deletes_by, comes_up, claims};
ghost use Rattle.aft_histories.specs.Legal.{empty_opening, full_opening, retired_opening, begun, stored, superseded, marked, forgot, other, other_found};
ghost use Rattle.aft_histories.specs.Illegal.{Refused, half_stored, claimed_after_another, claimed_again, asked_backwards, held, holder_fenced, half_given_up, newest_given_up, record_in_doubt, half_deleted, version_absent, records_shown, up_beside, deleted_before, found_and_let_go, claimed_late, full_found, held_by_node, looked_before};

/// What a transaction may not put.
#[tactic(auto, unfolding(crate::proofs::Stored::stored_forms))]
pub fn puts_refused()
    ensures early_record { Refused (knows_stored (incarnation 1 1) first half_stored) half_stored (puts 1 1 (record_pair first) Done) }
    ensures gets_of_another { Refused (knows_unused (incarnation 2 1) first.id.uuid claimed_after_another) claimed_after_another (puts 2 1 (version_pair x first.id) Done) }
    ensures marker_before_record { Refused (knows_unused (incarnation 1 1) first.id.uuid asked_backwards) asked_backwards (puts 1 1 (version_pair x first.id) Done) }
    ensures first_format { Refused (not (length (written_in (old_record first)) == 0)) stored (puts 1 1 (old_record first) Done) }
    ensures another_node { Refused (may_put_record stored (incarnation 1 1) (written 2 1 [] first)) stored (puts 1 1 (record_by 2 1 first) Done) }
    ensures another_incarnation { Refused (may_put_record stored (incarnation 1 1) (written 1 2 [] first)) stored (puts 1 1 (record_by 1 2 first) Done) }
    // The rule of the door asks for the caller's gets after some claim of its own: that it holds by this claim is the course of its line.
    ensures older_gets { Legal (claimed_again ++ puts 1 1 (version_pair x first.id) Done ∷ []) }
{}

/// What an incarnation may not do at the door.
#[tactic(auto, unfolding(crate::proofs::Stored::stored_forms))]
pub fn callers_refused()
    ensures second_claim { Refused (may_claim held first.id.uuid) held (claims 1 2 1) }
    ensures own_second_claim { Refused (may_claim begun first.id.uuid) begun (claims 1 1 1) }
    ensures fenced_get { Refused (is_up (incarnation 1 1) holder_fenced) holder_fenced (gets 1 1 (record_of 1) Absent) }
    ensures fenced_put { Refused (holds (incarnation 1 1) first.id.uuid holder_fenced) holder_fenced (puts 1 1 (version_pair x first.id) Done) }
    ensures up_again { Refused (may_come_up holder_fenced (incarnation 1 1)) holder_fenced (comes_up 1 1) }
    ensures forgotten_claim { Refused (not (forgotten first.id.uuid forgot)) forgot (claims 1 1 1) }
    ensures up_twice { Refused (may_come_up begun (incarnation 1 2)) begun (comes_up 1 2) }
{}

/// What the collection may not put or delete.
#[tactic(auto, unfolding(crate::proofs::Stored::stored_forms))]
pub fn collection_refused()
    ensures not_given_up { Refused (all_gave_up half_given_up first.id) half_given_up (puts 0 1 (full_pair first) Done) }
    ensures not_superseded { Refused (knows_superseded second newest_given_up) newest_given_up (puts 0 1 (full_pair second) Done) }
    ensures not_marked { Refused (knows_record_gone first.id superseded) superseded (deletes (version_of x first.id) Done) }
    ensures record_still_there { Refused (knows_record_gone first.id marked) marked (deletes (version_of x first.id) Done) }
    ensures record_in_doubt { Refused (knows_record_gone first.id record_in_doubt) record_in_doubt (deletes (version_of x first.id) Done) }
    ensures version_in_doubt { Refused (knows_versions_gone first.id half_deleted) half_deleted (puts 0 1 (done_pair first.id) Done) }
{}

/// What may not come before the door is open, and what does not open it.
#[tactic(auto, unfolding(crate::proofs::Stored::stored_forms))]
pub fn openings_refused()
    ensures up_early { Refused (may_open records_shown (comes_up 1 1)) records_shown (comes_up 1 1) }
    ensures get_early { Refused (may_open records_shown (gets 1 1 (record_of 1) Absent)) records_shown (gets 1 1 (record_of 1) Absent) }
    ensures markers_first { Refused (may_open [] (first_page (codes "r/") [])) [] (first_page (codes "r/") []) }
    ensures markers_unread { Refused (knows_sound records_shown) records_shown (opening_entry Opened) }
    ensures version_absent { Refused (knows_sound version_absent) version_absent (opening_entry Opened) }
    ensures opened_twice { Refused (may_come empty_opening Opened) empty_opening (opening_entry Opened) }
{}

/// Which records the office may not put again.
#[tactic(auto, unfolding(crate::proofs::Stored::stored_forms))]
pub fn upgrades_refused()
    ensures not_shown { Refused (shows_first_format second full_opening) full_opening (puts 0 1 (upgraded_pair second) Done) }
    ensures not_old { Refused (shows_first_format second retired_opening) retired_opening (puts 0 1 (upgraded_pair second) Done) }
    ensures of_a_node { Refused (may_upgrade full_opening the_office (written 1 1 [] first)) full_opening (puts 0 1 (record_pair first) Done) }
    ensures up_beside { Refused (is_untouched up_beside) up_beside (puts 0 1 (upgraded_pair first) Done) }
    ensures deleted_before { Refused (is_untouched deleted_before) deleted_before (puts 0 1 (upgraded_pair first) Done) }
{}

/// Which markers may not be deleted.
#[tactic(auto, unfolding(crate::proofs::Stored::stored_forms))]
pub fn forgets_refused()
    ensures let_go { Refused (holds (incarnation 1 1) first.id.uuid found_and_let_go) found_and_let_go (deletes_by 1 1 (marker_of 1) Done) }
    ensures found_before_claim { Refused (knows_short (incarnation 2 1) first.id.uuid claimed_late) claimed_late (deletes_by 2 1 (marker_of 1) Done) }
    ensures full { Refused (knows_short (incarnation 1 1) first.id.uuid full_found) full_found (deletes_by 1 1 (marker_of 1) Done) }
{}

/// Which versions are no orphans that the office may delete.
#[tactic(auto, unfolding(crate::proofs::Stored::stored_forms))]
pub fn orphans_refused()
    ensures held_by_node { Refused (holds the_office first.id.uuid held_by_node) held_by_node (deletes (version_of x first.id) Done) }
    ensures older_claim { Refused (is_looked_at first.id looked_before (claim_place first.id.uuid looked_before)) looked_before (deletes (version_of x first.id) Done) }
    ensures recorded { Refused (is_looked_at other.id other_found (claim_place other.id.uuid other_found)) other_found (deletes (version_of x other.id) Done) }
{}
