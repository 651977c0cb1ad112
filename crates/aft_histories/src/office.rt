//! What the office may do: the rounds of the fault manager, and the collections.

ghost use Rattle.std.specs.Prelude.{◌≡◌, ◌+◌, [], ◌∷◌, length, Some, None, is_some, is_none, nat_le};
ghost use Rattle.std.specs.List.{list_all};
ghost use Rattle.aft_model.specs.declared.office.OfficeAct.TheVariants.{Nothing, Round, Posted, Collecting, Collected};
ghost use Rattle.aft_model.specs.declared.reply.Reply.TheVariants as reply;
ghost use Rattle.aft_records.specs.Commits.{is_among};
ghost use Rattle.aft_model.specs.Committed.{committed};
ghost use Rattle.aft_model.specs.LegalDoor.{Legal};
ghost use Rattle.aft_model.specs.Office.{heard, runs, last_round, is_run_by, may_end_with, may_act, may_answer_alone, are_among, records_run, LegalOffice};
ghost use Rattle.aft_model.specs.Replies.{is_silent, is_answer};
ghost use Rattle.aft_model.specs.ScanRun.{is_scan_run};
ghost use Rattle.aft_histories.specs.Entries.{first, second};
ghost use Rattle.aft_histories.specs.Legal.{empty_opening, full_opening};
ghost use Rattle.aft_histories.specs.Office.{third, three_committed, scanned, half_scanned, scanned_by_two, scanned_by_node, manager, another, sees, does, rounded, managed, not_posted, missed_both, collects, collected, answered_alone, OfficeRefuses, RoundRefused};

/// A manager's round, with room in the boxes and without, two collections, and the answers of a round of orphan
/// versions and of a copy.
#[tactic(auto, unfolding(crate::proofs::Stored::stored_forms))]
pub fn legal_office()
    ensures door { Legal scanned }
    ensures none { LegalOffice empty_opening [] }
    ensures rounded { LegalOffice scanned rounded }
    ensures managed { LegalOffice scanned managed }
    ensures not_posted { LegalOffice scanned not_posted }
    ensures missed_both { LegalOffice scanned missed_both }
    ensures collects { LegalOffice scanned collects }
    ensures collected { LegalOffice scanned collected }
    ensures answered_alone { LegalOffice scanned answered_alone }
{}

/// Of which commits the office has heard, and whose collection runs.
#[tactic(auto, unfolding(crate::proofs::Stored::stored_forms))]
pub fn office_facts()
    ensures heard_first { heard scanned [] ≡ first.id ∷ [] }
    ensures heard_all { heard scanned managed ≡ first.id ∷ second.id ∷ third.id ∷ [] }
    ensures heard_posted { heard scanned not_posted ≡ first.id ∷ second.id ∷ [] }
    ensures none_runs { runs rounded ≡ None }
    ensures one_runs { runs collects ≡ Some manager }
    ensures none_left { runs collected ≡ None }
{}

/// What a manager's round may not say.
#[tactic(auto, unfolding(crate::proofs::Stored::stored_forms))]
pub fn rounds_refused()
    ensures missed_what_was_heard { RoundRefused scanned [] (second ∷ []) (second ∷ third ∷ []) }
    ensures missed_at_opening { RoundRefused scanned [] (second ∷ []) (first ∷ third ∷ []) }
    ensures missed_again { RoundRefused scanned managed [] (third ∷ []) }
    ensures not_missed { RoundRefused scanned [] (second ∷ []) [] }
    ensures other_order { RoundRefused scanned [] [] (third ∷ second ∷ []) }
    ensures not_committed { OfficeRefuses (is_among third (committed full_opening)) full_opening [] (sees (length full_opening) manager (Round (third ∷ []) []) None) }
    ensures not_whole { OfficeRefuses (is_scan_run (records_run manager half_scanned)) half_scanned [] (sees (length half_scanned) manager (Round (second ∷ []) []) None) }
    ensures run_of_two { OfficeRefuses (is_scan_run (records_run manager scanned_by_two)) scanned_by_two [] (sees (length scanned_by_two) manager (Round (second ∷ []) []) None) }
    ensures run_of_another { OfficeRefuses (is_scan_run (records_run another scanned)) scanned [] (does another (Round (second ∷ []) (third ∷ [])) None) }
    ensures run_of_a_node { OfficeRefuses (is_scan_run (records_run manager scanned_by_node)) scanned_by_node [] (sees (length scanned_by_node) manager (Round (second ∷ []) (third ∷ [])) None) }
    ensures run_not_seen { OfficeRefuses (is_scan_run (records_run manager three_committed)) scanned [] (sees (length three_committed) manager (Round (second ∷ []) (third ∷ [])) None) }
    ensures beyond_the_door { OfficeRefuses (nat_le (length scanned + 1) (length scanned)) scanned [] (sees (length scanned + 1) manager (Round (second ∷ []) (third ∷ [])) None) }
    ensures with_an_answer { OfficeRefuses (is_silent (Some (reply.Managed 1 1))) scanned [] (does manager (Round (second ∷ []) (third ∷ [])) (Some (reply.Managed 1 1))) }
{}

/// What may not count as posted.
#[tactic(auto, unfolding(crate::proofs::Stored::stored_forms))]
pub fn posts_refused()
    ensures not_missed { OfficeRefuses (are_among (second.id ∷ []) (third.id ∷ [])) scanned rounded (does manager (Posted (second.id ∷ [])) (Some (reply.Managed 1 1))) }
    ensures twice { OfficeRefuses (are_among (third.id ∷ third.id ∷ []) (third.id ∷ [])) scanned rounded (does manager (Posted (third.id ∷ third.id ∷ [])) (Some (reply.Managed 1 1))) }
    ensures other_order { OfficeRefuses (are_among (third.id ∷ second.id ∷ []) (second.id ∷ third.id ∷ [])) scanned missed_both (does manager (Posted (third.id ∷ second.id ∷ [])) (Some (reply.Managed 0 2))) }
    ensures other_line { OfficeRefuses (is_some (last_round another rounded)) scanned rounded (does another (Posted (third.id ∷ [])) (Some (reply.Managed 1 1))) }
    ensures other_count { OfficeRefuses (is_answer (reply.Managed 1 1) (Some (reply.Managed 1 0))) scanned rounded (does manager (Posted []) (Some (reply.Managed 1 0))) }
    ensures no_answer { OfficeRefuses (is_answer (reply.Managed 1 1) None) scanned rounded (does manager (Posted (third.id ∷ [])) None) }
{}

/// What a collection may not do, and that fronts don't fall.
#[tactic(auto, unfolding(crate::proofs::Stored::stored_forms))]
pub fn collections_refused()
    ensures second { OfficeRefuses (is_none (runs collects)) scanned collects (does another Collecting None) }
    ensures own_second { OfficeRefuses (is_none (runs collects)) scanned collects (does manager Collecting None) }
    ensures ended_by_another { OfficeRefuses (is_run_by another (runs collects)) scanned collects (does another Collected (Some (reply.Collected []))) }
    ensures none_runs { OfficeRefuses (is_run_by manager (runs collected)) scanned collected (does manager Collected (Some (reply.Collected []))) }
    ensures no_answer { OfficeRefuses (may_end_with None) scanned collects (does manager Collected None) }
    ensures other_answer { OfficeRefuses (may_end_with (Some reply.Collecting)) scanned collects (does manager Collected (Some reply.Collecting)) }
    ensures begun_with_an_answer { OfficeRefuses (is_silent (Some reply.Collecting)) scanned [] (does manager Collecting (Some reply.Collecting)) }
    ensures nothing_without_answer { OfficeRefuses (may_act [] manager Nothing None) scanned [] (does manager Nothing None) }
    ensures nothing_with_a_collection { OfficeRefuses (may_answer_alone (Some (reply.Collected []))) scanned [] (does manager Nothing (Some (reply.Collected []))) }
    ensures front_falls { OfficeRefuses (list_all (λ earlier. nat_le earlier.front 4) rounded) scanned rounded (sees 4 another Nothing (Some reply.NoMemory)) }
{}
