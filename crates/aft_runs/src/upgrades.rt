//! Runs of an upgrade, and others, which are refused.

ghost use Rattle.std.specs.Prelude.{◌≡◌, [], ◌∷◌, ◌++◌, None, Some, true, IsFalse};
ghost use Rattle.aft_lines.specs.Headline.{Headline};
ghost use Rattle.aft_lines.specs.UpgradeTrace.{CallFailed, HasUpgraded, IsFinishedUpgrade, LeavesUpgraded, ShowsNoRecord, UpgradeTrace, is_upgraded, upgrade_end, upgrades_in_order};
ghost use Rattle.aft_model.specs.Honest.{Honest};
ghost use Rattle.aft_runs.specs.Lines.{opening};
ghost use Rattle.aft_runs.specs.Pinned.{newer, older};
ghost use Rattle.aft_runs.specs.Reads.{x_hi};
ghost use Rattle.aft_runs.specs.Upgrades.{NoUpgradeBy, Door, NoLine, Course, a_line, cut_short, fails_get, finds_no_record, goes_on, node_up_by, nothing_old, old, put_as_it_was, put_failed, upgraded, upgraded_again, upgrades_one, upgrades_two};
ghost use Rattle.aft_runs.specs.Words.{commit_of};

/// Each record of the first format is put in the second one; a run may end before, and then isn't finished.
#[tactic(auto, unfolding(aft_histories::proofs::Stored::stored_forms))]
pub fn store_upgraded()
    ensures upgrade { UpgradeTrace upgraded }
    ensures finished { IsFinishedUpgrade upgraded }
    ensures honest { Honest upgraded.trace.door }
    ensures cut_short { UpgradeTrace cut_short }
    ensures not_finished { IsFalse (upgrades_in_order true cut_short) }
    ensures nothing_old { IsFinishedUpgrade nothing_old }
    ensures one_put { upgrade_end upgraded ≡ Some (HasUpgraded 1) }
    ensures none_put { upgrade_end nothing_old ≡ Some (HasUpgraded 0) }
    ensures no_end { upgrade_end cut_short ≡ None }
    ensures leaves { LeavesUpgraded upgraded }
    ensures promise { Headline upgraded.trace }
{}

/// A call that fails stops an upgrade, and so does a get that shows no record, whose name is told. Behind a failed put either format may be there.
#[tactic(auto, unfolding(aft_histories::proofs::Stored::stored_forms))]
pub fn upgrades_stopped()
    ensures get_failed { NoUpgradeBy [] fails_get }
    ensures get_told { upgrade_end fails_get ≡ Some CallFailed }
    ensures no_record { NoUpgradeBy [] finds_no_record }
    ensures name_told { upgrade_end finds_no_record ≡ Some (ShowsNoRecord old.name) }
    ensures put_failed { NoUpgradeBy [] put_failed }
    ensures put_told { upgrade_end put_failed ≡ Some CallFailed }
    ensures either { IsFalse (is_upgraded put_failed.trace.door (commit_of x_hi)) }
    ensures goes_on { NoUpgradeBy (Course ∷ []) goes_on }
{}

/// No record is put twice, or as it was, they are put in the order of their UUIDs, and no node comes up.
#[tactic(auto, unfolding(aft_histories::proofs::Stored::stored_forms))]
pub fn upgrades_refused()
    ensures again { NoUpgradeBy (Door ∷ Course ∷ []) upgraded_again }
    ensures as_it_was { NoUpgradeBy (Door ∷ Course ∷ []) put_as_it_was }
    ensures in_order { NoUpgradeBy [] (upgrades_two (upgrades_one older ++ upgrades_one newer)) }
    ensures backwards { NoUpgradeBy (Course ∷ []) (upgrades_two (upgrades_one newer ++ upgrades_one older)) }
    ensures first_alone { IsFalse (upgrades_in_order true (upgrades_two (upgrades_one older))) }
    ensures node_up { NoUpgradeBy (Course ∷ []) (node_up_by opening) }
    ensures node_up_for_line { NoUpgradeBy (NoLine ∷ []) (node_up_by a_line) }
{}
