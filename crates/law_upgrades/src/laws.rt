//! Laws of the calls of an upgrade, as calls that do nothing and promise them.

ghost use Rattle.std.specs.Prelude.{◌≡◌, ◌++◌, ℕ, List, None, Ok, Result};
ghost use Rattle.aft_records.specs.declared.stored.Commit.{Commit};
ghost use Rattle.aft_model.specs.declared.door.DoorEntry.{DoorEntry};
ghost use Rattle.aft_model.specs.Bytes.{HasBytes};
ghost use Rattle.aft_model.specs.LegalDoor.{Legal};
ghost use Rattle.aft_lines.specs.UpgradeCourse.{shown_commits};
ghost use Rattle.aft_lines.specs.UpgradeTrace.{IsFinishedUpgrade, UpgradeTrace, upgrade_end};
ghost use Rattle.aft_audit.specs.Audit.{HasOpened, IsRefusedFor};
ghost use Rattle.aft_audit.specs.Upgrading.{Upgrades};
ghost use Rattle.aft_audit.specs.declared.fault.AuditFault.{AuditFault};
ghost use Rattle.law_upgrades.specs.Runs.{TellsEnd, run_at_door};

/// The commits of an audit that opened the door are those that its opening was shown, in the order of their UUIDs: the pages
/// show them in that order. So it stays, whatever else is done at the door.
pub fn commits_stand_in_order()
    ensures opened { (commits : List Commit) (opened : List DoorEntry) → HasOpened commits opened → Legal opened → HasBytes opened → shown_commits opened ≡ commits }
    ensures behind { (commits : List Commit) (opened more : List DoorEntry) → HasOpened commits opened → Legal opened → HasBytes opened → shown_commits (opened ++ more) ≡ commits }
{}

/// Where an audit opened the door, and the upgrade of its commits went on from there, the run that did nothing else is one of an
/// upgrade, and the result tells how it ended. Where it gives the number of puts, the run came to its end.
pub fn upgrades_are_traces()
    ensures trace { (commits : List Commit) (result : Result ℕ AuditFault) (opened history : List DoorEntry) → HasOpened commits opened → Upgrades commits result opened history → Legal history → HasBytes history → UpgradeTrace (run_at_door history) }
    ensures finished { (commits : List Commit) (puts : ℕ) (opened history : List DoorEntry) → HasOpened commits opened → Upgrades commits (Ok puts) opened history → Legal history → HasBytes history → IsFinishedUpgrade (run_at_door history) }
    ensures end { (commits : List Commit) (result : Result ℕ AuditFault) (opened history : List DoorEntry) → HasOpened commits opened → Upgrades commits result opened history → Legal history → HasBytes history → TellsEnd result (upgrade_end (run_at_door history)) }
{}

/// Where an audit refused to open the door, the run that did nothing else is the beginning of one of an upgrade, which has no end.
pub fn refusals_are_traces()
    ensures trace { (fault : AuditFault) (history : List DoorEntry) → IsRefusedFor fault history → Legal history → HasBytes history → UpgradeTrace (run_at_door history) }
    ensures end { (fault : AuditFault) (history : List DoorEntry) → IsRefusedFor fault history → Legal history → HasBytes history → upgrade_end (run_at_door history) ≡ None }
{}
