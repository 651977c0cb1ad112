//! Laws of orphan versions, as calls that do nothing and promise them.

ghost use Rattle.std.specs.Prelude.{List};
ghost use Rattle.aft_model.specs.declared.door.DoorEntry.{DoorEntry};
ghost use Rattle.aft_model.specs.Honest.{Honest};
ghost use Rattle.aft_model.specs.Orphans.{DeletesOrphans};
ghost use Rattle.aft_lines.specs.Asked.{Asked, Ran};
ghost use Rattle.aft_lines.specs.LegalTrace.{LegalTrace};
ghost use Rattle.aft_lines.specs.RunsSoFar.{RunsSoFar};
ghost use Rattle.law_kept.specs.Kept.{Lawful};
ghost use Rattle.law_orphans.specs.Rounds.{RoundsDeleteOrphans};

/// Each version that is deleted by the rule on orphan versions is an orphan at that moment: no commit of its id is committed, and no
/// incarnation of a node that is up holds its UUID. So it is in each lawful history of the door, and in each run so far and each legal
/// trace of a store that keeps what it acknowledged.
pub fn orphans_are_deleted()
    ensures door { (history : List DoorEntry) → Lawful history → DeletesOrphans history }
    ensures so_far { (asked : Asked) (ran : Ran) → RunsSoFar asked ran → Honest ran.trace.door → DeletesOrphans ran.trace.door }
    ensures legal { (asked : Asked) (ran : Ran) → LegalTrace asked ran → Honest ran.trace.door → DeletesOrphans ran.trace.door }
{}

/// So in each run so far and each legal trace of such a store, each delete by a line that asks for a round of orphans is of a version, by
/// that rule, and the version is an orphan at that moment.
pub fn rounds_delete_orphans()
    ensures so_far { (asked : Asked) (ran : Ran) → RunsSoFar asked ran → Honest ran.trace.door → RoundsDeleteOrphans asked ran }
    ensures legal { (asked : Asked) (ran : Ran) → LegalTrace asked ran → Honest ran.trace.door → RoundsDeleteOrphans asked ran }
{}
