//! Laws of refused runs and of upgrades, as calls that do nothing and promise them.

ghost use Rattle.std.specs.Prelude.{◌≡◌, ◌++◌, List, IsTrue};
ghost use Rattle.aft_keeper.specs.declared.keeper.Pair.{Pair};
ghost use Rattle.aft_keeper.specs.Contents.{IsContents};
ghost use Rattle.aft_model.specs.declared.door.DoorEntry.{DoorEntry};
ghost use Rattle.aft_model.specs.Bytes.{HasBytes};
ghost use Rattle.aft_model.specs.Contents.{GoesAlong};
ghost use Rattle.aft_model.specs.DoorKnowledge.{is_open};
ghost use Rattle.aft_model.specs.Honest.{Honest};
ghost use Rattle.aft_model.specs.LegalDoor.{Legal};
ghost use Rattle.aft_model.specs.Sound.{Sound};
ghost use Rattle.aft_lines.specs.Asked.{Asked, Ran};
ghost use Rattle.aft_lines.specs.Headline.{KeepsPromise};
ghost use Rattle.aft_lines.specs.KeepsIds.{KeepsIds};
ghost use Rattle.aft_lines.specs.RefusedTrace.{RefusedTrace};
ghost use Rattle.aft_lines.specs.UpgradeTrace.{IsFinishedUpgrade, LeavesUpgraded, UpgradeTrace};
ghost use Rattle.law_kept.specs.Kept.{Lawful};
ghost use Rattle.law_refused.specs.Looks.{only_boots, only_looks};
ghost use Rattle.law_refused.specs.Upgrades.{only_upgrades};

/// A run in which no line runs only looks through the door, and its nodes only boot.
pub fn refused_only_look()
    ensures door { (asked : Asked) (ran : Ran) → RefusedTrace asked ran → IsTrue (only_looks ran.trace.door) }
    ensures nodes { (asked : Asked) (ran : Ran) → RefusedTrace asked ran → IsTrue (only_boots ran.trace.nodes) }
{}

/// A history of the door that only looks is lawful, where it is legal and made of bytes, and the store keeps what it
/// acknowledged: nothing is put out of its stage, and nothing is retired.
pub fn lookers_are_lawful()
    ensures { (history : List DoorEntry) → Legal history → HasBytes history → Honest history → IsTrue (only_looks history) → Lawful history }
{}

/// So a run in which no line runs keeps each part of the promise.
pub fn refused_runs_keep_the_promise()
    ensures { (asked : Asked) (ran : Ran) → RefusedTrace asked ran → KeepsPromise ran.trace }
{}

/// A run of an upgrade, wherever it ended, only looks through the door, and puts records in the second format as the office.
pub fn upgrades_only_upgrade()
    ensures { (ran : Ran) → UpgradeTrace ran → IsTrue (only_upgrades ran.trace.door) }
{}

/// A history of the door that only does so is lawful, where it is legal and made of bytes, and the store keeps what it
/// acknowledged: the office puts records where nobody has claimed anything, and nothing is retired.
pub fn upgraders_are_lawful()
    ensures { (history : List DoorEntry) → Legal history → HasBytes history → Honest history → IsTrue (only_upgrades history) → Lawful history }
{}

/// So a run of an upgrade, wherever it ended, keeps each part of the promise.
pub fn upgrades_keep_the_promise()
    ensures { (ran : Ran) → UpgradeTrace ran → KeepsPromise ran.trace }
{}

/// And one that came to its end leaves each commit that its opening was shown whole, with its record surely there in one text,
/// which is of the second format.
pub fn finished_upgrades_leave_upgraded()
    ensures { (ran : Ran) → UpgradeTrace ran → IsFinishedUpgrade ran → Honest ran.trace.door → LeavesUpgraded ran }
{}

/// Where the store tells its contents, and these go along with what the door's history of such runs has had so far, they are
/// sound once the door is open, behind each call.
pub fn contents_are_sound_throughout()
    ensures refused { (asked : Asked) (ran : Ran) (at_first now held : List Pair) (front back : List DoorEntry) → RefusedTrace asked ran → IsContents at_first → GoesAlong at_first ran.trace.door held → ran.trace.door ≡ front ++ back → IsTrue (is_open front) → GoesAlong at_first front now → Sound now }
    ensures upgrade { (ran : Ran) (at_first now held : List Pair) (front back : List DoorEntry) → UpgradeTrace ran → IsContents at_first → GoesAlong at_first ran.trace.door held → ran.trace.door ≡ front ++ back → IsTrue (is_open front) → GoesAlong at_first front now → Sound now }
{}

/// And behind each entry of such runs they have a record or a marker of each UUID that was used and isn't forgotten: so a later
/// run finds that it was used.
pub fn used_ids_stay_closed()
    ensures refused { (asked : Asked) (ran : Ran) (at_first : List Pair) → RefusedTrace asked ran → Honest ran.trace.door → IsContents at_first → KeepsIds at_first ran.trace.door }
    ensures upgrade { (ran : Ran) (at_first : List Pair) → UpgradeTrace ran → Honest ran.trace.door → IsContents at_first → KeepsIds at_first ran.trace.door }
{}
