//! The parts of the promise, as calls that do nothing and promise them.

ghost use Rattle.std.specs.Prelude.{◌≡◌, ◌++◌, ℕ, IsTrue, List, []};
ghost use Rattle.aft_keeper.specs.declared.keeper.Pair.{Pair};
ghost use Rattle.aft_keeper.specs.Contents.{IsContents};
ghost use Rattle.aft_model.specs.declared.door.DoorEntry.{DoorEntry};
ghost use Rattle.aft_model.specs.declared.reply.Reply.TheVariants.{Damaged};
ghost use Rattle.aft_model.specs.declared.script.Line.{Line};
ghost use Rattle.aft_model.specs.Contents.{GoesAlong};
ghost use Rattle.aft_model.specs.DoorKnowledge.{is_open};
ghost use Rattle.aft_model.specs.Honest.{Honest};
ghost use Rattle.aft_model.specs.Sound.{Sound};
ghost use Rattle.aft_model.proofs.Histories.{In};
ghost use Rattle.aft_lines.specs.Asked.{Asked, Ran};
ghost use Rattle.aft_lines.specs.CausesScans.{damaged_names};
ghost use Rattle.aft_lines.specs.FinishedText.{answers_of, line_of};
ghost use Rattle.aft_lines.specs.Headline as headline;
ghost use Rattle.aft_lines.specs.KeepsIds.{KeepsIds};
ghost use Rattle.aft_lines.specs.LegalTrace.{LegalTrace};
ghost use Rattle.aft_lines.specs.Lines.{lines};
ghost use Rattle.aft_lines.specs.RunsSoFar.{RunsSoFar};
ghost use Rattle.aft_lines.specs.Views.{view_of};
ghost use Rattle.law_kept.specs.Kept.{Lawful};
ghost use Rattle.law_promise.specs.Looking.{looks_at_ids};

/// Where the store keeps what it acknowledged, the door's history of a run so far, and of a legal trace, is lawful.
pub fn doors_are_lawful()
    ensures so_far { (asked : Asked) (ran : Ran) → RunsSoFar asked ran → Honest ran.trace.door → Lawful ran.trace.door }
    ensures legal { (asked : Asked) (ran : Ran) → LegalTrace asked ran → Honest ran.trace.door → Lawful ran.trace.door }
{}

/// Each UUID has one commit then, and no record of a used UUID is put by a node.
pub fn ids_commit_once()
    ensures so_far { (asked : Asked) (ran : Ran) → RunsSoFar asked ran → Honest ran.trace.door → IsTrue (headline.commits_once ran.trace) }
    ensures legal { (asked : Asked) (ran : Ran) → LegalTrace asked ran → Honest ran.trace.door → IsTrue (headline.commits_once ran.trace) }
{}

/// At each moment each commit that isn't superseded is whole then, and each acknowledged commit is one.
pub fn whole_until_superseded()
    ensures so_far { (asked : Asked) (ran : Ran) → RunsSoFar asked ran → Honest ran.trace.door → IsTrue (headline.whole_until_superseded ran.trace) }
    ensures legal { (asked : Asked) (ran : Ran) → LegalTrace asked ran → Honest ran.trace.door → IsTrue (headline.whole_until_superseded ran.trace) }
{}

/// Where the store tells its contents, and these go along with what the door's history has had so far, it keeps what it
/// acknowledged; and once the door is open they are sound.
pub fn contents_stay_sound()
    ensures so_far { (asked : Asked) (ran : Ran) (at_first now held : List Pair) (front back : List DoorEntry) → RunsSoFar asked ran → IsContents at_first → GoesAlong at_first ran.trace.door held → ran.trace.door ≡ front ++ back → IsTrue (is_open front) → GoesAlong at_first front now → Sound now }
    ensures legal { (asked : Asked) (ran : Ran) (at_first now held : List Pair) (front back : List DoorEntry) → LegalTrace asked ran → IsContents at_first → GoesAlong at_first ran.trace.door held → ran.trace.door ≡ front ++ back → IsTrue (is_open front) → GoesAlong at_first front now → Sound now }
{}

/// And behind each entry they have a record or a marker of each UUID that was used and isn't forgotten: so a later run finds that
/// it was used, and it commits no more until it is forgotten.
pub fn ids_stay_closed()
    ensures so_far { (asked : Asked) (ran : Ran) (at_first : List Pair) → RunsSoFar asked ran → Honest ran.trace.door → IsContents at_first → KeepsIds at_first ran.trace.door }
    ensures legal { (asked : Asked) (ran : Ran) (at_first : List Pair) → LegalTrace asked ran → Honest ran.trace.door → IsContents at_first → KeepsIds at_first ran.trace.door }
{}

/// Lines that get records and markers alone, and judge no page, are shown no damage, and so they don't answer that something is
/// damaged: begins, forgets and rounds of orphans, and lines that ask the store nothing.
pub fn ids_are_undamaged()
    ensures shown { (asked : Asked) (ran : Ran) (line : Line) → RunsSoFar asked ran → Honest ran.trace.door → In line (lines asked) → IsTrue (looks_at_ids line.order) → damaged_names (view_of asked ran line) ≡ [] }
    ensures told { (asked : Asked) (ran : Ran) (line : Line) (name : List ℕ) → LegalTrace asked ran → Honest ran.trace.door → In line (lines asked) → IsTrue (looks_at_ids line.order) → In (Damaged name) (answers_of (line_of line) ran) → ⊥ }
{}
