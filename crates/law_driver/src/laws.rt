//! Laws of drivers, as calls that do nothing and promise them.

ghost use Rattle.std.specs.Prelude.{◌≡◌, Bool, IsFalse, IsTrue, None, Option, ◌++◌, ◌∷◌, [], false, length};
ghost use Rattle.aft_model.specs.declared.caller.Hold.{Hold};
ghost use Rattle.aft_model.specs.declared.door.DoorAct.{DoorAct};
ghost use Rattle.aft_model.specs.declared.node.NodeAct.{NodeAct};
ghost use Rattle.aft_model.specs.declared.reply.Reply.{Reply};
ghost use Rattle.aft_model.specs.declared.script.Line.{Line};
ghost use Rattle.aft_model.specs.Bytes.{HasBytes};
ghost use Rattle.aft_model.specs.LegalDoor.{Legal};
ghost use Rattle.aft_model.specs.LegalNode.{LegalNode};
ghost use Rattle.aft_model.specs.ScanRun.{same_line};
ghost use Rattle.aft_ledger.specs.View.{NodeView};
ghost use Rattle.aft_lines.specs.Asked.{Asked, Ran};
ghost use Rattle.aft_lines.specs.FinishedText.{line_of};
ghost use Rattle.aft_lines.specs.Lines.{hold_before, lines, whole_order};
ghost use Rattle.aft_lines.specs.Turns.{AtDoor};
ghost use Rattle.aft_turns.specs.Steps.{FrontsWithin, entry_of};
ghost use Rattle.aft_turns.specs.Trail.{Trail, behind, looking, no_trail};
ghost use Rattle.law_accounts.specs.Account.{Account, MayGoOn, Runs, Stand, Waits};
ghost use Rattle.law_accounts.specs.Adding.{AddsAtDoor, Added, maker_of, with_added};
ghost use Rattle.law_driver.specs.Driven.{AllAtOneNode, Driven, IsNode, Promises, RanksLast, is_at_one_node};
ghost use Rattle.law_driver.specs.Kept.{StandsNow, behind_node, door_entry, with_node, with_stand};

/// A line that waits, whose client's earlier lines are over, may begin, with no turn.
pub fn lines_begin()
    ensures { (asked : Asked) (ran : Ran) (stand : Line → Stand) (line : Line) (hold : Hold) → Account asked ran stand → MayGoOn asked stand line → stand line ≡ Waits → IsTrue (is_at_one_node line.order) → hold_before (lines asked) ran.trace line ≡ hold → RanksLast asked ran (line_of line) → Driven asked ran (with_stand line Runs stand) line hold no_trail }
{}

/// A machine's turn at its node, which has seen all that is at the door, keeps the account: the line runs on behind it, or is over.
pub fn node_turns_keep()
    ensures { (asked : Asked) (ran : Ran) (stand : Line → Stand) (line : Line) (hold : Hold) (trail : Trail) (node : NodeView) (act : NodeAct) (answer : Option Reply) (done : Bool) → AllAtOneNode asked → Driven asked ran stand line hold trail → IsNode asked ran node → LegalNode node.number node.capacity (node.history ++ entry_of (line_of line) (length ran.trace.door) node act answer ∷ []) → Promises (line_of line) line.order hold asked.settings.cache asked.clock done (behind_node ran line node act answer trail) → StandsNow done asked (with_node ran line node act answer) stand line hold (behind_node ran line node act answer trail) }
{}

/// So does its turn at the door, which makes an entry or looks at it as it is, and behind which the line runs on.
pub fn door_turns_keep()
    ensures acts { (asked : Asked) (ran : Ran) (stand : Line → Stand) (line : Line) (hold : Hold) (trail : Trail) (act : DoorAct) → Driven asked ran stand line hold trail → Legal (ran.trace.door ++ door_entry line act ∷ []) → HasBytes (ran.trace.door ++ door_entry line act ∷ []) → Promises (line_of line) line.order hold asked.settings.cache asked.clock false (behind trail (AtDoor (length ran.trace.door) act)) → Driven asked (with_added (AddsAtDoor (door_entry line act)) ran) stand line hold (behind trail (AtDoor (length ran.trace.door) act)) }
    ensures looks { (asked : Asked) (ran : Ran) (stand : Line → Stand) (line : Line) (hold : Hold) (trail : Trail) → Driven asked ran stand line hold trail → Driven asked ran stand line hold (looking trail ran.trace.door) }
    ensures fronts { (asked : Asked) (ran : Ran) (stand : Line → Stand) (line : Line) (hold : Hold) (trail : Trail) → Driven asked ran stand line hold trail → FrontsWithin ran.trace.door trail.turns }
{}

/// A line that runs stands as it did behind the turns of others, where lines don't run whole.
pub fn others_stay()
    ensures { (asked : Asked) (ran : Ran) (stand later : Line → Stand) (line other : Line) (hold : Hold) (trail : Trail) (added : Added) → Driven asked ran stand line hold trail → MayGoOn asked stand other → maker_of added ≡ line_of other → IsFalse (same_line (line_of line) (line_of other)) → whole_order asked ≡ None → Account asked (with_added added ran) later → MayGoOn asked later line → later line ≡ Runs → RanksLast asked (with_added added ran) (line_of line) → Driven asked (with_added added ran) later line hold trail }
{}
