//! Laws of clients side by side, as calls that do nothing and promise them.

ghost use Rattle.std.specs.Prelude.{◌≡◌, ℕ, Bool, IsTrue, List, Option, Some, None, ◌++◌, ◌∷◌, [], false, true, length};
ghost use Rattle.aft_model.proofs.Histories.{In};
ghost use Rattle.aft_model.specs.declared.caller.Hold.{Hold};
ghost use Rattle.aft_model.specs.declared.door.DoorAct.{DoorAct};
ghost use Rattle.aft_model.specs.declared.node.NodeAct.{NodeAct};
ghost use Rattle.aft_model.specs.declared.reply.Reply.{Reply};
ghost use Rattle.aft_model.specs.declared.script.Line.{Line};
ghost use Rattle.aft_model.specs.declared.script.Order.{Order};
ghost use Rattle.aft_model.specs.declared.script.Step.{Step};
ghost use Rattle.aft_model.specs.History.{first_of};
ghost use Rattle.aft_model.specs.Bytes.{HasBytes};
ghost use Rattle.aft_model.specs.LegalDoor.{Legal};
ghost use Rattle.aft_model.specs.LegalNode.{LegalNode};
ghost use Rattle.aft_ledger.specs.View.{NodeView};
ghost use Rattle.aft_lines.specs.Asked.{Asked, Ran};
ghost use Rattle.aft_lines.specs.FinishedText.{line_of};
ghost use Rattle.aft_lines.specs.LegalTrace.{LegalTrace, are_asks};
ghost use Rattle.aft_lines.specs.Lines.{lines};
ghost use Rattle.aft_lines.specs.Turns.{AtDoor};
ghost use Rattle.aft_turns.specs.Steps.{entry_of};
ghost use Rattle.aft_turns.specs.Trail.{Trail, behind, looking, no_trail};
ghost use Rattle.law_held.specs.Desk.{LinesDiffer, is_script};
ghost use Rattle.law_accounts.specs.Account.{IsDone, Runs, Stand, Waits};
ghost use Rattle.law_accounts.specs.Adding.{AddsAtDoor, with_added};
ghost use Rattle.aft_lines.specs.Opened.{Opened};
ghost use Rattle.law_clients.specs.Clients.{Busy, ComesInTurn, Crowd, Idle, IsNext, Seat, first_seat, held_behind, with_seat};
ghost use Rattle.law_clients.specs.Words.{WordsLeft, waiting, waiting_of};
ghost use Rattle.law_driver.specs.Driven.{AllAtOneNode, IsNode, Promises};
ghost use Rattle.law_driver.specs.Kept.{behind_node, door_entry, with_node, with_stand};

/// Behind an opening each client sits idle, and holds node 1 and no attempt.
pub fn clients_sit()
    ensures { (asked : Asked) (ran : Ran) (order : Order) → IsTrue (is_script asked.script.lines) → asked.asks ≡ [] → asked.order ≡ Some order → Opened asked ran → Crowd asked ran (λ line. Waits) first_seat }
{}

/// The next line of a client that sits idle may begin, where it comes in its order.
pub fn clients_begin()
    ensures { (asked : Asked) (ran : Ran) (stand : Line → Stand) (seats : ℕ → Seat) (line : Line) (hold : Hold) → asked.asks ≡ [] → AllAtOneNode asked → Crowd asked ran stand seats → seats line.client ≡ Idle hold → IsNext asked stand line → ComesInTurn asked stand line → Crowd asked ran (with_stand line Runs stand) (with_seat line.client (Busy hold line no_trail) seats) }
{}

/// A machine's turn at its node, which has seen all that is at the door, keeps the crowd: its line runs on behind it, or is over,
/// and its client holds what that gives.
pub fn clients_step()
    ensures on { (asked : Asked) (ran : Ran) (stand : Line → Stand) (seats : ℕ → Seat) (line : Line) (hold : Hold) (trail : Trail) (node : NodeView) (act : NodeAct) (answer : Option Reply) → asked.asks ≡ [] → AllAtOneNode asked → Crowd asked ran stand seats → seats line.client ≡ Busy hold line trail → IsNode asked ran node → LegalNode node.number node.capacity (node.history ++ entry_of (line_of line) (length ran.trace.door) node act answer ∷ []) → Promises (line_of line) line.order hold asked.settings.cache asked.clock false (behind_node ran line node act answer trail) → Crowd asked (with_node ran line node act answer) stand (with_seat line.client (Busy hold line (behind_node ran line node act answer trail)) seats) }
    ensures over { (asked : Asked) (ran : Ran) (stand : Line → Stand) (seats : ℕ → Seat) (line : Line) (hold : Hold) (trail : Trail) (node : NodeView) (act : NodeAct) (answer : Option Reply) (order : Order) → IsTrue (is_script asked.script.lines) → asked.asks ≡ [] → asked.order ≡ Some order → AllAtOneNode asked → Crowd asked ran stand seats → seats line.client ≡ Busy hold line trail → IsNode asked ran node → LegalNode node.number node.capacity (node.history ++ entry_of (line_of line) (length ran.trace.door) node act answer ∷ []) → Promises (line_of line) line.order hold asked.settings.cache asked.clock true (behind_node ran line node act answer trail) → Crowd asked (with_node ran line node act answer) (with_stand line IsDone stand) (with_seat line.client (Idle (held_behind hold line (behind_node ran line node act answer trail).turns)) seats) }
{}

/// So does its turn at the door that makes an entry,
pub fn clients_act()
    ensures { (asked : Asked) (ran : Ran) (stand : Line → Stand) (seats : ℕ → Seat) (line : Line) (hold : Hold) (trail : Trail) (act : DoorAct) → asked.asks ≡ [] → Crowd asked ran stand seats → seats line.client ≡ Busy hold line trail → Legal (ran.trace.door ++ door_entry line act ∷ []) → HasBytes (ran.trace.door ++ door_entry line act ∷ []) → Promises (line_of line) line.order hold asked.settings.cache asked.clock false (behind trail (AtDoor (length ran.trace.door) act)) → Crowd asked (with_added (AddsAtDoor (door_entry line act)) ran) stand (with_seat line.client (Busy hold line (behind trail (AtDoor (length ran.trace.door) act))) seats) }
{}

/// and one that makes none.
pub fn clients_look()
    ensures { (asked : Asked) (ran : Ran) (stand : Line → Stand) (seats : ℕ → Seat) (line : Line) (hold : Hold) (trail : Trail) → Crowd asked ran stand seats → seats line.client ≡ Busy hold line trail → Crowd asked ran stand (with_seat line.client (Busy hold line (looking trail ran.trace.door)) seats) }
{}

/// Where each line is over, the trace is legal.
pub fn clients_end()
    ensures { (asked : Asked) (ran : Ran) (stand : Line → Stand) (seats : ℕ → Seat) → Crowd asked ran stand seats → ((line : Line) → In line (lines asked) → stand line ≡ IsDone) → LegalTrace asked ran }
{}

/// At first all words of an order are left.
pub fn words_begin()
    ensures { (asked : Asked) (order : Order) → asked.asks ≡ [] → asked.order ≡ Some order → WordsLeft asked (λ line. Waits) order.words }
{}

/// The line that the next word runs comes in its order, and once it is over the other words are left; a word whose client has no
/// line that waits runs none.
pub fn words_run_in_order()
    ensures comes { (asked : Asked) (stand : Line → Stand) (word : Step) (rest : List Step) (line : Line) → IsTrue (is_script asked.script.lines) → LinesDiffer asked → WordsLeft asked stand (word ∷ rest) → first_of (waiting_of word.client stand asked.script.lines) ≡ Some line → ComesInTurn asked stand line }
    ensures left { (asked : Asked) (stand : Line → Stand) (word : Step) (rest : List Step) (line : Line) → IsTrue (is_script asked.script.lines) → LinesDiffer asked → WordsLeft asked stand (word ∷ rest) → first_of (waiting_of word.client stand asked.script.lines) ≡ Some line → WordsLeft asked (with_stand line IsDone stand) rest }
    ensures none { (asked : Asked) (stand : Line → Stand) (word : Step) (rest : List Step) → IsTrue (is_script asked.script.lines) → LinesDiffer asked → WordsLeft asked stand (word ∷ rest) → first_of (waiting_of word.client stand asked.script.lines) ≡ None → WordsLeft asked stand rest }
{}

/// Behind the last word the first line that waits comes in its order, and once it is over no words are left.
pub fn rests_run_in_order()
    ensures comes { (asked : Asked) (stand : Line → Stand) (line : Line) → IsTrue (is_script asked.script.lines) → LinesDiffer asked → WordsLeft asked stand [] → first_of (waiting stand asked.script.lines) ≡ Some line → ComesInTurn asked stand line }
    ensures left { (asked : Asked) (stand : Line → Stand) (line : Line) → IsTrue (is_script asked.script.lines) → LinesDiffer asked → WordsLeft asked stand [] → first_of (waiting stand asked.script.lines) ≡ Some line → WordsLeft asked (with_stand line IsDone stand) [] }
{}
