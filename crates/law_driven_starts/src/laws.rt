//! Laws of driven starts, as calls that do nothing and promise them.

ghost use Rattle.std.specs.Prelude.{IsTrue, List, Some, [], ℕ, ◌++◌, ◌||◌, ◌≡◌, ◌∷◌};
ghost use Rattle.aft_model.specs.declared.caller.By.{By};
ghost use Rattle.aft_model.specs.declared.caller.Hold.{Hold};
ghost use Rattle.aft_model.specs.declared.node.NodeAct.TheVariants.{Booting};
ghost use Rattle.aft_model.specs.declared.node.NodeEntry.{NodeEntry};
ghost use Rattle.aft_model.specs.declared.script.Command.TheVariants as commands;
ghost use Rattle.aft_model.specs.declared.script.Line.{Line};
ghost use Rattle.aft_model.specs.LegalNode.{LegalNode};
ghost use Rattle.aft_model.specs.Membership.{incarnation};
ghost use Rattle.aft_model.specs.NodeState.{boots, node_state};
ghost use Rattle.aft_ledger.specs.View.{NodeView};
ghost use Rattle.aft_lines.specs.Advance.{leads_to};
ghost use Rattle.aft_lines.specs.Asked.{Asked, Ran};
ghost use Rattle.aft_lines.specs.CourseWords.{Ends};
ghost use Rattle.aft_lines.specs.LineView.{has_left};
ghost use Rattle.aft_lines.specs.Progress.{Progress};
ghost use Rattle.aft_lines.specs.Turns.{AtNode, Turn};
ghost use Rattle.aft_node.specs.Closing.{act_passes, last_own, opens_boot};
ghost use Rattle.aft_boot.specs.Booted.{Made};
ghost use Rattle.aft_boot.specs.BootView.{BootView};
ghost use Rattle.aft_turns.specs.Trail.{Trail};
ghost use Rattle.law_accounts.specs.Account.{Account, Stand};
ghost use Rattle.law_accounts.specs.Adding.{numbered_in};
ghost use Rattle.law_driver.specs.Driven.{Driven, IsNode};
ghost use Rattle.law_driven_starts.specs.Starts.{EndsOwnBoots, IsStartOf, MayCallAtDoor, MayCloseAtNode, MayEndAtNode, StartsAreNewest, ends_boot_of};

/// In a run that has an account, where a start is to bring an incarnation up that wasn't fenced, neither was a newer one of its
/// node.
pub fn starts_are_newest()
    ensures { (asked : Asked) (ran : Ran) (stand : Line → Stand) → Account asked ran stand → StartsAreNewest asked ran }
{}

/// In a lawful history of a node in which each boot is ended by the line that began it, a line whose last entry there began a boot
/// finds that the node still boots the incarnation, or has left it.
pub fn own_boots_run()
    ensures { (node capacity inc : ℕ) (by : By) (history : List NodeEntry) → LegalNode node capacity history → EndsOwnBoots history → IsTrue (act_passes (opens_boot inc) (last_own by history)) → IsTrue (has_left inc (node_state history) || boots inc (node_state history)) }
{}

/// A start that ends a boot ends, at the node of its first turn, the boot that this began.
pub fn starts_end_own()
    ensures { (ends : Ends) (home number at : ℕ) (nodes : List ℕ) (line : List Turn) (first entry : NodeEntry) (start before : List NodeEntry) (p : Progress) → leads_to (commands.Start home) nodes ends ((AtNode number start first ∷ line) ++ AtNode at before entry ∷ []) ≡ Some p → (inc : ℕ) × (first.act ≡ Booting inc) × IsTrue (ends_boot_of (incarnation number inc) at entry.act) }
{}

/// In a run that has an account each boot of a node is ended by the line that began it.
pub fn boots_are_ended_by_their_lines()
    ensures { (asked : Asked) (ran : Ran) (stand : Line → Stand) → Account asked ran stand → (number : ℕ) → EndsOwnBoots (numbered_in number 1 ran.trace.nodes) }
{}

/// A start that a driver runs has what its machine asks of its next turn: at its node, which has all that the run's node of that
/// number has, that it may close its boot, and that the node still boots the incarnation, or has left it; and at the run's door.
pub fn starts_may_go_on()
    ensures at_node { (asked : Asked) (ran : Ran) (stand : Line → Stand) (line : Line) (hold : Hold) (trail : Trail) (boot : BootView) (node : NodeView) → Driven asked ran stand line hold trail → IsStartOf line boot → Made boot trail → IsNode asked ran node → MayCloseAtNode boot node }
    ensures at_end { (asked : Asked) (ran : Ran) (stand : Line → Stand) (line : Line) (hold : Hold) (trail : Trail) (boot : BootView) (node : NodeView) → Driven asked ran stand line hold trail → IsStartOf line boot → Made boot trail → IsNode asked ran node → MayEndAtNode boot node }
    ensures at_door { (asked : Asked) (ran : Ran) (stand : Line → Stand) (line : Line) (hold : Hold) (trail : Trail) (boot : BootView) → Driven asked ran stand line hold trail → IsStartOf line boot → Made boot trail → MayCallAtDoor boot ran.trace.door }
{}
