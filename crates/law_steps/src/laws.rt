//! Laws of steps, as calls that do nothing and promise them.

ghost use Rattle.std.specs.Prelude.{◌≡◌, ℕ, IsTrue, [], filter};
ghost use Rattle.aft_model.specs.declared.caller.By.{By};
ghost use Rattle.aft_model.specs.declared.trace.Trace.{Trace};
ghost use Rattle.aft_lines.specs.Steps.{HaveExactFronts, door_steps, made_at_node, own_steps, steps};
ghost use Rattle.aft_lines.specs.Turns.{turns};
ghost use Rattle.law_turns.specs.Order.{is_at_node};
ghost use Rattle.law_steps.specs.Histories.{history_in};
ghost use Rattle.law_steps.specs.OneList.{IsOrdinary, fronts_rise};

/// Among the steps of a run each of a node or the office stands behind as many of the door's entries as its front says.
pub fn fronts_are_exact()
    ensures { (trace : Trace) → HaveExactFronts trace }
{}

/// Where fronts never fall and none is past the end of the door's history, the steps of a line that gives nothing up, and
/// whose entries of one moment stand in one list, are its turns.
pub fn steps_are_turns()
    ensures { (by : By) (trace : Trace) → IsTrue (fronts_rise trace) → IsOrdinary by trace → own_steps by (steps trace) ≡ turns by trace }
{}

/// The steps of a run at the door are its history; and where fronts never fall and none is past its end, those at a node are
/// the node's history, each behind what the node did before it.
pub fn histories_are_steps()
    ensures door { (trace : Trace) → door_steps (steps trace) ≡ trace.door }
    ensures node { (number : ℕ) (trace : Trace) → IsTrue (fronts_rise trace) → filter (λ one. is_at_node number one.turn) (steps trace) ≡ made_at_node number [] (history_in number 1 trace.nodes) }
{}
