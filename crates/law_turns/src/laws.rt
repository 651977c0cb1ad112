//! Laws of turns, as calls that do nothing and promise them.

ghost use Rattle.std.specs.Prelude.{◌≡◌, List, IsTrue};
ghost use Rattle.aft_model.specs.declared.caller.By.{By};
ghost use Rattle.aft_model.specs.declared.trace.Trace.{Trace};
ghost use Rattle.aft_lines.specs.Turns.{Turn, turns};
ghost use Rattle.law_turns.specs.Order.{AreEntries, give_nothing_up, moments_ascend, tie_in_one_list};

/// The turns of a line stand in the order of their moments: the front of one at a node or the office is above the place of
/// each earlier one at the door, and no place at the door is below an earlier front.
pub fn turns_ascend()
    ensures { (by : By) (trace : Trace) → IsTrue (moments_ascend (turns by trace)) }
{}

/// The entries of a line that gives nothing up, each list's in its order, are its turns in this order, if no moment falls,
/// and turns of one moment stand in one list.
pub fn order_of_turns()
    ensures { (by : By) (trace : Trace) (line : List Turn) → AreEntries by trace line → IsTrue (moments_ascend line) → IsTrue (tie_in_one_list line) → IsTrue (give_nothing_up line) → turns by trace ≡ line }
{}
