//! Runs in which no line runs.

ghost use Rattle.std.specs.Prelude.{[], IsFalse};
ghost use Rattle.aft_model.specs.LegalDoor.{is_legal};
ghost use Rattle.aft_lines.specs.RefusedTrace.{RefusedTrace, only_opens};
ghost use Rattle.aft_runs.specs.Openings.{fault_at_check, fault_at_boot, fault_with_boxes, fault_without_nodes, line_follows, nothing_follows, nothing_follows_in_turns, one_boot_of_two, opened_after_fault, no_line_runs};
ghost use Rattle.aft_runs.specs.Promises.{Breaks};

/// A refused opening leaves the door's history alone, and keeps the promise, and one that ended is whole.
#[tactic(auto, unfolding(aft_histories::proofs::Stored::stored_forms))]
pub fn openings_accepted()
    ensures check { RefusedTrace fault_at_check.asked fault_at_check.ran }
    ensures boot { RefusedTrace fault_at_boot.asked fault_at_boot.ran }
    ensures boot_promise { Breaks [] fault_at_boot }
    ensures ended { RefusedTrace nothing_follows.asked nothing_follows.ran }
{}

/// The door isn't opened behind a fault, a refused opening has no boxes and an empty history of each node, only a run with threads ends behind its opening, where each node has booted, and no line runs.
#[tactic(auto, unfolding(aft_histories::proofs::Stored::stored_forms))]
pub fn openings_refused()
    ensures opened { IsFalse (is_legal opened_after_fault.ran.trace.door) }
    ensures boxes { IsFalse (no_line_runs fault_with_boxes) }
    ensures no_nodes { IsFalse (no_line_runs fault_without_nodes) }
    ensures in_turns { IsFalse (no_line_runs nothing_follows_in_turns) }
    ensures half { IsFalse (no_line_runs one_boot_of_two) }
    ensures line { IsFalse (only_opens line_follows.ran) }
{}
