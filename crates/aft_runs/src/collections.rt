//! What nodes drop and give up by the rules, and otherwise, which is refused.

ghost use Rattle.std.specs.Prelude.{[], ◌∷◌};
ghost use Rattle.aft_runs.specs.Collections.{round_behind, drops_behind, reader_leaves, says_dropped, the_older, the_newer, collects_in_doubt, finds, held_by, is_retired, gives_up_doubt, collects_dropped, gives_up_with, node_gives_up, gives_up_unsaid, retires_unasked, says_held};
ghost use Rattle.aft_runs.specs.Parts.{RefusedBy, Door, Nodes, Courses, GiveUps, Causes};

/// A local round drops a superseded commit once nobody reads it, and not before.
#[tactic(auto, unfolding(aft_histories::proofs::Stored::stored_forms))]
pub fn drops_refused()
    ensures kept { RefusedBy [] (drops_behind [] []) }
    ensures dropped_while_read { RefusedBy (Nodes ∷ Causes ∷ []) (drops_behind [] the_older) }
    ensures dropped { RefusedBy [] (drops_behind reader_leaves the_older) }
    ensures kept_for_nobody { RefusedBy (Nodes ∷ Causes ∷ []) (drops_behind reader_leaves []) }
    ensures said_dropped { RefusedBy (Nodes ∷ []) (round_behind reader_leaves (says_dropped 1)) }
    ensures other_dropped { RefusedBy (Nodes ∷ []) (drops_behind reader_leaves the_newer) }
{}

/// Each node is asked, gives up what it doesn't hold, and the door is told that and no more.
#[tactic(auto, unfolding(aft_histories::proofs::Stored::stored_forms))]
pub fn give_ups_refused()
    ensures held_in_doubt { RefusedBy [] (collects_in_doubt (finds (held_by 1 1))) }
    ensures given_up_in_doubt { RefusedBy (Nodes ∷ []) (collects_in_doubt gives_up_doubt) }
    ensures given_up { RefusedBy [] (collects_dropped (gives_up_with (node_gives_up ∷ []))) }
    ensures not_asked { RefusedBy (Door ∷ Courses ∷ Causes ∷ []) (collects_dropped retires_unasked) }
    ensures at_the_node_alone { RefusedBy (Courses ∷ Causes ∷ []) (collects_dropped gives_up_unsaid) }
    ensures at_the_door_alone { RefusedBy (Courses ∷ GiveUps ∷ Causes ∷ []) (collects_dropped (gives_up_with [])) }
{}

/// A collection says of each commit what came of it, and that one is held only by who may hold it.
#[tactic(auto, unfolding(aft_histories::proofs::Stored::stored_forms))]
pub fn verdicts_refused()
    ensures held_by_another { RefusedBy (Causes ∷ []) (collects_in_doubt (finds (held_by 2 1))) }
    ensures held_by_next { RefusedBy (Causes ∷ []) (collects_in_doubt (finds (held_by 1 2))) }
    ensures said_retired { RefusedBy (Causes ∷ []) (collects_in_doubt (finds is_retired)) }
    ensures said_nothing { RefusedBy (Causes ∷ []) (collects_in_doubt (finds [])) }
    ensures held_by_nobody { RefusedBy (Courses ∷ Causes ∷ []) (collects_dropped says_held) }
{}
