//! Runs in which a line is cut off or meets a fault, and others, which are refused.

ghost use Rattle.std.specs.Prelude.{[], ◌∷◌};
ghost use Rattle.aft_model.specs.declared.node.NodeAct.TheVariants as turns;
ghost use Rattle.aft_model.specs.declared.reply.Reply.TheVariants as replies;
ghost use Rattle.aft_histories.specs.Entries.{record_of, x};
ghost use Rattle.aft_runs.specs.CutOff.{at_node, begin_ends, begin_fenced_then, commit_fenced_then, crash_ends, doubts_behind, finds_damage, get_ends, get_fails, get_fenced_then, get_misses, get_stops, is_down, is_left, learns_stored, only_answers, own, reader, start_ends, start_fenced_then, start_stops, stopped};
ghost use Rattle.aft_runs.specs.Parts.{RefusedBy, Courses, Causes};
ghost use Rattle.aft_runs.specs.Reads.{x_hi};

/// A line whose incarnation was shut out takes its attempt away, or stores what it recorded, as long as the node serves.
#[tactic(auto, unfolding(aft_histories::proofs::Stored::stored_forms))]
pub fn cut_off_refused()
    ensures given_back { RefusedBy [] (begin_fenced_then (begin_ends (turns.Unadmit own) ∷ crash_ends ∷ [])) }
    ensures only_answered { RefusedBy (Courses ∷ []) (begin_fenced_then (begin_ends turns.Nothing ∷ crash_ends ∷ [])) }
    ensures answered_when_down { RefusedBy [] (begin_fenced_then (crash_ends ∷ begin_ends turns.Nothing ∷ [])) }
    ensures stored { RefusedBy [] (commit_fenced_then (at_node (learns_stored ∷ is_left is_down ∷ []) ∷ stopped ∷ [])) }
    ensures stored_and_left { RefusedBy [] (commit_fenced_then (at_node (learns_stored ∷ []) ∷ stopped ∷ only_answers ∷ [])) }
    ensures stored_and_serving { RefusedBy (Courses ∷ []) (commit_fenced_then (at_node (learns_stored ∷ []) ∷ only_answers ∷ stopped ∷ [])) }
    ensures not_stored { RefusedBy (Courses ∷ []) (commit_fenced_then (at_node (is_left is_down ∷ []) ∷ stopped ∷ [])) }
    ensures no_memory { RefusedBy [] (commit_fenced_then (at_node (is_left replies.NoMemory ∷ []) ∷ stopped ∷ [])) }
{}

/// A get whose incarnation was shut out loses the version that it picked, as long as the node serves.
#[tactic(auto, unfolding(aft_histories::proofs::Stored::stored_forms))]
pub fn gets_cut_off()
    ensures lost { RefusedBy [] (get_fenced_then (get_ends (turns.Lost reader x x_hi.id) ∷ get_stops ∷ [])) }
    ensures only_answered { RefusedBy (Courses ∷ []) (get_fenced_then (get_ends turns.Nothing ∷ get_stops ∷ [])) }
    ensures answered_when_down { RefusedBy [] (get_fenced_then (get_stops ∷ get_ends turns.Nothing ∷ [])) }
{}

/// A start whose incarnation was shut out stops its boot, as long as the node boots.
#[tactic(auto, unfolding(aft_histories::proofs::Stored::stored_forms))]
pub fn starts_cut_off()
    ensures stopped { RefusedBy [] (start_fenced_then (start_ends (turns.BootStopped 2) ∷ start_stops ∷ [])) }
    ensures only_answered { RefusedBy (Courses ∷ []) (start_fenced_then (start_ends turns.Nothing ∷ start_stops ∷ [])) }
    ensures answered_when_down { RefusedBy [] (start_fenced_then (start_stops ∷ start_ends turns.Nothing ∷ [])) }
{}

/// A failed call of a commit is told as such where the commit is neither in doubt nor met damage.
#[tactic(auto, unfolding(aft_histories::proofs::Stored::stored_forms))]
pub fn store_faults_refused()
    ensures in_doubt { RefusedBy [] (doubts_behind get_fails replies.InDoubt) }
    ensures fault_in_doubt { RefusedBy (Causes ∷ []) (doubts_behind get_fails replies.StoreFault) }
    ensures fault { RefusedBy [] (doubts_behind get_misses replies.StoreFault) }
    ensures damaged { RefusedBy [] (doubts_behind finds_damage (replies.Damaged (record_of 1))) }
    ensures fault_in_damage { RefusedBy (Causes ∷ []) (doubts_behind finds_damage replies.StoreFault) }
{}
