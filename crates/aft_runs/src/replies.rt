//! Replies that a line gives without their cause, or without doing what they tell.

ghost use Rattle.std.specs.Prelude.{[], ◌∷◌};
ghost use Rattle.aft_model.specs.declared.reply.Reply.TheVariants as reply;
ghost use Rattle.aft_model.specs.declared.script.Command.TheVariants.{Begin, Put, Get, Commit, Abort, Crash, Start, Announce, Local, Collect};
ghost use Rattle.aft_histories.specs.Entries.{u, id_of, x};
ghost use Rattle.aft_runs.specs.Parts.{RefusedBy, Nodes, Causes};
ghost use Rattle.aft_runs.specs.Replies.{answers, answers_crashed, answers_office};
ghost use Rattle.aft_runs.specs.Words.{hi};

/// A line of a transaction that runs isn't refused, but for want of memory.
#[tactic(auto, unfolding(aft_histories::proofs::Stored::stored_forms))]
pub fn refusals_refused()
    ensures no_memory { RefusedBy [] (answers (Put x hi) reply.NoMemory) }
    ensures no_transaction { RefusedBy (Causes ∷ []) (answers (Put x hi) reply.NoTransaction) }
    ensures too_many_keys { RefusedBy (Causes ∷ []) (answers (Put x hi) reply.TooManyKeys) }
    ensures node_down { RefusedBy (Causes ∷ []) (answers (Get x) (reply.NodeDown 1 1)) }
    ensures committing { RefusedBy (Causes ∷ []) (answers Commit reply.Committing) }
    ensures open_reads { RefusedBy (Causes ∷ []) (answers Commit (reply.OpenReads 1)) }
    ensures clock_end { RefusedBy (Causes ∷ []) (answers Commit reply.ClockEnd) }
    ensures busy { RefusedBy (Causes ∷ []) (answers (Begin (u 2) 1) (reply.Busy 1 1)) }
    ensures joined { RefusedBy [] (answers (Begin (u 1) 1) (reply.Joined (u 1))) }
    ensures joined_other { RefusedBy (Causes ∷ []) (answers (Begin (u 2) 1) (reply.Joined (u 2))) }
{}

/// A reply that tells of an act comes with it. So an absent key is read where it is answered.
#[tactic(auto, unfolding(aft_histories::proofs::Stored::stored_forms))]
pub fn words_alone_refused()
    ensures absent { RefusedBy (Nodes ∷ []) (answers (Get x) reply.Absent) }
    ensures ended { RefusedBy (Nodes ∷ []) (answers Commit reply.Ended) }
    ensures aborted { RefusedBy (Nodes ∷ []) (answers Abort reply.Aborted) }
    ensures dropped { RefusedBy (Nodes ∷ []) (answers (Local 1) (reply.Dropped 0)) }
    ensures stored { RefusedBy (Nodes ∷ Causes ∷ []) (answers (Put x hi) reply.Stored) }
    ensures no_valid_version { RefusedBy (Nodes ∷ Causes ∷ []) (answers (Get x) (reply.NoValidVersion [])) }
    ensures missing { RefusedBy (Nodes ∷ Causes ∷ []) (answers (Get x) (reply.Missing (id_of 1000 1))) }
    ensures committed { RefusedBy (Nodes ∷ Causes ∷ []) (answers Commit (reply.Committed (id_of 1000 1))) }
    ensures in_doubt { RefusedBy (Nodes ∷ Causes ∷ []) (answers Commit reply.InDoubt) }
    ensures store_fault { RefusedBy (Nodes ∷ Causes ∷ []) (answers Commit reply.StoreFault) }
{}

/// What is told of nodes and of the office is as they are.
#[tactic(auto, unfolding(aft_histories::proofs::Stored::stored_forms))]
pub fn states_refused()
    ensures not_up { RefusedBy [] (answers_crashed (Crash 1) (reply.NotUp 1)) }
    ensures not_up_though_up { RefusedBy (Causes ∷ []) (answers (Crash 1) (reply.NotUp 1)) }
    ensures up { RefusedBy [] (answers (Start 1) (reply.IsUp 1 1)) }
    ensures up_though_crashed { RefusedBy (Causes ∷ []) (answers_crashed (Start 1) (reply.IsUp 1 1)) }
    ensures booting { RefusedBy (Causes ∷ []) (answers (Start 1) (reply.IsBooting 1 1)) }
    ensures node_down { RefusedBy [] (answers_crashed (Get x) (reply.NodeDown 1 1)) }
    ensures other_incarnation { RefusedBy (Causes ∷ []) (answers_crashed (Get x) (reply.NodeDown 1 2)) }
    ensures announced { RefusedBy (Causes ∷ []) (answers (Announce 1) (reply.Announced 0 0 0)) }
    ensures collecting { RefusedBy (Causes ∷ []) (answers_office Collect reply.Collecting) }
{}
