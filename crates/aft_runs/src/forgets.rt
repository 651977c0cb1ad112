//! Runs in which a collected transaction is forgotten, and others, which are refused.

ghost use Rattle.std.specs.Prelude.{[], ◌∷◌, ◌++◌, IsFalse, IsTrue};
ghost use Rattle.aft_lines.specs.Headline.{Headline};
ghost use Rattle.aft_lines.specs.KeepsIds.{KeepsIds, all_keep_ids, keeps_ids};
ghost use Rattle.aft_model.specs.History.{each_prefix};
ghost use Rattle.aft_model.specs.Honest.{Honest};
ghost use Rattle.aft_lines.specs.LegalTrace.{LegalTrace};
ghost use Rattle.aft_model.specs.declared.reply.Reply.TheVariants as replies;
ghost use Rattle.aft_histories.specs.Entries.{u};
ghost use Rattle.aft_runs.specs.Forgets.{begins_anew, claim, commits_anew, delete, failed_forget, fails_look, forget, forgets, forgets_idle, forgets_nothing, forgets_running, forgets_then, forgot, full, held_at_first, kept, leaves, looks_at, loses_record, of_newer, release, short, tells_forgotten, whole_forget};
ghost use Rattle.aft_runs.specs.LeftOut.{AnswersAll};
ghost use Rattle.aft_runs.specs.Parts.{RefusedBy, Door, Nodes, Courses, Causes};
ghost use Rattle.aft_runs.specs.Promises.{Breaks, OneCommitAnId};

/// A transaction that is collected is forgotten, one that has its record is kept, and of another nothing is known.
#[tactic(auto, unfolding(aft_histories::proofs::Stored::stored_forms))]
pub fn forgotten_once()
    ensures legal { LegalTrace forgets.asked forgets.ran }
    ensures honest { Honest forgets.ran.trace.door }
    ensures promise { Headline forgets.ran.trace }
    ensures answers_all { AnswersAll forgets }
{}

/// Who forgets has claimed the UUID, found its short marker, and lets the claim go, whatever came of its calls.
#[tactic(auto, unfolding(aft_histories::proofs::Stored::stored_forms))]
pub fn forgets_refused()
    ensures claimed { RefusedBy [] (forget short (whole_forget short) forgot) }
    ensures not_claimed { RefusedBy (Door ∷ Courses ∷ []) (forget short (looks_at short ++ delete ∷ []) forgot) }
    ensures let_go { RefusedBy [] (forget short (claim ∷ fails_look ∷ release ∷ []) replies.StoreFault) }
    ensures not_let_go { RefusedBy (Courses ∷ []) (forget short (claim ∷ fails_look ∷ []) replies.StoreFault) }
    ensures fault { RefusedBy [] (forget short failed_forget replies.StoreFault) }
    ensures fault_forgot { RefusedBy (Causes ∷ []) (forget short failed_forget forgot) }
    ensures full_kept { RefusedBy [] (forget full (leaves full) kept) }
    ensures full_deleted { RefusedBy (Door ∷ Courses ∷ Causes ∷ []) (forget full (whole_forget full) forgot) }
    ensures running { RefusedBy [] (forgets_running (replies.Busy 1 1)) }
    ensures running_unknown { RefusedBy (Nodes ∷ Causes ∷ []) (forgets_running (replies.Unknown (u 2))) }
    ensures short_kept { RefusedBy (Courses ∷ Causes ∷ []) (forget short (leaves short) kept) }
{}

/// A forget is busy only with an attempt of the UUID, or with another who holds it.
#[tactic(auto, unfolding(aft_histories::proofs::Stored::stored_forms))]
pub fn busy_forgets_refused()
    ensures no_attempt { RefusedBy (Causes ∷ []) (forgets_idle (replies.Busy 1 1)) }
    ensures held_by_nobody { RefusedBy (Causes ∷ []) (forget short [] (replies.Busy 2 1)) }
{}

/// A forgotten UUID is claimed no more, or it would commit again; and one that isn't forgotten isn't answered so.
#[tactic(auto, unfolding(aft_histories::proofs::Stored::stored_forms))]
pub fn forgotten_refused()
    ensures not_forgotten { RefusedBy (Causes ∷ []) (forgets_then tells_forgotten) }
    ensures claimed_anew { RefusedBy (Door ∷ []) (forgets_then begins_anew) }
    ensures committed_anew { Breaks (OneCommitAnId ∷ []) commits_anew }
{}

/// The store keeps a record or a marker of each UUID that was used, until it is forgotten.
#[tactic(auto, unfolding(aft_histories::proofs::Stored::stored_forms))]
pub fn ids_kept()
    ensures forgotten { IsTrue (keeps_ids of_newer forgets.ran.trace.door) }
    ensures marked { IsTrue (keeps_ids (short ∷ of_newer) forgets_nothing.ran.trace.door) }
    ensures marker_lost { IsFalse (keeps_ids of_newer forgets_nothing.ran.trace.door) }
    ensures record_lost { IsFalse (keeps_ids [] forgets.ran.trace.door) }
    ensures at_each_moment { KeepsIds held_at_first forgets.ran.trace.door }
    ensures not_behind_delete { IsFalse (each_prefix (all_keep_ids held_at_first) [] loses_record) }
{}
