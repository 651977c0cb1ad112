//! Runs in which the store is copied, and others, which are refused.

ghost use Rattle.std.specs.Prelude.{◌≡◌, [], ◌∷◌, ◌++◌, IsFalse, IsTrue};
ghost use Rattle.aft_lines.specs.Headline.{Headline};
ghost use Rattle.aft_model.specs.Honest.{Honest};
ghost use Rattle.aft_lines.specs.LegalTrace.{LegalTrace};
ghost use Rattle.aft_model.specs.declared.reply.Reply.TheVariants as replies;
ghost use Rattle.aft_runs.specs.Backups.{beside_collection, commits_beside, copied, copied_in, copies_store, copying_alone, copying_beside, fences, first_copier, gets, gets_versions, is_gone, misses_and_ends, misses_and_stays, newer_and_marker, older_marked, page_fails_and, retired_beside, second_copier, shows_more_than, tells_missing};
ghost use Rattle.aft_runs.specs.LeftOut.{AnswersAll};
ghost use Rattle.aft_runs.specs.Parts.{RefusedBy, Door, Courses, Causes};
ghost use Rattle.aft_runs.specs.Pinned.{newer, older};
ghost use Rattle.aft_runs.specs.Words.{version_pairs};

/// A commit is held while a copier is up, and retired when it was fenced.
#[tactic(auto, unfolding(aft_histories::proofs::Stored::stored_forms))]
pub fn copied_beside()
    ensures legal { LegalTrace beside_collection.asked beside_collection.ran }
    ensures honest { Honest beside_collection.ran.trace.door }
    ensures promise { Headline beside_collection.ran.trace }
    ensures answers_all { AnswersAll beside_collection }
{}

/// A copy takes no commit that was recorded since its copier came up, and that is the next of its incarnations and fenced in the end. No commit is marked beside it.
#[tactic(auto, unfolding(aft_histories::proofs::Stored::stored_forms))]
pub fn copies_refused()
    ensures recorded_since { RefusedBy [] (commits_beside first_copier (fences first_copier) 0) }
    ensures taken { RefusedBy (Courses ∷ Causes ∷ []) (commits_beside first_copier (gets_versions first_copier ++ fences first_copier) 1) }
    ensures not_fenced { RefusedBy (Courses ∷ []) (commits_beside first_copier [] 0) }
    ensures counts_one { RefusedBy (Causes ∷ []) (commits_beside first_copier (fences first_copier) 1) }
    ensures later_incarnation { RefusedBy (Courses ∷ []) (commits_beside second_copier (fences second_copier) 0) }
    ensures marked_beside { RefusedBy (Door ∷ []) retired_beside }
{}

/// One copy is made at a time.
#[tactic(auto, unfolding(aft_histories::proofs::Stored::stored_forms))]
pub fn copying_refused()
    ensures beside { RefusedBy [] copying_beside }
    ensures alone { RefusedBy (Causes ∷ []) copying_alone }
{}

/// A copy gets each version of the commits that no marker was shown of, in the order of their UUIDs, and tells which one it misses.
#[tactic(auto, unfolding(aft_histories::proofs::Stored::stored_forms))]
pub fn cuts_refused()
    ensures both { RefusedBy [] (copies_store [] (gets (version_pairs older ++ version_pairs newer)) (copied 2 0)) }
    ensures backwards { RefusedBy (Courses ∷ Causes ∷ []) (copies_store [] (gets (version_pairs newer ++ version_pairs older)) (copied 2 0)) }
    ensures unmarked { RefusedBy [] (copies_store older_marked (gets (version_pairs newer)) (copied 1 1)) }
    ensures pairs { copied_in (copies_store older_marked (gets (version_pairs newer)) (copied 1 1)) ≡ newer_and_marker }
    ensures marked_too { RefusedBy (Courses ∷ Causes ∷ []) (copies_store older_marked (gets (version_pairs older ++ version_pairs newer)) (copied 2 1)) }
    ensures marker_not_counted { RefusedBy (Causes ∷ []) (copies_store older_marked (gets (version_pairs newer)) (copied 1 0)) }
    ensures missing { RefusedBy [] (copies_store [] misses_and_ends tells_missing) }
    ensures missing_not_fenced { RefusedBy (Courses ∷ []) (copies_store [] misses_and_stays tells_missing) }
    ensures missing_copied { RefusedBy (Courses ∷ Causes ∷ []) (copies_store [] misses_and_ends (copied 1 0)) }
{}

/// A copy tells of too many records only where its pages show more than are allowed.
#[tactic(auto, unfolding(aft_histories::proofs::Stored::stored_forms))]
pub fn too_many_records()
    ensures few { RefusedBy (Causes ∷ []) (copies_store [] is_gone replies.TooManyRecords) }
    ensures more_than_allowed { IsTrue (shows_more_than 1) }
    ensures as_many_as_allowed { IsFalse (shows_more_than 2) }
{}

/// A copier that can't list the records is fenced too.
#[tactic(auto, unfolding(aft_histories::proofs::Stored::stored_forms))]
pub fn failed_pages_refused()
    ensures fenced { RefusedBy [] (page_fails_and is_gone) }
    ensures not_fenced { RefusedBy (Courses ∷ []) (page_fails_and []) }
{}
