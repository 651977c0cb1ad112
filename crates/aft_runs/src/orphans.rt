//! Runs in which versions that nobody has are deleted, and others, which are refused.

ghost use Rattle.std.specs.Prelude.{[], ◌∷◌, IsFalse, IsTrue};
ghost use Rattle.aft_lines.specs.Headline.{Headline};
ghost use Rattle.aft_model.specs.Honest.{Honest};
ghost use Rattle.aft_lines.specs.LegalTrace.{LegalTrace};
ghost use Rattle.aft_model.specs.declared.reply.Reply.TheVariants as replies;
ghost use Rattle.aft_histories.specs.Entries.{record_of, version_of, x};
ghost use Rattle.aft_runs.specs.LeftOut.{AnswersAll};
ghost use Rattle.aft_runs.specs.OrphanRounds.{by_older_claim, claim, counts, crashes_and, deleted_orphan, deletes_orphan, fails_look, keeps_claim, kept_once_recorded, lists_unread, looks_and, marker_first, meets_round, page_fails_and, settles_and, shows_damage, though_recorded, without_claim};
ghost use Rattle.aft_runs.specs.Parts.{RefusedBy, Door, Courses, Causes};
ghost use Rattle.aft_runs.specs.Reads.{x_hi};
ghost use Rattle.aft_runs.specs.TwoVersions.{deletes_of, deletes_second, fails_once, shows_more_than, unlisted};
ghost use Rattle.aft_runs.specs.Works.{by};

/// A version is passed over while its transaction is there, kept once its record is found, and deleted where its node crashed before.
#[tactic(auto, unfolding(aft_histories::proofs::Stored::stored_forms))]
pub fn orphans_deleted()
    ensures kept_legal { LegalTrace kept_once_recorded.asked kept_once_recorded.ran }
    ensures kept_honest { Honest kept_once_recorded.ran.trace.door }
    ensures kept_promise { Headline kept_once_recorded.ran.trace }
    ensures kept_answers_all { AnswersAll kept_once_recorded }
    ensures deleted_legal { LegalTrace deleted_orphan.asked deleted_orphan.ran }
    ensures deleted_honest { Honest deleted_orphan.ran.trace.door }
    ensures deleted_promise { Headline deleted_orphan.ran.trace }
    ensures deleted_answers_all { AnswersAll deleted_orphan }
{}

/// Of two versions of one UUID a round may pass over the first, while a transaction holds it, and delete the second.
#[tactic(auto, unfolding(aft_histories::proofs::Stored::stored_forms))]
pub fn versions_of_one_id()
    ensures second { RefusedBy [] deletes_second }
    ensures first { RefusedBy [] (deletes_of x_hi.id) }
    ensures neither { RefusedBy (Courses ∷ Causes ∷ []) (deletes_of unlisted) }
{}

/// A round tells of too many versions only where its pages show more than are allowed.
#[tactic(auto, unfolding(aft_histories::proofs::Stored::stored_forms))]
pub fn too_many_versions()
    ensures few { RefusedBy (Causes ∷ []) (crashes_and [] replies.TooManyVersions) }
    ensures more_than_allowed { IsTrue (shows_more_than 1) }
    ensures as_many_as_allowed { IsFalse (shows_more_than 2) }
{}

/// A look that failed is counted, and is no store fault of the round.
#[tactic(auto, unfolding(aft_histories::proofs::Stored::stored_forms))]
pub fn failed_looks_refused()
    ensures counted { RefusedBy [] (fails_once (counts 0 0 1 1)) }
    ensures store_fault { RefusedBy (Causes ∷ []) (fails_once replies.StoreFault) }
{}

/// A version is deleted under a claim of its UUID, behind which neither its record nor then its marker was found.
#[tactic(auto, unfolding(aft_histories::proofs::Stored::stored_forms))]
pub fn deletes_refused()
    ensures not_claimed { RefusedBy (Door ∷ Courses ∷ Causes ∷ []) (crashes_and without_claim (counts 1 0 0 0)) }
    ensures older_claim { RefusedBy (Door ∷ Courses ∷ Causes ∷ []) (crashes_and by_older_claim (counts 1 0 0 0)) }
    ensures marker_first { RefusedBy (Door ∷ Courses ∷ Causes ∷ []) (crashes_and marker_first (counts 1 0 0 0)) }
    ensures recorded { RefusedBy (Door ∷ Courses ∷ Causes ∷ []) (settles_and though_recorded (counts 1 0 0 0)) }
{}

/// What is counted was done, and a version is passed over only where somebody held its UUID.
#[tactic(auto, unfolding(aft_histories::proofs::Stored::stored_forms))]
pub fn counts_refused()
    ensures one_more { RefusedBy (Causes ∷ []) (crashes_and deletes_orphan (counts 2 0 0 0)) }
    ensures as_kept { RefusedBy (Causes ∷ []) (crashes_and deletes_orphan (counts 0 1 0 0)) }
    ensures held_by_nobody { RefusedBy (Causes ∷ []) (crashes_and [] (counts 0 0 1 0)) }
{}

/// While a round holds a UUID, a begin of it is busy with the office, and another round passes its versions over.
#[tactic(auto, unfolding(aft_histories::proofs::Stored::stored_forms))]
pub fn rounds_met()
    ensures office { RefusedBy [] (meets_round (replies.Busy 0 1) []) }
    ensures node { RefusedBy (Causes ∷ []) (meets_round (replies.Busy 2 1) []) }
    ensures claimed_too { RefusedBy (Door ∷ Courses ∷ Causes ∷ []) (meets_round (replies.Busy 0 1) (claim (by 3 3) ∷ [])) }
{}

/// A failed call for a version is counted, damage ends the round, and the claim is let go behind both. What is listed needs no reading.
#[tactic(auto, unfolding(aft_histories::proofs::Stored::stored_forms))]
pub fn faulty_rounds_refused()
    ensures fault { RefusedBy [] (crashes_and (looks_and fails_look) (counts 0 0 0 1)) }
    ensures fault_as_held { RefusedBy (Causes ∷ []) (crashes_and (looks_and fails_look) (counts 0 0 1 0)) }
    ensures not_let_go { RefusedBy (Courses ∷ Causes ∷ []) (crashes_and keeps_claim (counts 0 0 0 1)) }
    ensures damage { RefusedBy [] (crashes_and (looks_and shows_damage) (replies.Damaged (record_of 1))) }
    ensures damage_counted { RefusedBy (Courses ∷ Causes ∷ []) (crashes_and (looks_and shows_damage) (counts 0 0 0 1)) }
    ensures unread { RefusedBy [] (lists_unread deletes_orphan (counts 1 0 0 0)) }
    ensures unread_damage { RefusedBy (Courses ∷ Causes ∷ []) (lists_unread deletes_orphan (replies.Damaged (version_of x x_hi.id))) }
    ensures unread_counted { RefusedBy (Causes ∷ []) (lists_unread deletes_orphan (counts 1 0 1 0)) }
    ensures no_page { RefusedBy [] (page_fails_and replies.StoreFault) }
    ensures no_page_counted { RefusedBy (Courses ∷ Causes ∷ []) (page_fails_and (counts 0 0 0 1)) }
{}
