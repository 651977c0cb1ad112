//! The texts of replies.

ghost use Rattle.std.specs.Prelude.{◌≡◌, [], ◌∷◌, ◌++◌, codes, Some, None, IsTrue, IsFalse, not};
ghost use Rattle.std.specs.List.{list_any, list_all};
ghost use Rattle.aft_id.specs.TxnId.{zero_id};
ghost use Rattle.aft_model.specs.declared.reply.Reply.TheVariants as reply;
ghost use Rattle.aft_model.specs.declared.reply.Verdict.TheVariants as verdict;
ghost use Rattle.aft_model.specs.History.{each_after};
ghost use Rattle.aft_model.specs.Replies.{same_reply, is_answer, is_silent};
ghost use Rattle.aft_model.specs.ReplyText.{reply_text};
ghost use Rattle.aft_histories.specs.Entries.{u, x, y, first, second, record_of};
ghost use Rattle.aft_histories.specs.Replies.{blocker, judged, one_of_each, others_of_some};

/// The replies to the lines of a transaction.
#[tactic(auto, unfolding(crate::proofs::Texts::texts))]
pub fn transaction_texts()
    ensures begun { reply_text (reply.Begun (u 1)) ≡ codes "begun 00000000-0000-0000-0000-000000000001" }
    ensures joined { reply_text (reply.Joined (u 258)) ≡ codes "joined 00000000-0000-0000-0000-000000000102" }
    ensures committed { reply_text (reply.Committed first.id) ≡ codes "committed 1000-00000000-0000-0000-0000-000000000001" }
    ensures busy { reply_text (reply.Busy 1 12) ≡ codes "busy 1 12" }
    ensures stored { reply_text reply.Stored ≡ codes "ok" }
    ensures absent { reply_text reply.Absent ≡ codes "absent" }
    ensures one_blocker { reply_text (reply.NoValidVersion (blocker first.id x zero_id ∷ [])) ≡ codes "no-valid-version 1000-00000000-0000-0000-0000-000000000001 x 0" }
    ensures two_blockers { reply_text (reply.NoValidVersion (blocker first.id x zero_id ∷ blocker second.id (codes "#y") first.id ∷ [])) ≡ codes "no-valid-version 1000-00000000-0000-0000-0000-000000000001 x 0 1001-00000000-0000-0000-0000-000000000003 #y 1000-00000000-0000-0000-0000-000000000001" }
    ensures no_blocker { reply_text (reply.NoValidVersion []) ≡ codes "no-valid-version" }
    ensures missing { reply_text (reply.Missing first.id) ≡ codes "missing 1000-00000000-0000-0000-0000-000000000001" }
    ensures damaged { reply_text (reply.Damaged (record_of 1)) ≡ codes "damaged c/00000000000000000000000000000001" }
    ensures ended { reply_text reply.Ended ≡ codes "ended" }
    ensures aborted { reply_text reply.Aborted ≡ codes "aborted" }
    ensures store_fault { reply_text reply.StoreFault ≡ codes "store-fault" }
    ensures in_doubt { reply_text reply.InDoubt ≡ codes "in-doubt" }
    ensures node_down { reply_text (reply.NodeDown 1 2) ≡ codes "node-down 1 2" }
    ensures no_transaction { reply_text reply.NoTransaction ≡ codes "no-transaction" }
    ensures committing { reply_text reply.Committing ≡ codes "committing" }
    ensures too_many_keys { reply_text reply.TooManyKeys ≡ codes "too-many-keys" }
    ensures open_reads { reply_text (reply.OpenReads 1) ≡ codes "open-reads 1" }
    ensures clock_end { reply_text reply.ClockEnd ≡ codes "clock-end" }
    ensures no_memory { reply_text reply.NoMemory ≡ codes "no-memory" }
{}

/// The replies to the lines on nodes, and to those of the rounds.
#[tactic(auto, unfolding(crate::proofs::Texts::texts))]
pub fn round_texts()
    ensures crashed { reply_text (reply.Crashed 1 2) ≡ codes "crashed 1 2" }
    ensures not_up { reply_text (reply.NotUp 2) ≡ codes "not-up 2" }
    ensures started { reply_text (reply.Started 1 2) ≡ codes "started 1 2" }
    ensures is_up { reply_text (reply.IsUp 1 2) ≡ codes "up 1 2" }
    ensures is_booting { reply_text (reply.IsBooting 1 2) ≡ codes "booting 1 2" }
    ensures too_many_records { reply_text reply.TooManyRecords ≡ codes "too-many-records" }
    ensures announced { reply_text (reply.Announced 2 0 1) ≡ codes "announced 2 pruned 0 dropped 1" }
    ensures learned { reply_text (reply.Learned 1 0 20) ≡ codes "learned 1 superseded 0 known 20" }
    ensures dropped { reply_text (reply.Dropped 1) ≡ codes "dropped 1" }
    ensures managed { reply_text (reply.Managed 0 1) ≡ codes "manager heard 0 missed 1" }
    ensures retired { reply_text (reply.Collected (judged first.id verdict.Retired ∷ [])) ≡ codes "collected 1000-00000000-0000-0000-0000-000000000001 retired" }
    ensures held_and_fault { reply_text (reply.Collected (judged first.id (verdict.Held 1 2) ∷ judged second.id verdict.Fault ∷ [])) ≡ codes "collected 1000-00000000-0000-0000-0000-000000000001 held 1 2 1001-00000000-0000-0000-0000-000000000003 fault" }
    ensures none_collected { reply_text (reply.Collected []) ≡ codes "collected" }
    ensures collecting { reply_text reply.Collecting ≡ codes "collecting" }
    ensures forgot { reply_text (reply.Forgot first.id) ≡ codes "forgot 1000-00000000-0000-0000-0000-000000000001" }
    ensures kept { reply_text (reply.Kept first.id) ≡ codes "kept 1000-00000000-0000-0000-0000-000000000001" }
    ensures unknown { reply_text (reply.Unknown (u 1)) ≡ codes "unknown 00000000-0000-0000-0000-000000000001" }
    ensures forgotten { reply_text (reply.Forgotten (u 1)) ≡ codes "forgotten 00000000-0000-0000-0000-000000000001" }
    ensures orphans { reply_text (reply.Orphans 1 2 3 4) ≡ codes "orphans deleted 1 kept 2 held 3 fault 4" }
    ensures too_many_versions { reply_text reply.TooManyVersions ≡ codes "too-many-versions" }
    ensures copied { reply_text (reply.Copied 2 1) ≡ codes "copied 2 marked 1" }
    ensures copying { reply_text reply.Copying ≡ codes "copying" }
{}

/// How a value is written: as it is, where it can be a word that doesn't begin with `#`.
#[tactic(auto, unfolding(crate::proofs::Texts::texts))]
pub fn value_texts()
    ensures own { reply_text (reply.Own (codes "hi")) ≡ codes "own hi" }
    ensures value { reply_text (reply.Value first.id (codes "hi")) ≡ codes "value 1000-00000000-0000-0000-0000-000000000001 hi" }
    ensures empty { reply_text (reply.Own []) ≡ codes "own #" }
    ensures hash { reply_text (reply.Own (codes "#a")) ≡ codes "own #2361" }
    ensures hash_behind { reply_text (reply.Own (codes "a#")) ≡ codes "own a#" }
    ensures space { reply_text (reply.Own (codes "a b")) ≡ codes "own #612062" }
    ensures first_and_last { reply_text (reply.Own (33 ∷ 126 ∷ [])) ≡ codes "own !~" }
    ensures beyond { reply_text (reply.Own (127 ∷ 255 ∷ 0 ∷ [])) ≡ codes "own #7fff00" }
    ensures zero { reply_text (reply.Value zero_id (codes "0")) ≡ codes "value 0 0" }
{}

/// A reply is the same as itself, and as no other.
#[tactic(auto, unfolding(crate::proofs::Texts::texts))]
pub fn replies_told_apart()
    ensures itself { IsTrue (list_all (λ r. same_reply r r) (one_of_each ++ others_of_some)) }
    ensures no_other { IsTrue (each_after (λ before r. not (list_any (same_reply r) before)) [] (one_of_each ++ others_of_some)) }
    ensures no_later { IsTrue (each_after (λ before r. not (list_any (λ b. same_reply b r) before)) [] (one_of_each ++ others_of_some)) }
    ensures answers { IsTrue (is_answer reply.Absent (Some reply.Absent)) }
    ensures answers_otherwise { IsFalse (is_answer reply.Absent (Some reply.Ended)) }
    ensures no_answer { IsFalse (is_answer reply.Absent None) }
    ensures silent { IsTrue (is_silent None) }
    ensures not_silent { IsFalse (is_silent (Some reply.Absent)) }
{}
