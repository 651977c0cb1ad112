//! Which lines have the cause of a reply, and which lack it.

ghost use Rattle.std.specs.Prelude.{codes, [], ◌∷◌, ◌++◌, IsFalse};
ghost use Rattle.aft_keeper.specs.declared.keeper.KeeperAnswer.TheVariants.{Failed, Absent, Found, Page};
ghost use Rattle.aft_model.specs.declared.reply.Reply.TheVariants as reply;
ghost use Rattle.aft_model.specs.declared.reply.Verdict.TheVariants as verdict;
ghost use Rattle.aft_lines.specs.Causes.{cause, Caused};
ghost use Rattle.aft_histories.specs.Entries.{u, y, record_of, version_of, record_pair};
ghost use Rattle.aft_runs.specs.RunLines.{only_x};
ghost use Rattle.aft_runs.specs.CausedLines as lines;
ghost use Rattle.aft_runs.specs.CausedRounds as rounds;

/// What a begin and a put answer.
#[tactic(auto, unfolding(aft_histories::proofs::Stored::stored_forms))]
pub fn begins_caused()
    ensures begun { Caused lines.begun (reply.Begun (u 1)) }
    ensures unread { IsFalse (cause lines.begun_unread (reply.Begun (u 1))) }
    ensures joined { Caused lines.joined (reply.Joined (u 1)) }
    ensures not_joined { IsFalse (cause lines.begun (reply.Joined (u 1))) }
    ensures busy { Caused lines.busy (reply.Busy 1 1) }
    ensures busy_with_none { IsFalse (cause lines.busy_with_none (reply.Busy 1 1)) }
    ensures ok { Caused lines.ok reply.Stored }
    ensures committing { Caused lines.committing reply.Committing }
    ensures full { Caused (lines.putting_more (codes "x")) reply.TooManyKeys }
    ensures put_again { IsFalse (cause (lines.putting_more (codes "!")) reply.TooManyKeys) }
    ensures not_ok { IsFalse (cause lines.committing reply.Stored) }
{}

/// What a get answers.
#[tactic(auto, unfolding(aft_histories::proofs::Stored::stored_forms))]
pub fn gets_caused()
    ensures absent { Caused lines.absent reply.Absent }
    ensures own { Caused lines.own (reply.Own (codes "hi")) }
    ensures value { Caused (lines.fetching (Found (lines.version_bytes))) (reply.Value lines.both.id (codes "hi")) }
    ensures missing { Caused (lines.fetching Absent) (reply.Missing lines.both.id) }
    ensures damaged { Caused (lines.fetching (Found (codes "junk"))) (reply.Damaged (version_of y lines.both.id)) }
    ensures fault { Caused (lines.fetching Failed) reply.StoreFault }
    ensures no_fault { IsFalse (cause (lines.fetching Absent) reply.StoreFault) }
    ensures known { IsFalse (cause (lines.fetching Absent) reply.Absent) }
    ensures blocked { Caused lines.blocked (reply.NoValidVersion lines.blockers) }
    ensures fits { IsFalse (cause (lines.fetching Absent) (reply.NoValidVersion lines.blockers)) }
{}

/// What a commit and an abort answer.
#[tactic(auto, unfolding(aft_histories::proofs::Stored::stored_forms))]
pub fn commits_caused()
    ensures committed { Caused lines.committed (reply.Committed only_x.id) }
    ensures unrecorded { IsFalse (cause lines.unrecorded (reply.Committed only_x.id)) }
    ensures in_doubt { Caused (lines.settling Failed) reply.InDoubt }
    ensures failed_once { IsFalse (cause (lines.settling Absent) reply.InDoubt) }
    ensures fault { Caused (lines.settling Absent) reply.StoreFault }
    ensures settled { Caused (lines.settling (Found (record_pair only_x).bytes)) (reply.Committed only_x.id) }
    ensures another { Caused (lines.settling (Found (record_pair lines.another_x).bytes)) (reply.Damaged (record_of 1)) }
    ensures ended { Caused lines.leaving reply.Ended }
    ensures something { IsFalse (cause lines.committed reply.Ended) }
    ensures aborted { Caused lines.aborting reply.Aborted }
    ensures open_read { Caused lines.open_read (reply.OpenReads 1) }
    ensures fewer { IsFalse (cause lines.open_read (reply.OpenReads 2)) }
    ensures clock_end { Caused (lines.over_time 281474976710655) reply.ClockEnd }
    ensures in_time { IsFalse (cause (lines.over_time 281474976710654) reply.ClockEnd) }
{}

/// What a line answers by whether its node is up.
#[tactic(auto, unfolding(aft_histories::proofs::Stored::stored_forms))]
pub fn nodes_caused()
    ensures crashed { Caused lines.crashed (reply.Crashed 1 1) }
    ensures not_up { Caused lines.not_up (reply.NotUp 1) }
    ensures while_up { IsFalse (cause lines.not_up_while_up (reply.NotUp 1)) }
    ensures since_crash { Caused (lines.not_up_since 8) (reply.NotUp 1) }
    ensures since_start { IsFalse (cause (lines.not_up_since 9) (reply.NotUp 1)) }
    ensures whole { IsFalse (cause lines.not_up_whole (reply.NotUp 1)) }
    ensures started { Caused (lines.starting (Page [])) (reply.Started 1 2) }
    ensures boot_fault { IsFalse (cause (lines.starting Failed) (reply.Started 1 2)) }
    ensures up { Caused lines.starting_again (reply.IsUp 1 1) }
    ensures booting { Caused (lines.starting_beside []) (reply.IsBooting 1 2) }
    ensures stopped { IsFalse (cause (lines.starting_beside lines.stopped_boot) (reply.IsBooting 1 2)) }
    ensures shut_out { Caused lines.shut_out (reply.NodeDown 1 1) }
    ensures not_shut_out { IsFalse (cause (lines.fetching Absent) (reply.NodeDown 1 1)) }
    ensures no_calls { IsFalse (cause (lines.putting lines.fenced_only) (reply.NodeDown 1 1)) }
    ensures down { Caused (lines.putting lines.told_down) (reply.NodeDown 1 1) }
    ensures serving { IsFalse (cause (lines.putting lines.told_down_while_up) (reply.NodeDown 1 1)) }
    ensures holds_none { Caused (lines.putting_nothing lines.told_down) reply.NoTransaction }
    ensures none_first { IsFalse (cause (lines.putting_nothing lines.told_down) (reply.NodeDown 1 1)) }
    ensures down_first { IsFalse (cause (lines.putting lines.told_down) reply.NoTransaction) }
{}

/// What a collection answers.
#[tactic(auto, unfolding(aft_histories::proofs::Stored::stored_forms))]
pub fn collections_caused()
    ensures held { Caused rounds.held_by_reader (rounds.judges (verdict.Held 1 1)) }
    ensures greater { IsFalse (cause rounds.held_by_reader (rounds.judges (verdict.Held 2 1))) }
    ensures given_up { IsFalse (cause rounds.given_up_before (rounds.judges (verdict.Held 1 1))) }
    ensures not_asked { IsFalse (cause rounds.nobody_asked (rounds.judges (verdict.Held 1 1))) }
    ensures retired { Caused (rounds.retires rounds.deleted_all) (rounds.judges verdict.Retired) }
    ensures fault { Caused (rounds.retires rounds.delete_failed) (rounds.judges verdict.Fault) }
    ensures not_retired { IsFalse (cause (rounds.retires rounds.delete_failed) (rounds.judges verdict.Retired)) }
    ensures left_out { IsFalse (cause (rounds.retires rounds.deleted_all) (reply.Collected [])) }
    ensures collecting { Caused rounds.beside_another reply.Collecting }
{}

/// What an announcement and the manager answer.
#[tactic(auto, unfolding(aft_histories::proofs::Stored::stored_forms))]
pub fn rounds_caused()
    ensures announced { Caused rounds.announces (reply.Announced 1 0 1) }
    ensures none_dropped { IsFalse (cause rounds.announces (reply.Announced 1 0 0)) }
    ensures managed { Caused rounds.manages (reply.Managed 1 1) }
    ensures none_missed { IsFalse (cause rounds.manages (reply.Managed 1 0)) }
{}
