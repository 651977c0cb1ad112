//! What is kept at each moment of a run, and where it isn't.

ghost use Rattle.std.specs.Prelude.{◌≡◌, false, true, IsFalse, IsTrue, None, Some};
ghost use Rattle.aft_lines.specs.Holding.{DeskHeld, claims_held, desk_held, fetches_stay_open};
ghost use Rattle.aft_lines.specs.RunsSoFar.{RunsSoFar, all_lead_somewhere, all_make, opens_so, steps_are_turns};
ghost use Rattle.aft_model.specs.Attempts.{open_reads, owner};
ghost use Rattle.aft_model.specs.Looks.{deletes_cleared};
ghost use Rattle.aft_runs.specs.ClaimedUuids.{begins_unclaimed};
ghost use Rattle.aft_runs.specs.Midway.{boots_second, boots_second_first, doubted_node, ends_first, fetch_outlives, put_fetches, settled_node};
ghost use Rattle.aft_runs.specs.OpeningTurns.{round_at};
ghost use Rattle.aft_runs.specs.OrphanRounds.{by_older_claim, counts, crashes_and, keeps_claim};
ghost use Rattle.aft_runs.specs.RunLines.{attempt_at, last, other, put_node, started_node};
ghost use Rattle.aft_runs.specs.Scans.{is_whole_scan, no_record, two_records};
ghost use Rattle.aft_runs.specs.TwoVersions.{deletes_of, looks_once, unlisted};

/// A run may be on its way in its opening, or in a round that holds the UUID of one of two versions. It may not be where the nodes boot otherwise,
/// or a round deletes what it wasn't shown, or a put's line asks the store for something. What stands behind all of the door's history is no step.
#[tactic(auto, unfolding(aft_histories::proofs::Stored::stored_forms))]
pub fn on_its_way()
    ensures opening { RunsSoFar boots_second.asked boots_second.ran }
    ensures other_order { IsFalse (opens_so boots_second_first.asked boots_second_first.ran) }
    ensures round { RunsSoFar looks_once.asked looks_once.ran }
    ensures round_holds { DeskHeld looks_once.asked looks_once.ran }
    ensures unlisted { IsFalse (all_lead_somewhere (deletes_of unlisted).asked (deletes_of unlisted).ran) }
    ensures goes_on { IsTrue (all_lead_somewhere put_fetches.asked put_fetches.ran) }
    ensures makes_more { IsFalse (all_make put_fetches.asked put_fetches.ran) }
    ensures past_end { IsFalse (steps_are_turns (round_at 8).asked (round_at 8).ran) }
{}

/// Who has claimed nothing holds nothing, what a round doesn't let go stays held by no line, looks under an older claim clear nothing, and a fetch may not outlive its transaction.
#[tactic(auto, unfolding(aft_histories::proofs::Stored::stored_forms))]
pub fn not_held()
    ensures unclaimed { IsFalse (claims_held begins_unclaimed.ran.trace) }
    ensures not_let_go { IsFalse (desk_held (crashes_and keeps_claim (counts 0 0 0 1)).asked (crashes_and keeps_claim (counts 0 0 0 1)).ran) }
    ensures older_looks { IsFalse (deletes_cleared (crashes_and by_older_claim (counts 1 0 0 0)).ran.trace.door) }
    ensures outlives { IsFalse (fetches_stay_open fetch_outlives.ran.trace) }
{}

/// Who moves an attempt on, and how many of its fetches aren't over.
#[tactic(auto, unfolding(aft_histories::proofs::Stored::stored_forms))]
pub fn movers()
    ensures running { owner (attempt_at 1) put_node ≡ None }
    ensures committing { owner (attempt_at 1) started_node ≡ Some last }
    ensures in_doubt { owner (attempt_at 1) doubted_node ≡ None }
    ensures settled { owner (attempt_at 1) settled_node ≡ Some other }
    ensures ends_first { open_reads (attempt_at 1) ends_first ≡ 1 }
{}

/// A scan goes as far as its limit, and what it was shown is judged or not.
#[tactic(auto, unfolding(aft_histories::proofs::Stored::stored_forms))]
pub fn scans_limited()
    ensures within { IsTrue (is_whole_scan 2 true two_records) }
    ensures past { IsFalse (is_whole_scan 1 true two_records) }
    ensures judged { IsFalse (is_whole_scan 2 true no_record) }
    ensures not_judged { IsTrue (is_whole_scan 2 false no_record) }
{}
