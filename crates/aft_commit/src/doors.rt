//! The turns of a commit or an abort at the door, and how far they lead.

ghost use Rattle.std.specs.Prelude.{◌≡◌, ◌<◌, ◌≤◌, ◌+◌, ◌-◌, ℕ, Bool, IsTrue, List, length};
ghost use Rattle.aft_commit.specs.Asks.{may_call_at, may_put_at};
ghost use Rattle.aft_commit.specs.Made.{made_at};
ghost use Rattle.aft_commit.specs.View.{FitsAt, Storable, StorableRecord, has_failed_at, has_put_failed, is_storable_at, left_at, looked_stage, next_at, record_stage, released_stage, settled_stage, version_stage};
ghost use Rattle.aft_commit.specs.declared.sight.Sight.TheVariants as sights;
ghost use Rattle.aft_commit.specs.declared.stage.Stage.TheVariants as stages;
ghost use Rattle.aft_keeper.specs.Cause.{HasCause};
ghost use Rattle.aft_lines.specs.CourseWords.{caller_of};
ghost use Rattle.aft_model.specs.DoorKnowledge.{is_open, knows_stored, knows_unused};
ghost use Rattle.aft_model.specs.declared.caller.Hold.{Hold};
ghost use Rattle.aft_turns.specs.Steps.{SameStore, StepsAtDoor};
ghost use Rattle.aft_turns.specs.declared.turn.Where.TheVariants as places;

use crate::calls::{down, few_keys, look, put_record, put_version, release};
use crate::outcome::Outcome;
use crate::sight::Sight;
use crate::stage::Stage;
use aft_door::{Door, DoorFault};
use aft_id::{Bytes, List};
use aft_keeper::Keeper;
use aft_model::{Attempt, By, Reply};
use aft_records::Record;
use aft_turns::refusal;
use std::alloc::Global;
use uuid::Uuid;

/// A turn at the door, and how far it leads.
pub(crate) fn step<K: Keeper>(
    alloc: Global,
    door: &mut Door<K>,
    by: By,
    node: u32,
    aborts: bool,
    stage: Stage,
) -> Stage
    requires next { next_at node stage ≡ places.Door }
    requires fits { FitsAt node stage }
    requires opened { IsTrue (is_open door.old.history) }
    requires storable { is_storable_at stage }
    requires knows { may_put_at stage door.old.history }
    ensures left { left_at result < left_at stage }
    ensures fits { FitsAt node result }
    ensures steps { (clock : ℕ) (hold : Hold) → may_call_at stage door.old.history → StepsAtDoor by (made_at clock by hold aborts stage) (made_at clock by hold aborts result) door.old.history door.new.history }
    ensures cause { HasCause (IsTrue (has_failed_at stage result)) door.old.faults door.new.faults }
    ensures store { SameStore door.old door.new }
{
    match stage {
        Stage::Settles {
            attempt,
            written,
            values,
        } => settle(alloc, door, by, aborts, attempt, written, values),
        Stage::Stores {
            attempt,
            written,
            values,
            count,
        } => store(door, by, attempt, written, values, count),
        Stage::Failed { attempt, written } => look_again(alloc, door, by, attempt, written),
        Stage::Releases {
            attempt,
            uuid,
            outcome,
        } => let_go(door, by, attempt, uuid, outcome),
        stage => stage,
    }
}

/// The look that settles a doubt.
fn settle<K: Keeper>(
    alloc: Global,
    door: &mut Door<K>,
    by: By,
    aborts: bool,
    attempt: Attempt,
    written: Record,
    values: List<Bytes>,
) -> Stage
    requires opened { IsTrue (is_open door.old.history) }
    ensures left { left_at result < 38 }
    ensures fits { FitsAt attempt.node result }
    ensures steps { (clock : ℕ) (hold : Hold) → may_call_at (stages.Settles attempt written values) door.old.history → StepsAtDoor by (made_at clock by hold aborts (stages.Settles attempt written values)) (made_at clock by hold aborts result) door.old.history door.new.history }
    ensures cause { HasCause (IsTrue (has_failed_at (stages.Settles attempt written values) result)) door.old.faults door.new.faults }
    ensures store { SameStore door.old door.new }
{
    let sight = look(alloc, door, by, attempt, &written);
    settled(sight, aborts, attempt, written, values)
}

/// Where the look that settles a doubt leads: behind one that finds nothing a commit makes all its puts again.
fn settled(
    sight: Sight,
    aborts: bool,
    attempt: Attempt,
    written: Record,
    values: List<Bytes>,
) -> Stage
    ensures value { result ≡ settled_stage sight aborts attempt written values }
    ensures left { left_at result < 38 }
{
    few_keys(&written);
    match sight {
        Sight::Recorded => Stage::Recorded { attempt, written },
        Sight::Absent => found_none(aborts, attempt, written, values),
        Sight::Failed => Stage::Doubts {
            attempt,
            reply: Reply::StoreFault,
        },
        Sight::Refused(reply) => Stage::Doubts { attempt, reply },
    }
}

/// What follows where no record was found: an abort lets its claim go, and a commit makes all its puts again.
fn found_none(aborts: bool, attempt: Attempt, written: Record, values: List<Bytes>) -> Stage
    ensures { result ≡ settled_stage sights.Absent aborts attempt written values }
{
    let uuid = uuid_of(&written);
    if aborts {
        Stage::Releases {
            attempt,
            uuid,
            outcome: Outcome::Absent,
        }
    } else {
        Stage::Stores {
            attempt,
            written,
            values,
            count: 0,
        }
    }
}

/// The UUID of a record.
fn uuid_of(written: &Record) -> Uuid
    ensures { result ≡ written.now.commit.id.uuid }
{
    written.commit.id.uuid
}

/// The next put: of a version, in key order, or behind them all of the record.
fn store<K: Keeper>(
    door: &mut Door<K>,
    by: By,
    attempt: Attempt,
    written: Record,
    values: List<Bytes>,
    count: usize,
) -> Stage
    requires opened { IsTrue (is_open door.old.history) }
    requires storable { Storable attempt written values }
    requires knows { may_put_at (stages.Stores attempt written values count) door.old.history }
    ensures left { left_at result < left_at (stages.Stores attempt written values count) }
    ensures fits { FitsAt attempt.node result }
    ensures steps { (clock : ℕ) (hold : Hold) (aborts : Bool) → may_call_at (stages.Stores attempt written values count) door.old.history → StepsAtDoor by (made_at clock by hold aborts (stages.Stores attempt written values count)) (made_at clock by hold aborts result) door.old.history door.new.history }
    ensures cause { HasCause (IsTrue (has_failed_at (stages.Stores attempt written values count) result)) door.old.faults door.new.faults }
    ensures store { SameStore door.old door.new }
{
    if count < written.commit.keys.list().len() {
        store_version(door, by, attempt, written, values, count)
    } else {
        store_record(door, by, attempt, written)
    }
}

/// The put of a version.
fn store_version<K: Keeper>(
    door: &mut Door<K>,
    by: By,
    attempt: Attempt,
    written: Record,
    values: List<Bytes>,
    count: usize,
) -> Stage
    requires opened { IsTrue (is_open door.old.history) }
    requires more { count < length written.commit.keys }
    requires storable { Storable attempt written values }
    requires knows { IsTrue (knows_unused (caller_of attempt) written.commit.id.uuid door.old.history) }
    ensures left { left_at result < left_at (stages.Stores attempt written values count) }
    ensures fits { FitsAt attempt.node result }
    ensures steps { (clock : ℕ) (hold : Hold) (aborts : Bool) → may_call_at (stages.Stores attempt written values count) door.old.history → StepsAtDoor by (made_at clock by hold aborts (stages.Stores attempt written values count)) (made_at clock by hold aborts result) door.old.history door.new.history }
    ensures cause { HasCause (IsTrue (has_failed_at (stages.Stores attempt written values count) result)) door.old.faults door.new.faults }
    ensures store { SameStore door.old door.new }
{
    let told = put_version(door, by, attempt, &written, &values, count);
    version_put(told, attempt, written, values, count)
}

/// Where the put of a version leads: on, or into doubt.
fn version_put(
    told: Result<(), DoorFault>,
    attempt: Attempt,
    written: Record,
    values: List<Bytes>,
    count: usize,
) -> Stage
    requires { count < length written.commit.keys }
    ensures value { result ≡ version_stage attempt written values count told }
    ensures left { left_at result < length written.commit.keys - count + 5 }
{
    few_keys(&written);
    match told {
        Ok(()) => Stage::Stores {
            attempt,
            written,
            values,
            count: count + 1,
        },
        Err(fault) => Stage::Doubts {
            attempt,
            reply: refusal(fault, attempt),
        },
    }
}

/// The put of the record.
fn store_record<K: Keeper>(door: &mut Door<K>, by: By, attempt: Attempt, written: Record) -> Stage
    requires opened { IsTrue (is_open door.old.history) }
    requires storable { StorableRecord attempt written }
    requires knows { IsTrue (knows_stored (caller_of attempt) written.commit door.old.history) }
    ensures left { left_at result < 5 }
    ensures fits { FitsAt attempt.node result }
    ensures steps { (clock : ℕ) (hold : Hold) (aborts : Bool) (values : List (List ℕ)) (count : ℕ) → length written.commit.keys ≤ count → may_call_at (stages.Stores attempt written values count) door.old.history → StepsAtDoor by (made_at clock by hold aborts (stages.Stores attempt written values count)) (made_at clock by hold aborts result) door.old.history door.new.history }
    ensures cause { HasCause (IsTrue (has_put_failed result)) door.old.faults door.new.faults }
    ensures store { SameStore door.old door.new }
{
    let told = put_record(door, by, attempt, &written);
    record_put(told, attempt, written)
}

/// Where the put of the record leads: where it failed the record is to be looked for.
fn record_put(told: Result<(), DoorFault>, attempt: Attempt, written: Record) -> Stage
    ensures value { result ≡ record_stage attempt written told }
    ensures left { left_at result < 5 }
{
    match told {
        Ok(()) => Stage::Recorded { attempt, written },
        Err(DoorFault::Failed) => Stage::Failed { attempt, written },
        Err(fault) => Stage::Doubts {
            attempt,
            reply: refusal(fault, attempt),
        },
    }
}

/// The look behind a put of the record that failed.
fn look_again<K: Keeper>(
    alloc: Global,
    door: &mut Door<K>,
    by: By,
    attempt: Attempt,
    written: Record,
) -> Stage
    requires opened { IsTrue (is_open door.old.history) }
    ensures left { left_at result < 4 }
    ensures fits { FitsAt attempt.node result }
    ensures steps { (clock : ℕ) (hold : Hold) (aborts : Bool) → may_call_at (stages.Failed attempt written) door.old.history → StepsAtDoor by (made_at clock by hold aborts (stages.Failed attempt written)) (made_at clock by hold aborts result) door.old.history door.new.history }
    ensures cause { HasCause (IsTrue (has_failed_at (stages.Failed attempt written) result)) door.old.faults door.new.faults }
    ensures store { SameStore door.old door.new }
{
    let sight = look(alloc, door, by, attempt, &written);
    looked_again(sight, attempt, written)
}

/// Where the look behind a put of the record that failed leads: on where the record is there, and else into doubt.
fn looked_again(sight: Sight, attempt: Attempt, written: Record) -> Stage
    ensures { result ≡ looked_stage sight attempt written }
{
    match sight {
        Sight::Recorded => Stage::Recorded { attempt, written },
        Sight::Absent => Stage::Doubts {
            attempt,
            reply: Reply::StoreFault,
        },
        Sight::Failed => Stage::Doubts {
            attempt,
            reply: Reply::InDoubt,
        },
        Sight::Refused(reply) => Stage::Doubts { attempt, reply },
    }
}

/// The release of the claim.
fn let_go<K: Keeper>(
    door: &mut Door<K>,
    by: By,
    attempt: Attempt,
    uuid: Uuid,
    outcome: Outcome,
) -> Stage
    ensures left { left_at result < 2 }
    ensures fits { FitsAt attempt.node result }
    ensures steps { (clock : ℕ) (hold : Hold) (aborts : Bool) → may_call_at (stages.Releases attempt uuid outcome) door.old.history → StepsAtDoor by (made_at clock by hold aborts (stages.Releases attempt uuid outcome)) (made_at clock by hold aborts result) door.old.history door.new.history }
    ensures cause { HasCause (IsTrue (has_failed_at (stages.Releases attempt uuid outcome) result)) door.old.faults door.new.faults }
    ensures store { SameStore door.old door.new }
{
    let released = release(door, by, attempt, uuid);
    let_go_to(released, attempt, uuid, outcome)
}

/// Where the release leads: where the incarnation was shut out, what is stored or settled comes into doubt, and what leaves is over.
fn let_go_to(released: bool, attempt: Attempt, uuid: Uuid, outcome: Outcome) -> Stage
    ensures { result ≡ released_stage released attempt uuid outcome }
{
    if released {
        return Stage::Ends {
            attempt,
            uuid,
            outcome,
        };
    }
    match outcome {
        Outcome::Left { .. } => Stage::ShutOut { attempt },
        _ => Stage::Doubts {
            attempt,
            reply: down(attempt),
        },
    }
}
