//! The turns of a line that claims a UUID at the door, and how far they lead.

ghost use Rattle.aft_begin.specs.Made.{made_at, may_call_at, stood_at, told_fault_at};
ghost use Rattle.aft_begin.specs.View.{FitsAt, left_at};
ghost use Rattle.aft_begin.specs.declared.aim.Aim.TheVariants as aims;
ghost use Rattle.aft_begin.specs.declared.stage.Stage.TheVariants as stages;
ghost use Rattle.aft_keeper.specs.Cause.{HasCause};
ghost use Rattle.aft_lines.specs.CourseWords.{caller_of};
ghost use Rattle.aft_model.specs.DoorKnowledge.{is_open, knows_short_of};
ghost use Rattle.aft_model.specs.NodeRules.{is_begin_refusal};
ghost use Rattle.aft_turns.specs.Steps.{SameStore, StepsAtDoor};
ghost use Rattle.std.specs.Prelude.{◌≡◌, ◌<◌, ℕ, IsTrue, Some};

use crate::aim::Aim;
use crate::behind::behind;
use crate::calls::{claim, down, forget, look, release};
use crate::sought::Sought;
use crate::stage::Stage;
use aft_door::Door;
use aft_id::TxnId;
use aft_keeper::Keeper;
use aft_model::{Attempt, By, Reply};
use std::alloc::Global;
use uuid::Uuid;

/// The claim of the UUID.
pub(crate) fn claims<K: Keeper>(
    aim: Aim,
    door: &mut Door<K>,
    by: By,
    uuid: Uuid,
    attempt: Attempt,
) -> Stage
    requires open { IsTrue (is_open door.old.history) }
    ensures steps { (node : ℕ) → may_call_at uuid (stages.Claims attempt) door.old.history → StepsAtDoor by (stood_at aim by node uuid (stages.Claims attempt) door.old.history) (made_at aim by node uuid result) door.old.history door.new.history }
    ensures fits { FitsAt aim attempt.node uuid result }
    ensures left { left_at aim result < left_at aim (stages.Claims attempt) }
    ensures cause { HasCause (IsTrue (told_fault_at result)) door.old.faults door.new.faults }
    ensures store { SameStore door.old door.new }
{
    match claim(door, by, attempt, uuid) {
        None => Stage::Seeks {
            attempt,
            sought: Sought::Record,
        },
        Some(reply) => Stage::GivesUp { attempt, reply },
    }
}

/// A look for the record or the marker.
pub(crate) fn seeks<K: Keeper>(
    aim: Aim,
    alloc: Global,
    door: &mut Door<K>,
    by: By,
    uuid: Uuid,
    attempt: Attempt,
    sought: Sought,
) -> Stage
    requires open { IsTrue (is_open door.old.history) }
    ensures steps { (node : ℕ) → may_call_at uuid (stages.Seeks attempt sought) door.old.history → StepsAtDoor by (stood_at aim by node uuid (stages.Seeks attempt sought) door.old.history) (made_at aim by node uuid result) door.old.history door.new.history }
    ensures fits { FitsAt aim attempt.node uuid result }
    ensures left { left_at aim result < left_at aim (stages.Seeks attempt sought) }
    ensures cause { HasCause (IsTrue (told_fault_at result)) door.old.faults door.new.faults }
    ensures store { SameStore door.old door.new }
{
    let looked = look(alloc, door, by, attempt, uuid, sought);
    behind(aim, attempt, uuid, sought, looked)
}

/// The delete of the short marker.
pub(crate) fn forgets<K: Keeper>(
    aim: Aim,
    door: &mut Door<K>,
    by: By,
    uuid: Uuid,
    attempt: Attempt,
    id: TxnId,
) -> Stage
    requires open { IsTrue (is_open door.old.history) }
    requires short { IsTrue (knows_short_of (caller_of attempt) id door.old.history) }
    requires own { id.uuid ≡ uuid }
    ensures steps { (node : ℕ) → may_call_at uuid (stages.Forgets attempt id) door.old.history → StepsAtDoor by (stood_at aim by node uuid (stages.Forgets attempt id) door.old.history) (made_at aim by node uuid result) door.old.history door.new.history }
    ensures fits { FitsAt aim attempt.node uuid result }
    ensures left { left_at aim result < 3 }
    ensures cause { HasCause (IsTrue (told_fault_at result)) door.old.faults door.new.faults }
    ensures store { SameStore door.old door.new }
{
    let reply = forget(door, by, attempt, &id);
    Stage::LetsGo { attempt, reply }
}

/// The release of the claim, behind which this is to be answered.
pub(crate) fn lets_go<K: Keeper>(
    aim: Aim,
    door: &mut Door<K>,
    by: By,
    uuid: Uuid,
    attempt: Attempt,
    reply: Reply,
) -> Stage
    requires may { IsTrue (is_begin_refusal (Some reply)) }
    ensures steps { (node : ℕ) → may_call_at uuid (stages.LetsGo attempt reply) door.old.history → StepsAtDoor by (stood_at aim by node uuid (stages.LetsGo attempt reply) door.old.history) (made_at aim by node uuid result) door.old.history door.new.history }
    ensures fits { FitsAt aim attempt.node uuid result }
    ensures left { left_at aim result < 2 }
    ensures cause { HasCause (IsTrue (told_fault_at result)) door.old.faults door.new.faults }
    ensures store { SameStore door.old door.new }
{
    if release(door, by, attempt, uuid) {
        Stage::GivesUp { attempt, reply }
    } else {
        Stage::GivesUp {
            attempt,
            reply: down(attempt),
        }
    }
}
