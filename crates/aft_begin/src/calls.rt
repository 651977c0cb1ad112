//! What a line that claims a UUID does at the door, and what comes of it.

ghost use Rattle.std.specs.Prelude.{◌≡◌, ◌⊎◌, ◌&&◌, ◌||◌, IfOk, IfSome, IsTrue, Some, false, not};
ghost use Rattle.aft_begin.specs.Calls.{ClaimsSo, ForgetsSo, LooksSo, ReleasesSo, shows_fault, tells_fault};
ghost use Rattle.aft_begin.specs.Seen.{MayShow, is_short, name_of, read_id, told, with_short};
ghost use Rattle.aft_begin.specs.declared.looked.Looked.TheVariants.{Stops};
ghost use Rattle.aft_keeper.specs.Cause.{HasCause};
ghost use Rattle.aft_lines.specs.CourseWords.{caller_of};
ghost use Rattle.aft_model.specs.Claims.{holds};
ghost use Rattle.aft_model.specs.DoorKnowledge.{is_open, knows_short_of};
ghost use Rattle.aft_model.specs.Membership.{is_up};
ghost use Rattle.aft_model.specs.NodeRules.{is_begin_refusal};
ghost use Rattle.aft_model.specs.NodeSights.{is_fenced};
ghost use Rattle.aft_records.specs.Names.{name_text};
ghost use Rattle.aft_turns.specs.Steps.{SameStore};

use crate::looked::Looked;
use crate::sought::Sought;
use aft_door::{Door, DoorFault};
use aft_id::{Bytes, Memory, TxnId, uuid_bytes};
use aft_keeper::Keeper;
use aft_model::{Attempt, By, Caller, Reply};
use aft_records::{Commit, Marker, Name, RecordFault};
use aft_turns::refusal;
use std::alloc::Global;
use uuid::Uuid;

/// The caller of the door for a line of an attempt.
fn caller(by: By, attempt: Attempt) -> Caller
    ensures { result ≡ record { node = attempt.node; inc = attempt.inc; by = by } }
{
    Caller {
        node: attempt.node,
        inc: attempt.inc,
        by,
    }
}

/// That an attempt's incarnation is shut out.
pub(crate) fn down(attempt: Attempt) -> Reply
    ensures { result ≡ Reply.NodeDown attempt.node attempt.inc }
{
    Reply::NodeDown {
        node: attempt.node,
        inc: attempt.inc,
    }
}

/// Whether an attempt's incarnation holds a UUID.
fn is_holder<K: Keeper>(door: &Door<K>, attempt: Attempt, uuid: Uuid) -> bool
    ensures { result ≡ holds (caller_of attempt) uuid door.now.history }
{
    match door.holder(uuid) {
        Some((node, inc)) => attempt.node == node && attempt.inc == inc,
        None => false,
    }
}

/// Claims the UUID, or gives what is to be answered. Whoever holds it already goes the way of one that is shut out.
pub(crate) fn claim<K: Keeper>(
    door: &mut Door<K>,
    by: By,
    attempt: Attempt,
    uuid: Uuid,
) -> Option<Reply>
    requires open { IsTrue (is_open door.old.history) }
    ensures claims { IsTrue (is_fenced (caller_of attempt) door.old.history || is_up (caller_of attempt) door.old.history && not (holds (caller_of attempt) uuid door.old.history)) → ClaimsSo by attempt uuid door.old.history door.new.history result }
    ensures may { IfSome result (λ reply. IsTrue (is_begin_refusal (Some reply))) }
    ensures faults { door.new.faults ≡ door.old.faults }
    ensures store { SameStore door.old door.new }
{
    if is_holder(door, attempt, uuid) {
        return Some(down(attempt));
    }
    match door.claim(caller(by, attempt), uuid) {
        Ok(()) => None,
        Err(DoorFault::Busy { node, inc }) => Some(Reply::Busy { node, inc }),
        Err(DoorFault::Forgotten) => Some(Reply::Forgotten(uuid)),
        Err(fault) => Some(refusal(fault, attempt)),
    }
}

/// Looks for the record or the marker of the UUID.
pub(crate) fn look<K: Keeper>(
    alloc: Global,
    door: &mut Door<K>,
    by: By,
    attempt: Attempt,
    uuid: Uuid,
    sought: Sought,
) -> Looked
    requires open { IsTrue (is_open door.old.history) }
    ensures looks { IsTrue (is_fenced (caller_of attempt) door.old.history || is_up (caller_of attempt) door.old.history) → LooksSo by attempt uuid sought door.old.history door.new.history result }
    ensures may { MayShow uuid result }
    ensures cause { HasCause (IsTrue (shows_fault result)) door.old.faults door.new.faults }
    ensures store { SameStore door.old door.new }
{
    let name = name(sought, uuid);
    let told = door.get(caller(by, attempt), &name);
    Door::law_legal(door);
    uuid_bytes(&uuid);
    match told {
        Ok(None) => Looked::Nothing,
        Ok(Some(bytes)) => shown(alloc, uuid, sought, &bytes),
        Err(fault) => Looked::Stops(refusal(fault, attempt)),
    }
}

/// The name of what is sought.
fn name(sought: Sought, uuid: Uuid) -> Name
    ensures { name_text result ≡ name_of sought uuid }
{
    match sought {
        Sought::Record => Name::CommitOf { uuid },
        Sought::Marker => Name::RetiredOf { uuid },
    }
}

/// What bytes show that stand under the name of what is sought: the id of the UUID's commit, or damage.
fn shown(alloc: Global, uuid: Uuid, sought: Sought, bytes: &Bytes) -> Looked
    ensures shown { (result ≡ told sought uuid bytes.now) ⊎ (result ≡ Stops Reply.NoMemory) }
    ensures may { MayShow uuid result }
    ensures no_fault { shows_fault result ≡ false }
{
    match id_in(alloc, sought, bytes) {
        Ok(Some((id, short))) if id.uuid == uuid => Looked::Shows { id, short },
        Ok(_) => Looked::Stops(damaged(alloc, uuid, sought)),
        Err(_) => Looked::Stops(Reply::NoMemory),
    }
}

/// The id that bytes are read as, if they are a record or a marker, and whether they are a short marker.
fn id_in(alloc: Global, sought: Sought, bytes: &Bytes) -> Result<Option<(TxnId, bool)>, Memory>
    ensures { IfOk result (λ read. read ≡ with_short (is_short sought bytes.now) (read_id sought bytes.now)) }
{
    match sought {
        Sought::Record => match Commit::decode(alloc, bytes.as_slice()) {
            Ok(commit) => Ok(Some((commit.id, false))),
            Err(RecordFault::Memory) => Err(Memory),
            Err(_) => Ok(None),
        },
        Sought::Marker => match Marker::decode(alloc, bytes.as_slice()) {
            Ok(Marker::Full(commit)) => Ok(Some((commit.id, false))),
            Ok(Marker::Done(id)) => Ok(Some((id, true))),
            Err(RecordFault::Memory) => Err(Memory),
            Err(_) => Ok(None),
        },
    }
}

/// That what stands under the name of what is sought is damaged.
fn damaged(alloc: Global, uuid: Uuid, sought: Sought) -> Reply
    ensures { (result ≡ Reply.Damaged (name_of sought uuid)) ⊎ (result ≡ Reply.NoMemory) }
{
    match name(sought, uuid).write(alloc) {
        Ok(text) => Reply::Damaged(text),
        Err(_) => Reply::NoMemory,
    }
}

/// Deletes the short marker of an id, which was shown, and gives what is to be answered. Whoever doesn't hold the UUID goes the way
/// of one that is shut out.
pub(crate) fn forget<K: Keeper>(door: &mut Door<K>, by: By, attempt: Attempt, id: &TxnId) -> Reply
    requires open { IsTrue (is_open door.old.history) }
    requires short { IsTrue (knows_short_of (caller_of attempt) id.now door.old.history) }
    ensures forgets { IsTrue (is_fenced (caller_of attempt) door.old.history || is_up (caller_of attempt) door.old.history && holds (caller_of attempt) id.now.uuid door.old.history) → ForgetsSo by attempt id.now door.old.history door.new.history result }
    ensures may { IsTrue (is_begin_refusal (Some result)) }
    ensures cause { HasCause (IsTrue (tells_fault result)) door.old.faults door.new.faults }
    ensures store { SameStore door.old door.new }
{
    match door.forget(caller(by, attempt), *id) {
        Ok(()) => Reply::Forgot(*id),
        Err(fault) => refusal(fault, attempt),
    }
}

/// Lets the claim go; whether that was done. Whoever doesn't hold the UUID goes the way of one that is shut out.
pub(crate) fn release<K: Keeper>(door: &mut Door<K>, by: By, attempt: Attempt, uuid: Uuid) -> bool
    ensures releases { IsTrue (is_fenced (caller_of attempt) door.old.history || is_up (caller_of attempt) door.old.history && holds (caller_of attempt) uuid door.old.history) → ReleasesSo by attempt uuid door.old.history door.new.history result }
    ensures faults { door.new.faults ≡ door.old.faults }
    ensures store { SameStore door.old door.new }
{
    door.release(caller(by, attempt), uuid).is_ok()
}
