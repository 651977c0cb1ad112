//! How often each id stands in the reads of the attempts.

ghost use Rattle.std.specs.Prelude.{◌≡◌, ◌≤◌, ◌+◌, ◌-◌, ◌++◌, [], ◌∷◌, None, Some, IsSome, IfSome, if◌then◌else◌, OnErr, OnOk};
ghost use Rattle.std.specs.Map.{lookup};
ghost use Rattle.aft_id.specs.TxnId.{same_id};
ghost use Rattle.aft_id.specs.declared.txn_id.TxnId.{TxnId as Id};
ghost use Rattle.aft_model.specs.Attempts.{with_read};
ghost use Rattle.aft_model.specs.ReadSet.{read_at};
ghost use Rattle.aft_txn.specs.Fields.{AreNeeded, pairs_at, pin_count};

use aft_id::{Memory, TxnId};
use aft_model::{ReadPair, ReadSet};
use aft_records::Key;
use indexmap::IndexMap;
use std::alloc::AllocError;

/// How often each id that was read stands in the reads. No id has the count 0.
pub(crate) type Pins = IndexMap<TxnId, u64>;

/// Counts an id once more. Where memory is wanting, or the count would pass 2^64 - 1, nothing changes.
pub(crate) fn pin(pins: &mut Pins, id: &TxnId) -> Result<(), AllocError>
    requires { AreNeeded pins.old.entries }
    ensures needed { AreNeeded pins.new.entries }
    ensures ok { OnOk result ((q : Id) → pin_count q pins.new.entries ≡ (if same_id id.now q then pin_count q pins.old.entries + 1 else pin_count q pins.old.entries)) }
    ensures err { OnErr result ((q : Id) → pin_count q pins.new.entries ≡ pin_count q pins.old.entries) }
{
    let count = pins.get(id).copied().unwrap_or(0);
    let more = count.checked_add(1).ok_or(AllocError)?;
    pins.insert(*id, more)?;
    Ok(())
}

/// Counts an id that has a count once less.
pub(crate) fn unpin(pins: &mut Pins, id: &TxnId)
    requires needed { AreNeeded pins.old.entries }
    requires counted { 1 ≤ pin_count id.now pins.old.entries }
    ensures needed { AreNeeded pins.new.entries }
    ensures less { (q : Id) → pin_count q pins.new.entries ≡ (if same_id id.now q then pin_count q pins.old.entries - 1 else pin_count q pins.old.entries) }
{
    let count = pins.get(id).copied().unwrap_or(0);
    if count > 1 {
        set_count(pins, id, count - 1);
    } else {
        pins.swap_remove(id);
    }
}

/// Sets the count of an id that has one.
fn set_count(pins: &mut Pins, id: &TxnId, count: u64)
    requires { IsSome (lookup (same_id id.now) pins.old.entries) }
    ensures { (q : Id) → lookup (same_id q) pins.new.entries ≡ (if same_id id.now q then Some count else lookup (same_id q) pins.old.entries) }
{
    if let Some(its_count) = pins.get_mut(id) {
        *its_count = count;
    }
}

/// Counts each id of some reads once less, as often as it stands there.
pub(crate) fn unpin_all(pins: &mut Pins, pairs: &[ReadPair])
    requires needed { AreNeeded pins.old.entries }
    requires counted { (q : Id) → pairs_at q pairs.now ≤ pin_count q pins.old.entries }
    ensures needed { AreNeeded pins.new.entries }
    ensures less { (q : Id) → pin_count q pins.new.entries ≡ pin_count q pins.old.entries - pairs_at q pairs.now }
{
    for pair in pairs {
        unpin(pins, &pair.id);
    }
}

/// Notes that a key was read at an id, and counts the id. Where memory is wanting nothing changes.
fn add_pinned(reads: &mut ReadSet, pins: &mut Pins, key: Key, id: &TxnId) -> Result<(), Memory>
    requires new { read_at key reads.old ≡ None }
    requires needed { AreNeeded pins.old.entries }
    ensures needed { AreNeeded pins.new.entries }
    ensures ok { OnOk result (reads.new ≡ reads.old ++ record { key = key; id = id.now } ∷ []) }
    ensures err { OnErr result (reads.new ≡ reads.old) }
    ensures counted { (q : Id) → pin_count q pins.new.entries + pairs_at q reads.old ≡ pin_count q pins.old.entries + pairs_at q reads.new }
{
    pin(pins, id)?;
    match reads.add(key, *id) {
        Ok(()) => Ok(()),
        Err(Memory) => {
            unpin(pins, id);
            Err(Memory)
        }
    }
}

/// Notes that a key was read at an id, and counts the id, unless it is noted. Where memory is wanting nothing
/// changes.
pub(crate) fn note(reads: &mut ReadSet, pins: &mut Pins, key: Key, id: &TxnId) -> Result<(), Memory>
    requires same { IfSome (read_at key reads.old) (λ read. read ≡ id.now) }
    requires needed { AreNeeded pins.old.entries }
    ensures needed { AreNeeded pins.new.entries }
    ensures ok { OnOk result (reads.new ≡ with_read (record { key = key; id = id.now }) reads.old) }
    ensures err { OnErr result (reads.new ≡ reads.old) }
    ensures counted { (q : Id) → pin_count q pins.new.entries + pairs_at q reads.old ≡ pin_count q pins.old.entries + pairs_at q reads.new }
{
    match reads.at(&key) {
        Some(_) => Ok(()),
        None => add_pinned(reads, pins, key, id),
    }
}
