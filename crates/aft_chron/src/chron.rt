//! The lock.
ghost use Rattle.std.specs.Prelude.{◌≡◌, ◌+◌, ◌-◌, ◌<◌, ◌≤◌, ◌⊎◌, [], ◌∷◌, ◌++◌, length, false, true, Some, IfOk, IfErr};
ghost use mathlib.Core.List.{IsPrefix};
ghost use Rattle.aft_chron.specs.Standing.{IsFree, left, first_pass, IsSame, HasOneMore, with_entry, united_passes, IsEach};

use crate::memory::Memory;
use crate::pass::Pass;
use crate::storied::Storied;
use crate::turn::{Held, Turn};
use crate::view::{Law, Terms, View};
use atomic_table::{Refused, Table};
use std::alloc::{AllocFailed, Global};
use std::marker::{Brand, Model};
use std::mem::replace;
use std::snapshot::Snapshot;
use std::sync::Wait;

mod steps;

/// A lock round a value. Whoever takes a turn finds the history of the turn before. Passes share its parts. To
/// a contract it is the name of the lock.
#[derive(Drop)]
pub struct Chron<V: Storied> {
    table: Table<Option<V>, View<V::Entry>, Terms<V>, Law, Global>,
}

impl<V: Storied> Model for Chron<V> {
    ghost use Rattle.std.specs.Prelude.{◌≡◌};
    ghost use Rattle.atomic_table.specs.Seated.{TableId};

    ghost Value = { TableId };

    ghost view = { λ lock. lock.table.shared.table_id };

    ghost invariant = { λ lock. (lock.table.shared.table_id.words ≡ 3) × (lock.table.shared.table_id.slots ≡ 1) };
}

impl<V: Storied> Chron<V> {
    /// A lock of so many parts round this value, and the pass that has them all. For want of memory the value
    /// comes back.
    pub fn new(
        alloc: Global,
        value: V,
        parts: u32,
    ) -> Result<(Chron<V>, Pass<V::Entry>), (V, Memory)>
        requires part { 0 < parts }
        requires none_counts { V.count value ≡ 0 }
        ensures pass { IfOk result (λ made. made.1 ≡ first_pass made.0 parts (V.history value)) }
        ensures memory { IfErr result (λ refused. refused.0 ≡ value) }
    {
        let entries = value.entries();
        let terms = Terms {
            parts,
            value: Snapshot::of(&value),
        };
        let slots = in_slot(alloc, value)?;
        match Table::new(alloc, &[entries, 0, 0], slots, &terms) {
            Ok((table, seat)) => Ok((Chron { table }, Pass::of_seat(seat, entries))),
            Err(Refused { slots }) => Err((out_of_slot(slots), Memory)),
        }
    }

    /// Waits for a turn of this pass, and gives the value, whose history begins with all that the pass has
    /// seen. After 2^63 turns of the lock it waits for ever.
    pub fn enter<R: Wait>(&self, rt: &R, pass: &mut Pass<V::Entry>) -> Turn<V>
        requires pass { IsFree pass.old self.now }
        requires part { 0 < pass.old.parts }
        ensures away { pass.new.away ≡ true }
        ensures turn { result.held.pass ≡ record pass.old { seen = V.history result.value } }
        ensures begins { IsPrefix pass.old.seen (V.history result.value) }
        ensures counts { result.held.count ≡ V.count result.value }
        ensures room { V.count result.value + left pass.old ≤ pass.old.whole }
    {
        let (mut seat, _) = replace(pass, Pass::absent()).into_seat();
        let number = steps::draw(&self.table.shared, &mut seat);
        steps::wait(rt, &self.table.shared, &mut seat, number);
        let (value, entries) = steps::take(&self.table.shared, &mut seat, number);
        Turn {
            value,
            held: Held {
                seat,
                number,
                entries,
            },
        }
    }

    /// Ends a turn: the value goes back, and the pass has seen its history, and has made the entry by which
    /// it grew, if it did. Takes no memory.
    pub fn leave(&self, turn: Turn<V>, pass: &mut Pass<V::Entry>)
        requires lock { turn.held.pass.lock ≡ self.now }
        requires pass { pass.old.away ≡ true }
        requires grown { IsSame turn.held (V.history turn.value) (V.count turn.value) ⊎ HasOneMore turn.held (V.history turn.value) (V.count turn.value) }
        ensures same { IsSame turn.held (V.history turn.value) (V.count turn.value) → pass.new ≡ turn.held.pass }
        ensures entry { HasOneMore turn.held (V.history turn.value) (V.count turn.value) → pass.new ≡ with_entry turn.held (V.history turn.value) (V.count turn.value) }
    {
        let Turn { value, held } = turn;
        let Held {
            mut seat,
            number,
            entries,
        } = held;
        let now = value.entries();
        let left = Snapshot::of(&value);
        steps::put_back(&self.table.shared, &mut seat, value);
        if now != entries {
            steps::record(&self.table.shared, &mut seat, &left, number);
        }
        steps::pass_on(&self.table.shared, &mut seat, &left, number);
        *pass = Pass::of_seat(seat, now);
    }

    /// A new pass with so many parts of this one. It has seen the same, and made nothing. A pass that has made
    /// an entry keeps a part. Takes no memory.
    pub fn split(&self, pass: &mut Pass<V::Entry>, parts: u32) -> Pass<V::Entry>
        requires pass { IsFree pass.old self.now }
        requires parts { parts ≤ left pass.old }
        requires keeps { (pass.old.made ≡ []) ⊎ (parts < pass.old.parts) }
        ensures rest { pass.new ≡ record pass.old { parts = pass.old.parts - parts } }
        ensures given { result ≡ record pass.old { parts = parts; counted = 0; made = [] } }
    {
        let (mut seat, seen) = replace(pass, Pass::absent()).into_seat();
        let other = steps::split::<V, Brand>(&self.table.shared, &mut seat, parts);
        *pass = Pass::of_seat(seat, seen);
        Pass::of_seat(other, seen)
    }

    /// The first pass has then seen the longer of what the two had seen, which begins with what either had seen,
    /// and has the parts of both and what either made. Takes no memory.
    pub fn meet(&self, pass: &mut Pass<V::Entry>, other: Pass<V::Entry>)
        requires pass { IsFree pass.old self.now }
        requires other { IsFree other self.now }
        ensures united { pass.new ≡ united_passes pass.old other }
        ensures begins { IsPrefix pass.old.seen pass.new.seen × IsPrefix other.seen pass.new.seen }
    {
        let (mut seat, seen) = replace(pass, Pass::absent()).into_seat();
        let (met, met_seen) = other.into_seat();
        steps::meet(&self.table.shared, &mut seat, met);
        *pass = Pass::of_seat(seat, seen.max(met_seen));
    }

    /// The value. Its history is what the pass has seen: the entries that stood at `new`, and then those that
    /// the pass has made, each once, and no others. Takes no memory.
    pub fn close(self, pass: Pass<V::Entry>) -> V
        requires pass { IsFree pass self }
        requires all { pass.parts ≡ pass.whole }
        ensures history { V.history result ≡ pass.seen }
        ensures opening { IsPrefix pass.opening pass.seen }
        ensures made { IsEach pass.made (length pass.opening) (length pass.seen) }
        ensures counts { V.count result ≡ pass.counted }
    {
        let (seat, _) = pass.into_seat();
        let mut closed = self.table.close_with(seat);
        let value = steps::value_of(closed.take(0));
        closed.free();
        value
    }
}

// The one slot, with the value in it.
fn in_slot<V>(alloc: Global, value: V) -> Result<Vec<Option<V>>, (V, Memory)>
    ensures slot { IfOk result (λ slots. slots.items ≡ Some value ∷ []) }
    ensures memory { IfErr result (λ refused. refused.0 ≡ value) }
{
    let mut slots = Vec::new(alloc);
    match slots.push(Some(value)) {
        Ok(()) => Ok(slots),
        Err(AllocFailed { value }) => {
            slots.destroy_empty();
            Err((steps::value_of(value), Memory))
        }
    }
}

// The value in the one slot.
fn out_of_slot<V>(mut slots: Vec<Option<V>>) -> V
    requires { (value : V) × (slots.items ≡ Some value ∷ []) }
    ensures { slots.items ≡ Some result ∷ [] }
{
    let slot = slots.pop();
    slots.destroy_empty();
    steps::value_of(slot.unwrap())
}
