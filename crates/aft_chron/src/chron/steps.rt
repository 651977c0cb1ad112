//! The steps of a turn, one atomic step each. Word 0 is the length of the history, word 1 the next number to be
//! drawn, and word 2 the number whose turn it is. The one slot has the value.
ghost use Rattle.std.specs.Prelude.{◌≡◌, ◌+◌, ◌-◌, ◌^◌, ◌<◌, ◌≤◌, ◌⊎◌, [], ◌∷◌, ◌++◌, length, Some, None, IsSome};
ghost use mathlib.Core.List.{IsPrefix};
ghost use Rattle.aft_chron.specs.Steps.{at_stage, knowing, having_made, keeping, given, united};
ghost use Rattle.aft_chron.specs.Places.{IsLock, IsLonger};
ghost use Rattle.aft_chron.specs.declared.view.Stage.TheVariants.{Out, Waits, Called, Inside};

use crate::plays::{Cut, Draw, Know, Look, Part, PassOn, Record, Tell, Unite};
use crate::storied::Storied;
use crate::view::{Law, Terms, View};
use atomic_table::{Seat, Shared};
use std::snapshot::Snapshot;
use std::sync::Wait;
use std::thread;

const LENGTH: usize = 0;

const TICKET: usize = 1;

const TURN: usize = 2;

const SLOT: usize = 0;

/// No turn has this number, or a greater one.
const END: u64 = 1 << 63;

type Core<V> = Shared<Option<V>, View<<V as Storied>::Entry>, Terms<V>, Law>;

type Place<V> = Seat<Option<V>, View<<V as Storied>::Entry>>;

/// Draws a number.
pub(super) fn draw<V: Storied>(core: &Core<V>, seat: &mut Place<V>) -> u64
    requires table { (seat.old.table_id ≡ core.now.table_id) × IsLock core.now.table_id }
    requires seat { (seat.old.me.0.stage ≡ Out) × (0 < seat.old.me.0.parts) }
    ensures table { seat.new.table_id ≡ seat.old.table_id }
    ensures seat { seat.new.me ≡ (at_stage seat.old.me.0 (Waits result), seat.old.me.1) }
{
    core.fetch_add::<Draw>(seat, TICKET, 1)
}

/// Waits until the seat's number is up.
pub(super) fn wait<V: Storied, R: Wait>(rt: &R, core: &Core<V>, seat: &mut Place<V>, number: u64)
    requires table { (seat.old.table_id ≡ core.now.table_id) × IsLock core.now.table_id }
    requires seat { seat.old.me.0.stage ≡ Waits number }
    ensures number { number < 2 ^ 63 }
    ensures table { seat.new.table_id ≡ seat.old.table_id }
    ensures seat { seat.new.me ≡ (at_stage seat.old.me.0 (Called number), seat.old.me.1) }
{
    for _ in rt.forever() {
        if core.load::<Look>(seat, TURN) == number && number < END {
            return;
        }
        thread::yield_now();
    }
    unreachable!()
}

/// Sees the whole history, and takes the value out of its slot. Also gives the history's length.
pub(super) fn take<V: Storied>(core: &Core<V>, seat: &mut Place<V>, number: u64) -> (V, u64)
    requires table { (seat.old.table_id ≡ core.now.table_id) × IsLock core.now.table_id }
    requires seat { (seat.old.me.0.stage ≡ Called number) × (0 < seat.old.me.0.whole) × (seat.old.me.1 ≡ []) }
    ensures table { seat.new.table_id ≡ seat.old.table_id }
    ensures seat { seat.new.me ≡ (knowing seat.old.me.0 (V.history result.0) (V.count result.0) number, (0, None) ∷ []) }
    ensures begins { IsPrefix seat.old.me.0.seen (V.history result.0) }
    ensures length { result.1 ≡ length (V.history result.0) }
    ensures room { V.count result.0 + (seat.old.me.0.parts - seat.old.me.0.counted) ≤ seat.old.me.0.whole }
{
    let entries = core.load::<Know>(seat, LENGTH);
    let value = value_of(core.exchange(seat, SLOT, None));
    (value, entries)
}

/// Puts the value back into its slot, which stays in the seat's hand.
pub(super) fn put_back<V: Storied>(core: &Core<V>, seat: &mut Place<V>, value: V)
    requires table { (seat.old.table_id ≡ core.now.table_id) × IsLock core.now.table_id }
    requires hand { seat.old.me.1 ≡ (0, None) ∷ [] }
    ensures table { seat.new.table_id ≡ seat.old.table_id }
    ensures seat { seat.new.me ≡ (seat.old.me.0, (0, Some value) ∷ []) }
{
    match core.exchange(seat, SLOT, Some(value)) {
        None => {}
        Some(_) => unreachable!(),
    }
}

/// Records the entry that the value in the seat's hand has beyond what the seat has seen.
pub(super) fn record<V: Storied>(
    core: &Core<V>,
    seat: &mut Place<V>,
    value: &Snapshot<V>,
    number: u64,
)
    requires table { (seat.old.table_id ≡ core.now.table_id) × IsLock core.now.table_id }
    requires seat { (seat.old.me.0.stage ≡ Inside number) × (seat.old.me.1 ≡ (0, Some value.now.value) ∷ []) }
    requires entry { IsLonger seat.old.me.0 (V.history value.now.value) (V.count value.now.value) }
    ensures table { seat.new.table_id ≡ seat.old.table_id }
    ensures seat { seat.new.me ≡ (having_made seat.old.me.0 (V.history value.now.value) (V.count value.now.value), seat.old.me.1) }
{
    core.fetch_add::<Record>(seat, LENGTH, 1);
}

/// Lays the slot back, and lets the next number have its turn.
pub(super) fn pass_on<V: Storied>(
    core: &Core<V>,
    seat: &mut Place<V>,
    value: &Snapshot<V>,
    number: u64,
)
    requires table { (seat.old.table_id ≡ core.now.table_id) × IsLock core.now.table_id }
    requires seat { (seat.old.me.0.stage ≡ Inside number) × (number < 2 ^ 63) × (seat.old.me.1 ≡ (0, Some value.now.value) ∷ []) }
    requires value { (V.history value.now.value ≡ seat.old.me.0.seen) × (V.count value.now.value ≡ seat.old.me.0.count) }
    ensures table { seat.new.table_id ≡ seat.old.table_id }
    ensures seat { seat.new.me ≡ (at_stage seat.old.me.0 Out, []) }
{
    core.store::<PassOn>(seat, TURN, number + 1);
}

/// Gives so many of the seat's parts to a new seat.
pub(super) fn split<V: Storied, J: Part>(
    core: &Core<V>,
    seat: &mut Place<V>,
    parts: u32,
) -> Place<V>
    requires table { (seat.old.table_id ≡ core.now.table_id) × IsLock core.now.table_id }
    requires picked { J.parts ≡ parts }
    requires parts { parts + seat.old.me.0.counted ≤ seat.old.me.0.parts }
    requires keeps { (seat.old.me.0.made ≡ []) ⊎ (parts < seat.old.me.0.parts) }
    requires rest { (seat.old.me.0.stage ≡ Out) × (0 < seat.old.me.0.whole) }
    ensures table { (seat.new.table_id ≡ seat.old.table_id) × (result.table_id ≡ seat.old.table_id) }
    ensures seat { seat.new.me ≡ (keeping parts seat.old.me.0, seat.old.me.1) }
    ensures given { result.me ≡ (given parts seat.old.me.0, []) }
{
    core.split_seat::<Cut<J>>(seat)
}

/// Gives all that another seat has to this one.
pub(super) fn meet<V: Storied>(core: &Core<V>, seat: &mut Place<V>, other: Place<V>)
    requires table { (seat.old.table_id ≡ core.now.table_id) × (other.table_id ≡ core.now.table_id) × IsLock core.now.table_id }
    requires hand { other.me.1 ≡ [] }
    requires rest { (seat.old.me.0.stage ≡ Out) × (other.me.0.stage ≡ Out) × (0 < seat.old.me.0.whole) × (0 < other.me.0.whole) }
    ensures table { seat.new.table_id ≡ seat.old.table_id }
    ensures seat { seat.new.me ≡ (united seat.old.me.0 other.me.0, seat.old.me.1) }
    ensures begins { IsPrefix seat.old.me.0.seen seat.new.me.0.seen × IsPrefix other.me.0.seen seat.new.me.0.seen }
{
    core.join_seat::<Unite>(seat, other);
    core.load::<Tell>(seat, LENGTH);
}

/// What is in a slot that has a value.
pub(super) fn value_of<V>(slot: Option<V>) -> V
    requires { IsSome slot }
    ensures { slot ≡ Some result }
{
    match slot {
        Some(value) => value,
        None => unreachable!(),
    }
}
