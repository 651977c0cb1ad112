use crate::storied::Storied;
use crate::view::View;
use atomic_table::Seat;
use std::marker::Model;

/// A turn at a lock: it has the value, which may be changed in place. It can't be dropped: end it by
/// `Chron::leave`.
pub struct Turn<V: Storied> {
    /// The locked value.
    pub value: V,
    /// The pass that is in this turn.
    pub held: Held<V, V::Entry>,
}

/// A pass in a turn. To a contract it is the pass, which has seen the history that the value had as the turn
/// began, and the number of those entries that count.
pub struct Held<V, E> {
    pub(crate) seat: Seat<Option<V>, View<E>>,
    pub(crate) number: u64,
    pub(crate) entries: u64,
}

impl<V, E> Model for Held<V, E> {
    ghost use Rattle.aft_chron.specs.Standing.{Entered};
    ghost use Rattle.aft_chron.specs.Places.{entered, IsInTurn};

    ghost Value = { Entered E };

    ghost view = { λ held. entered held.seat.table_id held.seat.me.0 };

    ghost invariant = { λ held. IsInTurn held.seat.me held.number held.entries };
}
