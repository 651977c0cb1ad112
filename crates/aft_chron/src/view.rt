//! What a seat at the lock's table knows, and the rule that the table keeps.
use crate::storied::Storied;
use atomic_table::TableRule;
use std::collections::LinkedList;
use std::snapshot::Snapshot;

/// How far a seat is with its turn.
pub enum Stage {
    /// It is in no turn.
    Out,
    /// It has drawn this number.
    Waits(u64),
    /// It has seen that its number is up.
    Called(u64),
    /// It has seen the whole history, and holds the slot.
    Inside(u64),
}

/// What a seat knows. No value of it is made.
pub struct View<E> {
    /// The lock's parts, and 0 in a view that a meet has left behind.
    pub whole: u64,
    /// The history that stood when the lock was made.
    pub opening: LinkedList<E>,
    /// Its own parts.
    pub parts: u64,
    /// How many of the entries that it made count.
    pub counted: u64,
    /// The history that it has seen.
    pub seen: LinkedList<E>,
    /// The places of the entries that it made.
    pub made: LinkedList<u64>,
    pub stage: Stage,
    /// Within a turn, how many entries of the history count.
    pub count: u64,
    /// Two histories that begin what it has seen: behind a meet, what the two had seen that met.
    pub met: (LinkedList<E>, LinkedList<E>),
}

/// What the table is told when it is made.
#[derive(Drop)]
pub struct Terms<V> {
    pub parts: u32,
    pub value: Snapshot<V>,
}

pub struct Law;

impl<V: Storied> TableRule<Option<V>, View<V::Entry>, Terms<V>> for Law {
    ghost use Rattle.aft_chron.specs.Rule.{Kept, first_view};

    ghost holds = { λ terms. Kept V.history V.count (V.history terms.value.value) terms.parts };

    ghost first = { λ terms. first_view (V.history terms.value.value) terms.parts };
}
