ghost use Rattle.std.specs.Prelude.{◌≡◌, length, [], true, false};
ghost use Rattle.aft_chron.specs.Places.{standing, IsAtRest};

use crate::view::View;
use atomic_table::{Badge, Seat};
use std::marker::Model;

/// A right to take turns at one lock, with some of the lock's parts. It remembers the history that it has
/// seen, and which entries it made. To a contract it is a `Standing`.
#[derive(Drop)]
pub struct Pass<E> {
    badge: Badge<View<E>>,
    seen: u64,
}

impl<E> Model for Pass<E> {
    ghost use Rattle.aft_chron.specs.Standing.{Standing};
    ghost use Rattle.aft_chron.specs.Places.{standing_of, IsPass};

    ghost Value = { Standing E };

    ghost view = { λ pass. standing_of pass.badge.table_id pass.badge.views };

    ghost invariant = { λ pass. IsPass pass.badge.views pass.seen };
}

impl<E> Pass<E> {
    /// How many entries the history has that the pass has seen. Takes no memory.
    pub fn seen(&self) -> u64
        requires { self.now.away ≡ false }
        ensures { result ≡ length self.now.seen }
    {
        self.seen
    }

    /// The pass of this seat, which has seen so many entries.
    pub(crate) fn of_seat<S>(seat: Seat<S, View<E>>, seen: u64) -> Pass<E>
        requires hand { seat.me.1 ≡ [] }
        requires rest { IsAtRest seat.me.0 seen }
        ensures { result ≡ standing seat.table_id seat.me.0 }
    {
        Pass {
            badge: seat.into_badge(),
            seen,
        }
    }

    /// The seat of the pass, and how many entries it has seen.
    pub(crate) fn into_seat<S>(self) -> (Seat<S, View<E>>, u64)
        requires { self.away ≡ false }
        ensures pass { self ≡ standing result.0.table_id result.0.me.0 }
        ensures hand { result.0.me.1 ≡ [] }
        ensures rest { IsAtRest result.0.me.0 result.1 }
    {
        let Pass { badge, seen } = self;
        (badge.into_seat(), seen)
    }

    /// What stands in for a pass that is in a turn.
    pub(crate) fn absent() -> Pass<E>
        ensures { result.away ≡ true }
    {
        Pass {
            badge: Badge::blank(),
            seen: 0,
        }
    }
}
