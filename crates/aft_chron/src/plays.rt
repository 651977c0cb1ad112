//! What each step at the table tells its seat.
ghost use Rattle.aft_chron.specs.Steps.{drawn, looked, known, recorded, passed_on, told, keeping, given, united};
ghost use Rattle.aft_chron.specs.Rule.{spent_view};

use crate::storied::Storied;
use crate::view::View;
use atomic_table::{Join, Play, Split};
use std::marker::{Brand, PhantomData};

pub(crate) struct Draw;

impl<V: Storied> Play<Option<V>, View<V::Entry>> for Draw {
    ghost then = { λ _. drawn V.history V.count };
}

pub(crate) struct Look;

impl<V: Storied> Play<Option<V>, View<V::Entry>> for Look {
    ghost then = { λ _. looked V.history V.count };
}

pub(crate) struct Know;

impl<V: Storied> Play<Option<V>, View<V::Entry>> for Know {
    ghost then = { λ _. known V.history V.count };
}

pub(crate) struct Record;

impl<V: Storied> Play<Option<V>, View<V::Entry>> for Record {
    ghost then = { λ _. recorded V.history V.count };
}

pub(crate) struct PassOn;

impl<V: Storied> Play<Option<V>, View<V::Entry>> for PassOn {
    ghost then = { λ _. passed_on V.history V.count };
}

pub(crate) struct Tell;

impl<V: Storied> Play<Option<V>, View<V::Entry>> for Tell {
    ghost then = { λ _. told V.history V.count };
}

/// How many parts a split gives away. Each call picks it.
pub(crate) trait Part {
    ghost use Rattle.std.specs.Prelude.{ℕ};

    ghost parts: { ℕ };
}

impl Part for Brand {
    ghost parts = { 0 };
}

pub(crate) struct Cut<J> {
    part: PhantomData<J>,
}

impl<E, J: Part> Split<View<E>> for Cut<J> {
    ghost left = { keeping J.parts };

    ghost right = { given J.parts };
}

pub(crate) struct Unite;

impl<E> Join<View<E>> for Unite {
    ghost both = { united };

    ghost spent = { spent_view };
}
