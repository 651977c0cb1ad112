ghost use Rattle.std.specs.Prelude.{◌≡◌, ℕ, Option, None, Some, IfSome};

/// A clock.
pub trait Clock {
    /// The time that it always answers, where it tells one.
    ghost time: { Self → Option ℕ };

    /// The time now, in milliseconds since the start of 1970.
    fn now(&self) -> u64
        ensures told { IfSome (time self.now) (λ told. result ≡ told) };
}

/// A clock that stands still.
#[derive(Clone, Copy, Debug)]
pub struct FixedClock {
    /// What it answers, in milliseconds since the start of 1970.
    pub time: u64,
}

impl FixedClock {
    /// A law: a clock that stands still tells its time.
    pub fn law_tells(clock: &FixedClock)
        ensures { ⟦<FixedClock as Clock>⟧.time clock.now ≡ Some clock.now.time }
    {}
}

impl Clock for FixedClock {
    ghost time = { λ clock. Some clock.time };

    fn now(&self) -> u64 {
        self.time
    }
}
