//! How the calls of a keeper in memory are told to go.

ghost use Rattle.std.specs.Prelude.{◌≡◌, ◌≢◌, ◌↔◌, IsTrue, find, nat_eq, option_copied};

/// A call that fails.
#[derive(Clone, Copy, Debug, PartialEq, Eq)]
pub struct Fail {
    /// The number of the call, counted from 1.
    pub call: u64,
    /// Whether it fails after taking effect.
    pub after: bool,
}

/// How a call goes.
#[derive(Clone, Copy, Debug)]
pub(crate) enum Fate {
    /// It succeeds.
    Works,
    /// It fails without effect.
    FailsBefore,
    /// It fails after taking effect.
    FailsAfter,
}

impl Fate {
    ghost use Rattle.aft_keeper.specs.Fate.{fate_at};

    /// How the call of this number goes: a stop comes before the first of `fails` that names it.
    pub(crate) fn of(fails: &[Fail], stop: Option<u64>, call: u64) -> Fate
        ensures { result ≡ fate_at fails.now stop call }
    {
        if stop.is_some_and(|from| from <= call) {
            return Fate::FailsBefore;
        }
        match named(fails, call) {
            None => Fate::Works,
            Some(fail) if fail.after => Fate::FailsAfter,
            Some(_) => Fate::FailsBefore,
        }
    }

    /// Whether the call fails.
    pub(crate) fn is_failure(self) -> bool
        ensures { IsTrue result ↔ (self ≢ Fate.Works) }
    {
        match self {
            Fate::Works => false,
            Fate::FailsBefore | Fate::FailsAfter => true,
        }
    }

    /// Whether the call takes effect.
    pub(crate) fn takes_effect(self) -> bool
        ensures { IsTrue result ↔ (self ≢ Fate.FailsBefore) }
    {
        match self {
            Fate::Works | Fate::FailsAfter => true,
            Fate::FailsBefore => false,
        }
    }
}

/// The first of `fails` that names this call.
fn named(fails: &[Fail], call: u64) -> Option<&Fail>
    ensures { option_copied result ≡ find (λ f. nat_eq f.call call) fails.now }
{
    fails.iter().find(|fail| fail.call == call)
}
