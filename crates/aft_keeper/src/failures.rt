//! Which calls fail, told by their numbers.

ghost use Rattle.std.specs.Prelude.{◌≡◌, ◌≤◌};
ghost use Rattle.aft_keeper.specs.Cause.{Rose};

use aft_id::List;

/// The numbers of the calls that fail, and how many calls there were. The forms in memory of a source and a
/// sink hold one.
#[derive(Debug, Drop)]
pub(crate) struct Failures {
    /// The numbers of the calls that fail, counted from 1.
    pub(crate) fails: List<u64>,
    /// How many calls were answered; it stays at its last value.
    pub(crate) calls: u64,
    /// How many of them failed; it stays at its last value.
    pub(crate) faults: u64,
}

impl Failures {
    ghost use Rattle.aft_keeper.specs.Failures.{at_first, fails_next, next_call, after_success, after_failure};

    /// Before the first call, where the calls of these numbers fail.
    pub(crate) fn new(fails: List<u64>) -> Failures
        ensures { result ≡ at_first fails }
    {
        Failures {
            fails,
            calls: 0,
            faults: 0,
        }
    }

    /// The number of the next call.
    fn next_call(&self) -> u64
        ensures { result ≡ next_call self.now }
    {
        self.calls.saturating_add(1)
    }

    /// Whether the next call fails.
    pub(crate) fn fails_next(&self) -> bool
        ensures { result ≡ fails_next self.now }
    {
        self.fails.as_slice().contains(&self.next_call())
    }

    /// Counts a call that didn't fail.
    pub(crate) fn count_success(&mut self)
        ensures { self.new ≡ after_success self.old }
    {
        self.calls = self.next_call();
    }

    /// Counts a call that failed.
    pub(crate) fn count_failure(&mut self)
        ensures counted { self.new ≡ after_failure self.old }
        ensures never_falls { self.old.faults ≤ self.new.faults }
        ensures rose { Rose self.old.faults self.new.faults }
    {
        self.calls = self.next_call();
        self.faults = self.faults.saturating_add(1);
    }
}
