//! A sink in memory.

ghost use Rattle.std.specs.Prelude.{◌≡◌, ◌↔◌, [], None, Some, IsTrue, IsErrOf};
ghost use Rattle.aft_keeper.specs.Cause.{HasCause};
ghost use Rattle.aft_keeper.specs.Taken.{Takes};

use crate::failures::Failures;
use crate::sink::{Sink, SinkFault};
use aft_id::List;
use std::alloc::Global;

/// A sink that keeps in memory what it takes, and whose calls fail where it is told.
///
/// A call that lacks memory isn't counted: it leaves the sink as it was.
#[derive(Debug, Drop)]
pub struct MemSink {
    taken: Vec<u8>,
    failures: Failures,
}

impl MemSink {
    ghost use Rattle.aft_keeper.specs.Failures.{at_first, NeverFails};
    ghost use Rattle.aft_keeper.specs.MemSink.{taken_of, failures_of};

    /// An empty sink. Its calls of these numbers, counted from 1, fail and take nothing. Takes no memory.
    pub fn new(alloc: Global, fails: List<u64>) -> MemSink
        ensures empty { taken_of result ≡ [] }
        ensures told { failures_of result ≡ at_first fails }
        ensures never_fails { fails ≡ [] → NeverFails (failures_of result) }
    {
        MemSink {
            taken: Vec::new(alloc),
            failures: Failures::new(fails),
        }
    }

    /// The bytes taken so far, lent. Takes no memory.
    pub fn taken(&self) -> &[u8]
        ensures { result.now ≡ taken_of self.now }
    {
        self.taken.as_slice()
    }

    /// A law: a sink that never fails has counted no failure.
    pub fn law_no_faults(sink: &MemSink)
        requires { NeverFails (failures_of sink.now) }
        ensures { ⟦<MemSink as Sink>⟧.faults sink.now ≡ 0 }
    {}

    /// A law: a sink in memory tells what it has taken.
    pub fn law_tells(sink: &MemSink)
        ensures { ⟦<MemSink as Sink>⟧.taken sink.now ≡ Some (taken_of sink.now) }
    {}
}

impl Sink for MemSink {
    ghost use Rattle.aft_keeper.specs.Failures.{fails_next, NeverFails};
    ghost use Rattle.aft_keeper.specs.MemSink.{taken_of, faults_of, failures_of, taken_after, counted_after};

    ghost faults = { faults_of };

    ghost taken = { λ sink. Some (taken_of sink) };

    fn write(&mut self, piece: &[u8]) -> Result<(), SinkFault>
        ensures cause { HasCause (IsErrOf result SinkFault.Failed) (faults_of self.old) (faults_of self.new) }
        ensures taken { taken_of self.new ≡ taken_after piece.now result (taken_of self.old) }

        // Which call fails, and what is counted.
        ensures fails { IsErrOf result SinkFault.Failed ↔ IsTrue (fails_next (failures_of self.old)) }
        ensures counted { failures_of self.new ≡ counted_after result (failures_of self.old) }
        ensures never_fails { NeverFails (failures_of self.old) → NeverFails (failures_of self.new) }
    {
        if self.failures.fails_next() {
            self.failures.count_failure();
            return Err(SinkFault::Failed);
        }
        self.taken.extend_from_slice(piece)?;
        self.failures.count_success();
        Ok(())
    }
}
