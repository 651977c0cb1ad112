//! A source in memory.

ghost use Rattle.std.specs.Prelude.{◌≡◌, ◌↔◌, [], Option, None, Some, not, IsTrue, IfOk, IsErrOf, find, option_copied};
ghost use Rattle.std.specs.Str.{bytes_eq};
ghost use Rattle.aft_keeper.specs.Cause.{HasCause};
ghost use Rattle.aft_keeper.specs.Contents.{bytes_at};

use crate::failures::Failures;
use crate::keeper::Pair;
use crate::source::{Source, SourceFault};
use aft_id::{Bytes, List};
use std::alloc::Global;

/// A source that holds its files in memory, and whose calls fail where it is told.
///
/// A call that lacks memory isn't counted: it leaves the source as it was.
#[derive(Debug, Drop)]
pub struct MemSource {
    alloc: Global,
    files: List<Pair>,
    failures: Failures,
    absences: u64,
}

impl MemSource {
    ghost use Rattle.aft_keeper.specs.Failures.{at_first, NeverFails};
    ghost use Rattle.aft_keeper.specs.MemSource.{HasDistinctNames, files_of, failures_of, absences_of};

    /// A source of these files. Its calls of these numbers, counted from 1, fail. Takes no memory.
    pub fn new(alloc: Global, files: List<Pair>, fails: List<u64>) -> MemSource
        requires { HasDistinctNames files }
        ensures files { files_of result ≡ files }
        ensures told { failures_of result ≡ at_first fails }
        ensures absences { absences_of result ≡ 0 }
        ensures never_fails { fails ≡ [] → NeverFails (failures_of result) }
    {
        MemSource {
            alloc,
            files,
            failures: Failures::new(fails),
            absences: 0,
        }
    }

    /// A law: a source that never fails has counted no failure.
    pub fn law_no_faults(source: &MemSource)
        requires { NeverFails (failures_of source.now) }
        ensures { ⟦<MemSource as Source>⟧.faults source.now ≡ 0 }
    {}

    /// A law: a source in memory tells its files.
    pub fn law_tells(source: &MemSource)
        ensures { ⟦<MemSource as Source>⟧.files source.now ≡ Some (files_of source.now) }
    {}
}

impl Source for MemSource {
    ghost use Rattle.aft_keeper.specs.Failures.{fails_next, NeverFails};
    ghost use Rattle.aft_keeper.specs.MemSource.{files_of, faults_of, failures_of, absences_of, counted_after, absences_after};

    ghost faults = { faults_of };

    ghost absences = { absences_of };

    ghost files = { λ source. Some (files_of source) };

    fn read(&mut self, name: &str) -> Result<Bytes, SourceFault>
        ensures cause { HasCause (IsErrOf result SourceFault.Failed) (faults_of self.old) (faults_of self.new) }
        ensures absence { HasCause (IsErrOf result SourceFault.Absent) (absences_of self.old) (absences_of self.new) }
        ensures bytes { IfOk result (λ bytes. bytes_at name.now (files_of self.old) ≡ Some bytes) }
        ensures same { files_of self.new ≡ files_of self.old }

        // Which call fails, which finds nothing, and what is counted.
        ensures fails { IsErrOf result SourceFault.Failed ↔ IsTrue (fails_next (failures_of self.old)) }
        ensures absent { IsErrOf result SourceFault.Absent ↔ IsTrue (not (fails_next (failures_of self.old))) × (bytes_at name.now (files_of self.old) ≡ None) }
        ensures counted { failures_of self.new ≡ counted_after result (failures_of self.old) }
        ensures absences { absences_of self.new ≡ absences_after result (absences_of self.old) }
        ensures never_fails { NeverFails (failures_of self.old) → NeverFails (failures_of self.new) }
    {
        if self.failures.fails_next() {
            self.failures.count_failure();
            return Err(SourceFault::Failed);
        }
        let Some(bytes) = bytes_at(self.files.as_slice(), name) else {
            self.failures.count_success();
            self.absences = self.absences.saturating_add(1);
            return Err(SourceFault::Absent);
        };
        let copy = Vec::from_slice(self.alloc, bytes.as_slice())?;
        self.failures.count_success();
        Ok(Bytes::from_vec(copy))
    }
}

/// The bytes of the first pair of this name, lent.
#[tactic(auto, using(crate::proofs::Contents::finding))]
fn bytes_at<'a>(pairs: &'a [Pair], name: &str) -> Option<&'a Bytes>
    ensures { option_copied result ≡ bytes_at name.now pairs.now }
{
    find_pair(pairs, name).map(|pair| &pair.bytes)
}

/// The first pair of this name, lent.
fn find_pair<'a>(pairs: &'a [Pair], name: &str) -> Option<&'a Pair>
    ensures { option_copied result ≡ find (λ p. bytes_eq name.now p.name) pairs.now }
{
    pairs.iter().find(|pair| name == pair.name.as_str())
}
