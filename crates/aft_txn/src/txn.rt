//! One attempt.

ghost use Rattle.std.specs.Prelude.{◌≡◌, ◌<◌, ◌≤◌, ◌+◌, ◌-◌, ◌^◌, [], ℕ, Err, IfOk, IfSome, IsTrue, None, Some, OnErr, OnOk, if◌then◌else◌, min};
ghost use Rattle.aft_id.specs.declared.txn_id.TxnId.{TxnId as Id};
ghost use Rattle.aft_model.specs.Attempts.{is_running};
ghost use Rattle.aft_model.specs.NodeRules.{greatest_of, times_read};
ghost use Rattle.aft_model.specs.ReadSet.{read_at};
ghost use Rattle.aft_txn.specs.Fields.{AreNeeded, as_row, pairs_at, pin_count};
ghost use Rattle.aft_txn.specs.Refusals.{IsRefused, MayBeRefused, leave_refusal, put_refusal, read_refusal, refused_row, start_refusal, start_time};
ghost use Rattle.aft_txn.specs.Rows.{ended_read, in_doubt, is_own, opened, settled, with_noted, with_put, with_state};

use crate::buffer::{Write, put, value_of};
use crate::pins::{Pins, note};
use crate::state::{State, TxnFault};
use aft_id::{Bytes, TxnId};
use aft_model::{ReadPair, ReadSet};
use aft_records::Key;
use std::alloc::Global;
use uuid::Uuid;

/// The most keys that an attempt may put.
const MAX_KEYS: usize = 32;

/// The last time of a commit, in milliseconds since 1970.
const LAST_TIME: u64 = (1 << 48) - 1;

/// One attempt of a transaction.
#[derive(Debug, Drop)]
pub(crate) struct Txn {
    pub(crate) uuid: Uuid,
    pub(crate) state: State,
    /// In key order.
    pub(crate) writes: Vec<Write>,
    pub(crate) reads: ReadSet,
    /// How many of its reads are open.
    pub(crate) open: u64,
}

/// One more than the greatest time of some reads, as far as a time goes, or 0 where there are none.
fn behind_reads(pairs: &[ReadPair]) -> u64
    ensures { result ≡ min (greatest_of (times_read pairs.now)) (2 ^ 64 - 1) }
{
    let mut time = 0;
    for pair in pairs {
        time = time.max(pair.id.time.saturating_add(1));
    }
    time
}

impl Txn {
    /// An attempt of a UUID that opens. Takes no memory.
    pub(crate) fn new(alloc: Global, uuid: Uuid) -> Txn
        ensures row { (n : ℕ) → as_row n result ≡ opened n uuid }
        ensures reads { result.reads ≡ [] }
    {
        Txn {
            uuid,
            state: State::Opening,
            writes: Vec::new(alloc),
            reads: ReadSet::new(alloc),
            open: 0,
        }
    }

    /// Whether it runs.
    fn runs(&self) -> bool
        ensures { result ≡ is_running (as_row 0 self.now).state }
    {
        matches!(self.state, State::Running)
    }

    /// It is in another state.
    pub(crate) fn set_state(&mut self, state: State)
        ensures row { (n : ℕ) → as_row n self.new ≡ with_state state (as_row n self.old) }
        ensures reads { self.new.reads ≡ self.old.reads }
    {
        self.state = state;
    }

    /// A commit in doubt is stored again.
    pub(crate) fn settle(&mut self)
        ensures row { (n : ℕ) → as_row n self.new ≡ settled (as_row n self.old) }
        ensures reads { self.new.reads ≡ self.old.reads }
    {
        if let State::Doubt(id) = self.state {
            self.state = State::Committing(id);
        }
    }

    /// It isn't known whether a commit is stored.
    pub(crate) fn doubt(&mut self)
        ensures row { (n : ℕ) → as_row n self.new ≡ in_doubt (as_row n self.old) }
        ensures reads { self.new.reads ≡ self.old.reads }
    {
        if let State::Committing(id) = self.state {
            self.state = State::Doubt(id);
        }
    }

    /// An open read is over.
    pub(crate) fn end_read(&mut self)
        requires { 1 ≤ self.old.open }
        ensures row { (n : ℕ) → as_row n self.new ≡ ended_read (as_row n self.old) }
        ensures reads { self.new.reads ≡ self.old.reads }
    {
        self.open -= 1;
    }

    /// Buffers a value under a key.
    pub(crate) fn put(&mut self, key: Key, value: Bytes) -> Result<(), TxnFault>
        ensures refused { MayBeRefused (refused_row (put_refusal key) (as_row 0 self.old)) result }
        ensures ok { OnOk result ((n : ℕ) → as_row n self.new ≡ with_put key value (as_row n self.old)) }
        ensures err { OnErr result ((n : ℕ) → as_row n self.new ≡ as_row n self.old) }
        ensures reads { self.new.reads ≡ self.old.reads }
    {
        if !self.runs() {
            return Err(TxnFault::Committing);
        }
        let is_new = value_of(self.writes.as_slice(), &key).is_none();
        if is_new && self.writes.len() >= MAX_KEYS {
            return Err(TxnFault::TooManyKeys);
        }
        put(&mut self.writes, key, value)?;
        Ok(())
    }

    /// Notes that a key was read at an id, and counts the id, unless it is noted.
    pub(crate) fn note_read(
        &mut self,
        pins: &mut Pins,
        key: Key,
        id: TxnId,
        fetch: bool,
    ) -> Result<(), TxnFault>
        requires same { IfSome (read_at key self.old.reads) (λ read. read ≡ id) }
        requires left { self.old.open < 2 ^ 63 }
        requires needed { AreNeeded pins.old.entries }
        ensures refused { MayBeRefused (refused_row read_refusal (as_row 0 self.old)) result }
        ensures ok { OnOk result ((n : ℕ) → as_row n self.new ≡ with_noted key id fetch (as_row n self.old)) }
        ensures err { OnErr result ((n : ℕ) → as_row n self.new ≡ as_row n self.old) }
        ensures needed { AreNeeded pins.new.entries }
        ensures counted { (q : Id) → pin_count q pins.new.entries + pairs_at q self.old.reads ≡ pin_count q pins.old.entries + pairs_at q self.new.reads }
    {
        if !self.runs() {
            return Err(TxnFault::Committing);
        }
        note(&mut self.reads, pins, key, &id)?;
        if fetch {
            self.open += 1;
        }
        Ok(())
    }

    /// Refuses to leave while reads are open.
    pub(crate) fn may_leave(&self) -> Result<(), TxnFault>
        ensures { IsRefused (refused_row leave_refusal (as_row 0 self.now)) result }
    {
        if !self.runs() {
            return Err(TxnFault::Committing);
        }
        if self.open > 0 {
            return Err(TxnFault::OpenReads { n: self.open });
        }
        Ok(())
    }

    /// The id under which the attempt commits.
    pub(crate) fn next_id(&self, now: u64, floor: u64) -> Result<TxnId, TxnFault>
        ensures refused { IsRefused (refused_row (start_refusal now floor) (as_row 0 self.now)) result }
        ensures id { IfOk result (λ id. id ≡ record { time = start_time now floor self.now.reads; uuid = self.now.uuid }) }
        ensures own { IfOk result (λ id. IsTrue (is_own self.now.uuid (Some id))) }
    {
        if !self.runs() {
            return Err(TxnFault::Committing);
        }
        if self.open > 0 {
            return Err(TxnFault::OpenReads { n: self.open });
        }
        let time = behind_reads(self.reads.pairs()).max(floor).max(now).max(1);
        if time > LAST_TIME {
            return Err(TxnFault::ClockEnd);
        }
        Ok(TxnId {
            time,
            uuid: self.uuid,
        })
    }
}
