//! The table of attempts.

ghost use Rattle.std.specs.Prelude.{◌≡◌, ◌<◌, ◌≤◌, ◌+◌, ◌-◌, ◌^◌, ◌++◌, ℕ, List, [], ◌∷◌, None, Some, IfErr, IfOk, IfSome, IsSome, IsTrue, OnErr, OnOk, if◌then◌else◌, is_none, length, map, nat_eq, nat_le, nat_lt, option_and_then, option_copied, option_map};
ghost use Rattle.std.specs.List.{list_all};
ghost use Rattle.std.specs.Map.{lookup};
ghost use Rattle.std.specs.Option.{ForSome};
ghost use Rattle.std.specs.Str.{bytes_eq};
ghost use Rattle.aft_fields.specs.Order.{ascend};
ghost use Rattle.aft_id.specs.TxnId.{id_lt};
ghost use Rattle.aft_model.specs.Attempts.{buffered, is_committing, is_in_doubt, is_opening};
ghost use Rattle.aft_model.specs.ReadSet.{read_at};
ghost use Rattle.aft_txn.specs.Buffer.{as_write};
ghost use Rattle.aft_txn.specs.Refusals.{IsRefused, MayBeRefused, leave_refusal, put_refusal, read_refusal, refusal, start_refusal, start_time};
ghost use Rattle.aft_txn.specs.Rows.{IsLegal, changed, ended_read, holds_at, id_in, in_doubt, is_own, is_pinned_in, opened, row_at, row_of_uuid, settled, state_at, told, with_noted, with_put, with_state, without_row};

use crate::buffer::{Write, value_of};
use crate::pins::{Pins, unpin_all};
use crate::state::{State, TxnFault};
use crate::txn::Txn;
use aft_id::{Bytes, List, Memory, TxnId};
use aft_model::ReadSet;
use aft_records::Key;
use indexmap::IndexMap;
use std::alloc::Global;
use std::marker::Model;
use uuid::Uuid;

/// The attempts by their numbers.
type Attempts = IndexMap<u64, Txn>;

/// The number of the attempt of each UUID.
type Numbers = IndexMap<Uuid, u64>;

/// The attempts of an incarnation. Contracts see how many were begun, and those that are there as rows, in order of
/// number.
#[derive(Debug, Drop)]
pub struct TxnTable {
    alloc: Global,
    begun: u64,
    attempts: Attempts,
    numbers: Numbers,
    pins: Pins,
}

impl Model for TxnTable {
    ghost use Rattle.aft_txn.specs.Fields.{IsTable, as_rows};
    ghost use Rattle.aft_txn.specs.Rows.{Table};

    ghost Value = { Table };

    ghost view = { λ t. record { begun = t.begun; rows = as_rows t.attempts.entries } };

    ghost invariant = { λ t. IsTable t.begun t.attempts.entries t.numbers.entries t.pins.entries };
}

impl TxnTable {
    /// A table without attempts. Takes no memory.
    pub fn new(alloc: Global) -> TxnTable
        ensures { result ≡ record { begun = 0; rows = [] } }
    {
        TxnTable {
            alloc,
            begun: 0,
            attempts: IndexMap::new(alloc),
            numbers: IndexMap::new(alloc),
            pins: IndexMap::new(alloc),
        }
    }

    /// The number and the state of the attempt of a UUID. Takes no memory. The call also tells a proof what each table
    /// keeps of its rows.
    pub fn find(&self, uuid: Uuid) -> Option<(u64, State)>
        ensures legal { IsLegal self.now }
        ensures found { result ≡ option_and_then (λ row. option_map (λ state. (row.number, state)) (told row.state)) (row_of_uuid uuid self.now.rows) }
    {
        let number = *self.numbers.get(&uuid)?;
        let txn = self.attempts.get(&number)?;
        Some((number, txn.state))
    }

    /// The state of the attempt of a number. Takes no memory.
    pub fn state(&self, number: u64) -> Option<State>
        ensures { result ≡ state_at number self.now.rows }
    {
        Some(self.attempts.get(&number)?.state)
    }

    /// Whether an attempt that is there has read at this id. Takes no memory.
    pub fn pinned(&self, id: TxnId) -> bool
        ensures { result ≡ is_pinned_in id self.now.rows }
    {
        self.pins.contains_key(&id)
    }

    /// The UUID of the attempt of a number. Takes no memory.
    pub fn uuid_of(&self, number: u64) -> Option<Uuid>
        ensures { result ≡ option_map (λ row. row.uuid) (row_at number self.now.rows) }
    {
        Some(self.attempts.get(&number)?.uuid)
    }

    /// The value that the attempt of a number has buffered under a key, lent. Takes no memory.
    pub fn own(&self, number: u64, key: &Key) -> Option<&Bytes>
        ensures { option_copied result ≡ option_and_then (λ row. buffered key.now row.writes) (row_at number self.now.rows) }
    {
        value_of(self.attempts.get(&number)?.writes.as_slice(), key)
    }

    /// What the attempt of a number has read, lent. Takes no memory.
    pub fn reads(&self, number: u64) -> Option<&ReadSet>
        ensures { option_copied result ≡ option_map (λ row. row.pairs) (row_at number self.now.rows) }
    {
        Some(&self.attempts.get(&number)?.reads)
    }

    /// How many reads of the attempt of a number are open. Takes no memory.
    pub fn open_reads(&self, number: u64) -> Option<u64>
        ensures { result ≡ option_map (λ row. row.fetching) (row_at number self.now.rows) }
    {
        Some(self.attempts.get(&number)?.open)
    }

    /// What an attempt has buffered, copied, in key order: at most 32 writes, each key once.
    pub fn writes(&self, number: u64) -> Result<List<Write>, Memory>
        requires { IsSome (row_at number self.now.rows) }
        ensures in_order { IfOk result (λ writes. IsTrue (ascend (map (λ write. write.key) writes))) }
        ensures few { IfOk result (λ writes. length writes ≤ 32) }
        ensures writes { IfOk result (λ writes. option_map (λ row. row.writes) (row_at number self.now.rows) ≡ Some (map as_write writes)) }
    {
        let txn = self.attempts.get(&number).unwrap();
        Ok(List::from_vec(Vec::from_clones(self.alloc, txn.writes.as_slice())?))
    }

    /// A new attempt of a UUID, which opens. The answer is its number: one more than how many were begun before.
    /// `Memory` is the one refusal, and leaves the table as it was.
    pub fn begin(&mut self, uuid: Uuid) -> Result<u64, TxnFault>
        requires new { row_of_uuid uuid self.old.rows ≡ None }
        requires left { self.old.begun < 2 ^ 63 }
        ensures number { IfOk result (λ number. number ≡ self.old.begun + 1) }
        ensures ok { OnOk result (self.new ≡ record { begun = self.old.begun + 1; rows = self.old.rows ++ opened (self.old.begun + 1) uuid ∷ [] }) }
        ensures err { OnErr result (self.new ≡ self.old) }
        ensures memory { IfErr result (λ fault. fault ≡ TxnFault.Memory) }
        ensures legal { IsLegal self.new }
    {
        let number = self.begun + 1;
        let txn = Txn::new(self.alloc, uuid);
        add(&mut self.attempts, &mut self.numbers, number, txn)?;
        self.begun = number;
        Ok(number)
    }

    /// An opening attempt runs. Takes no memory.
    pub fn run(&mut self, number: u64)
        requires { IsTrue (holds_at (λ row. is_opening row.state) number self.old.rows) }
        ensures { self.new ≡ record self.old { rows = changed number (with_state State.Running) self.old.rows } }
    {
        self.set_state(number, State::Running);
    }

    /// Buffers a value under a key, in place of the one that was there. Refused in this order: no such attempt, it
    /// doesn't run, the key would be the 33rd, want of memory. A refusal leaves the table as it was.
    pub fn put(&mut self, number: u64, key: Key, value: Bytes) -> Result<(), TxnFault>
        ensures refused { MayBeRefused (refusal (put_refusal key) (row_at number self.old.rows)) result }
        ensures ok { OnOk result (self.new ≡ record self.old { rows = changed number (with_put key value) self.old.rows }) }
        ensures err { OnErr result (self.new ≡ self.old) }
    {
        match self.attempts.get_mut(&number) {
            Some(txn) => txn.put(key, value),
            None => Err(TxnFault::NoTxn),
        }
    }

    /// Notes that a key was read at an id, unless it is noted, and that a read is open where it is a `fetch`.
    /// Refused in this order: no such attempt, it doesn't run, want of memory. A refusal leaves the table as it
    /// was.
    pub fn note_read(
        &mut self,
        number: u64,
        key: Key,
        id: TxnId,
        fetch: bool,
    ) -> Result<(), TxnFault>
        requires same { ForSome (row_at number self.old.rows) (λ row. IfSome (read_at key row.pairs) (λ read. read ≡ id)) }
        requires open { ForSome (row_at number self.old.rows) (λ row. row.fetching < 2 ^ 63) }
        ensures refused { MayBeRefused (refusal read_refusal (row_at number self.old.rows)) result }
        ensures ok { OnOk result (self.new ≡ record self.old { rows = changed number (with_noted key id fetch) self.old.rows }) }
        ensures err { OnErr result (self.new ≡ self.old) }
    {
        match self.attempts.get_mut(&number) {
            Some(txn) => txn.note_read(&mut self.pins, key, id, fetch),
            None => Err(TxnFault::NoTxn),
        }
    }

    /// An open read is over. Takes no memory.
    pub fn end_read(&mut self, number: u64)
        requires { IsTrue (holds_at (λ row. nat_lt 0 row.fetching) number self.old.rows) }
        ensures { self.new ≡ record self.old { rows = changed number ended_read self.old.rows } }
    {
        if let Some(txn) = self.attempts.get_mut(&number) {
            txn.end_read();
        }
    }

    /// A running attempt commits. The answer is the id of its commit: its UUID, and as time the greatest of 1,
    /// `now`, `floor`, and one more than the greatest time that it read, so that the id is above each that it read.
    /// Refused in this order: no such attempt, it doesn't run, reads are open, the time would pass 2^48 - 1. A
    /// refusal leaves the table as it was. Takes no memory.
    pub fn start_commit(&mut self, number: u64, now: u64, floor: u64) -> Result<TxnId, TxnFault>
        ensures refused { IsRefused (refusal (start_refusal now floor) (row_at number self.old.rows)) result }
        ensures id { IfOk result (λ id. IfSome (row_at number self.old.rows) (λ row. id ≡ record { time = start_time now floor row.pairs; uuid = row.uuid })) }
        ensures own { IfOk result (λ id. ForSome (row_at number self.old.rows) (λ row. IsTrue (is_own row.uuid (Some id)))) }
        ensures above { IfOk result (λ id. IfSome (row_at number self.old.rows) (λ row. IsTrue (list_all (λ pair. id_lt pair.id id) row.pairs))) }
        ensures ok { IfOk result (λ id. self.new ≡ record self.old { rows = changed number (with_state (State.Committing id)) self.old.rows }) }
        ensures err { OnErr result (self.new ≡ self.old) }
    {
        let id = self.next_id(number, now, floor)?;
        self.fix(number, &id);
        Ok(id)
    }

    /// A commit in doubt is stored again. Takes no memory.
    pub fn settle(&mut self, number: u64)
        requires { IsTrue (holds_at (λ row. is_in_doubt row.state) number self.old.rows) }
        ensures { self.new ≡ record self.old { rows = changed number settled self.old.rows } }
    {
        if let Some(txn) = self.attempts.get_mut(&number) {
            txn.settle();
        }
    }

    /// It isn't known whether a commit is stored. Takes no memory.
    pub fn doubt(&mut self, number: u64)
        requires { IsTrue (holds_at (λ row. is_committing row.state) number self.old.rows) }
        ensures { self.new ≡ record self.old { rows = changed number in_doubt self.old.rows } }
    {
        if let Some(txn) = self.attempts.get_mut(&number) {
            txn.doubt();
        }
    }

    /// A running attempt leaves without a commit. Refused in this order: no such attempt, it doesn't run, reads are
    /// open. A refusal leaves the table as it was. Takes no memory.
    pub fn leave(&mut self, number: u64) -> Result<(), TxnFault>
        ensures refused { IsRefused (refusal leave_refusal (row_at number self.old.rows)) result }
        ensures ok { OnOk result (self.new ≡ record self.old { rows = changed number (with_state State.Leaving) self.old.rows }) }
        ensures err { OnErr result (self.new ≡ self.old) }
    {
        self.may_leave(number)?;
        self.set_state(number, State::Leaving);
        Ok(())
    }

    /// Takes an attempt away, if it is there. Takes no memory.
    pub fn end(&mut self, number: u64)
        ensures { self.new ≡ record self.old { rows = without_row number self.old.rows } }
    {
        if let Some(txn) = self.attempts.shift_remove(&number) {
            self.numbers.swap_remove(&txn.uuid);
            unpin_all(&mut self.pins, txn.reads.pairs());
        }
    }

    /// The id under which an attempt commits.
    fn next_id(&self, number: u64, now: u64, floor: u64) -> Result<TxnId, TxnFault>
        ensures refused { IsRefused (refusal (start_refusal now floor) (row_at number self.now.rows)) result }
        ensures id { IfOk result (λ id. IfSome (row_at number self.now.rows) (λ row. id ≡ record { time = start_time now floor row.pairs; uuid = row.uuid })) }
        ensures own { IfOk result (λ id. ForSome (row_at number self.now.rows) (λ row. IsTrue (is_own row.uuid (Some id)))) }
    {
        match self.attempts.get(&number) {
            Some(txn) => txn.next_id(now, floor),
            None => Err(TxnFault::NoTxn),
        }
    }

    /// An attempt commits under an id.
    fn fix(&mut self, number: u64, id: &TxnId)
        requires { ForSome (row_at number self.old.rows) (λ row. IsTrue (is_own row.uuid (Some id.now))) }
        ensures { self.new ≡ record self.old { rows = changed number (with_state (State.Committing id.now)) self.old.rows } }
    {
        self.set_state(number, State::Committing(*id));
    }

    /// Whether an attempt may leave.
    fn may_leave(&self, number: u64) -> Result<(), TxnFault>
        ensures { IsRefused (refusal leave_refusal (row_at number self.now.rows)) result }
    {
        match self.attempts.get(&number) {
            Some(txn) => txn.may_leave(),
            None => Err(TxnFault::NoTxn),
        }
    }

    /// An attempt is in another state.
    fn set_state(&mut self, number: u64, state: State)
        requires { ForSome (row_at number self.old.rows) (λ row. IsTrue (is_own row.uuid (id_in state))) }
        ensures { self.new ≡ record self.old { rows = changed number (with_state state) self.old.rows } }
    {
        if let Some(txn) = self.attempts.get_mut(&number) {
            txn.set_state(state);
        }
    }
}

/// Adds an attempt of a new number and a new UUID. Where memory runs out nothing changes.
fn add(attempts: &mut Attempts, numbers: &mut Numbers, number: u64, txn: Txn) -> Result<(), Memory>
    requires new { lookup (nat_eq number) attempts.old.entries ≡ None }
    requires unused { lookup (bytes_eq txn.uuid) numbers.old.entries ≡ None }
    ensures attempts { OnOk result (attempts.new.entries ≡ attempts.old.entries ++ (number, txn) ∷ []) }
    ensures numbers { OnOk result ((u : List ℕ) → lookup (bytes_eq u) numbers.new.entries ≡ (if bytes_eq txn.uuid u then Some number else lookup (bytes_eq u) numbers.old.entries)) }
    ensures same_attempts { OnErr result (attempts.new.entries ≡ attempts.old.entries) }
    ensures same_numbers { OnErr result ((u : List ℕ) → lookup (bytes_eq u) numbers.new.entries ≡ lookup (bytes_eq u) numbers.old.entries) }
{
    let uuid = txn.uuid;
    numbers.insert(uuid, number)?;
    match attempts.insert(number, txn) {
        Ok(_) => Ok(()),
        Err(_) => {
            numbers.swap_remove(&uuid);
            Err(Memory)
        }
    }
}
