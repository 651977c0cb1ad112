//! A node's history, with what is found of it without reading it.

ghost use Rattle.std.specs.Prelude.{◌≡◌, ◌++◌, ◌+◌, ◌-◌, ◌*◌, ◌^◌, ◌<◌, ◌≤◌, [], ◌∷◌, None, Some, IfOk, OnOk, true, max, vec_capacity, vec_len};
ghost use Rattle.aft_model.specs.LegalNode.{LegalNode};
ghost use Rattle.aft_ledger.specs.Ledger.{FrontsWithin};

mod asked;
mod attempts;
mod commits;
mod fixing;
mod known;
mod stages;

use crate::stage::Stage;
use aft_cache::DataCache;
use aft_id::{List, Memory};
use aft_meta::{CommitSet, Meta};
use aft_model::{By, NodeAct, NodeEntry, Reply};
use aft_records::Commit;
use aft_txn::TxnTable;
use std::alloc::Global;
use std::marker::Model;

/// A node's history, which is legal as far as that is said of the history alone, with what it says: what the node is doing,
/// what it knows, keeps and has not announced, and its attempts. Contracts see the history, and whether there is room for
/// one more entry besides the answers that are still to come.
///
/// An entry is handed a front: how many entries of the door's history its turn has seen.
#[derive(Drop)]
pub struct Ledger {
    alloc: Global,
    number: u32,
    history: Vec<NodeEntry>,
    front: u64,
    room: u32,
    stage: Stage,
    newest: u32,
    known: Meta,
    table: TxnTable,
    cache: DataCache,
    /// The stored commits that weren't announced, in the order of storing.
    fresh: Vec<Commit>,
}

impl Model for Ledger {
    ghost use Rattle.std.specs.Prelude.{◌+◌, length, nat_lt, vec_capacity};
    ghost use Rattle.aft_ledger.specs.Fresh.{once_each};
    ghost use Rattle.aft_ledger.specs.Ledger.{IsLedger, LedgerView};

    ghost Value = { LedgerView };

    ghost view = { λ l. record {
      number = l.number;
      capacity = l.cache.capacity;
      history = l.history.items;
      front = l.front;
      room = l.room;
      has_room = nat_lt (length l.history.items + l.room) (vec_capacity l.history);
    } };

    ghost invariant = { λ l. IsLedger (record {
      number = l.number;
      capacity = l.cache.capacity;
      history = l.history.items;
      front = l.front;
      room = l.room;
      stage = l.stage;
      newest = l.newest;
      commits = l.known;
      table = l.table;
      kept = l.cache.kept;
      fresh = once_each l.fresh.items;
      space = vec_capacity l.history;
    }) };
}

/// Adds an entry at the end of a history that has room for it. Its front is the greater of the node's own and the one
/// handed in.
fn add(
    history: &mut Vec<NodeEntry>,
    latest: &mut u64,
    front: u64,
    by: By,
    act: NodeAct,
    answer: Option<Reply>,
)
    requires { vec_len history.old < vec_capacity history.old }
    ensures front { latest.new ≡ max latest.old front }
    ensures entry { history.new.items ≡ history.old.items ++ record { front = max latest.old front; by = by; act = act; answer = answer } ∷ [] }
    ensures room { vec_capacity history.new ≡ vec_capacity history.old }
{
    *latest = (*latest).max(front);
    history.push_reserved(NodeEntry {
        front: *latest,
        by,
        act,
        answer,
    });
}

impl Ledger {
    /// A node that is down, with no history. It keeps `cache` values at most, 1 to 4,096, and has room for an answer of each of
    /// `lines` lines, and for one more.
    pub fn new(alloc: Global, number: u32, cache: u32, lines: u32) -> Result<Ledger, Memory>
        requires least { 1 ≤ cache }
        requires most { cache ≤ 4096 }
        requires lines { lines < 2 ^ 31 }
        ensures number { IfOk result (λ ledger. ledger.number ≡ number) }
        ensures capacity { IfOk result (λ ledger. ledger.capacity ≡ cache) }
        ensures history { IfOk result (λ ledger. ledger.history ≡ []) }
        ensures front { IfOk result (λ ledger. ledger.front ≡ 0) }
        ensures room { IfOk result (λ ledger. ledger.room ≡ lines + 1) }
    {
        let room = lines + 1;
        Ok(Ledger {
            alloc,
            number,
            history: Vec::with_capacity(alloc, room as usize)?,
            front: 0,
            room,
            stage: Stage::Down,
            newest: 0,
            known: Meta::new(alloc),
            table: TxnTable::new(alloc),
            cache: DataCache::new(alloc, cache)?,
            fresh: Vec::new(alloc),
        })
    }

    /// The history, oldest entry first. Takes no memory.
    pub fn into_history(self) -> List<NodeEntry>
        ensures history { result ≡ self.history }
        ensures legal { LegalNode self.number self.capacity self.history }
    {
        List::from_vec(self.history)
    }

    /// Tells a proof what is true of the history.
    pub fn law(&self)
        ensures legal { LegalNode self.now.number self.now.capacity self.now.history }
        ensures fronts { FrontsWithin self.now.front self.now.history }
    {
        let _ = &self.history;
    }

    /// Makes room for one entry besides the answers that are still to come. `Memory` leaves all that is shown but that.
    pub fn make_room(&mut self) -> Result<(), Memory>
        ensures number { self.new.number ≡ self.old.number }
        ensures capacity { self.new.capacity ≡ self.old.capacity }
        ensures history { self.new.history ≡ self.old.history }
        ensures front { self.new.front ≡ self.old.front }
        ensures answers { self.new.room ≡ self.old.room }
        ensures room { OnOk result (self.new.has_room ≡ true) }
    {
        self.history.reserve(self.room as usize + 1)?;
        Ok(())
    }

    /// Raises the front to one that is handed in, if that is greater, and makes no entry. Takes no memory.
    pub fn raise(&mut self, front: u64)
        ensures { self.new ≡ record self.old { front = max self.old.front front } }
    {
        self.front = self.front.max(front);
    }
}
