//! Ids in order, each once.

ghost use Rattle.std.specs.Prelude.{◌≡◌, ◌&&◌, ◌||◌, [], not, filter, IfOk, IsTrue, OnOk, OnErr};
ghost use Rattle.aft_id.specs.TxnId.{id_lt, same_id};
ghost use Rattle.aft_id.specs.declared.txn_id.TxnId.{TxnId};
ghost use Rattle.aft_records.specs.Commits.{greatest, is_ascending, is_listed};

use aft_id::{Memory, TxnId};
use std::alloc::{AllocError, Global};
use std::collections::BTreeSet;
use std::marker::Model;

/// Ids in ascending order, each once.
#[derive(Drop)]
pub(crate) struct Ids {
    ids: BTreeSet<TxnId>,
}

impl Model for Ids {
    ghost use Rattle.std.specs.Prelude as prelude;
    ghost use Rattle.aft_id.specs.declared.txn_id.TxnId.{TxnId};

    ghost Value = { prelude.List TxnId };

    ghost view = { λ ids. ids.ids.keys };
}

impl Ids {
    /// No ids. Takes no memory.
    pub(crate) fn new(alloc: Global) -> Ids
        ensures { result ≡ [] }
    {
        Ids {
            ids: BTreeSet::new(alloc),
        }
    }

    /// The ids, ascending.
    pub(crate) fn list(&self, alloc: Global) -> Result<Vec<TxnId>, AllocError>
        ensures ids { IfOk result (λ ids. ids.items ≡ self.now) }
        ensures in_order { IsTrue (is_ascending self.now) }
    {
        self.ids.iter().copied().collect(alloc)
    }

    /// The greatest id. Takes no memory.
    pub(crate) fn last(&self) -> Option<TxnId>
        ensures { result ≡ greatest self.now }
    {
        match self.ids.last() {
            Some(id) => Some(*id),
            None => None,
        }
    }

    /// The greatest id below another one. Takes no memory.
    pub(crate) fn below(&self, id: &TxnId) -> Option<TxnId>
        ensures { result ≡ greatest (filter (λ version. id_lt version id.now) self.now) }
    {
        match self.ids.range(..*id).next_back() {
            Some(version) => Some(*version),
            None => None,
        }
    }

    /// Whether there is none. Takes no memory.
    pub(crate) fn is_empty(&self) -> bool
        ensures { IsTrue result → self.now ≡ [] }
    {
        self.ids.is_empty()
    }

    /// Adds an id, unless it is there. Where memory runs out nothing changes.
    pub(crate) fn add(&mut self, id: &TxnId) -> Result<(), Memory>
        ensures ok { OnOk result ((v : TxnId) → is_listed v self.new ≡ (is_listed v self.old || same_id v id.now)) }
        ensures err { OnErr result (self.new ≡ self.old) }
    {
        self.ids.insert(*id)?;
        Ok(())
    }

    /// Takes an id away, if it is there. Takes no memory.
    pub(crate) fn take(&mut self, id: &TxnId)
        ensures { (v : TxnId) → is_listed v self.new ≡ (is_listed v self.old && not (same_id v id.now)) }
    {
        self.ids.remove(id);
    }
}
