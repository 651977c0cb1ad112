//! A node and its turns.

ghost use Rattle.std.specs.Prelude.{◌≡◌, ◌≤◌, ◌<◌, ◌+◌, ◌-◌, ◌^◌, [], IfOk, IsTrue, length, option_copied, slice_get};
ghost use Rattle.aft_ledger.specs.Ledger.{FrontsWithin};
ghost use Rattle.aft_ledger.specs.View.{answered};
ghost use Rattle.aft_model.specs.LegalNode.{LegalNode};
ghost use Rattle.aft_model.specs.NodeRules.{may_answer_alone};

mod begin;
mod boot;
mod finish;
mod held;
mod keys;
mod rounds;

use aft_id::{List, Memory};
use aft_ledger::Ledger;
use aft_model::{By, NodeEntry, Reply};
use std::alloc::Global;
use std::marker::Model;

/// A node: what it is doing, what it knows and keeps, its attempts, and its history, which is legal as far as that is said of
/// the history alone. Contracts see its number, how many values it keeps at most, the history, the greatest front so far, and
/// for how many answers it has room; all else is what the history says.
///
/// Each turn takes `front`, how much of the door's history its line has seen (entries), and the line that it is for. The node's
/// front becomes the greater of the two, also where no entry is made.
#[derive(Drop)]
pub struct Node {
    alloc: Global,
    ledger: Ledger,
}

impl Model for Node {
    ghost use Rattle.aft_ledger.specs.Ledger.{shown};
    ghost use Rattle.aft_ledger.specs.View.{NodeView};

    ghost Value = { NodeView };

    ghost view = { λ n. shown n.ledger };
}

impl Node {
    /// A node that is down, with no history, which keeps at most `cache` values (1 to 4,096). It has room for an answer of each
    /// of so many lines, and for one more, that of its first boot.
    pub fn new(alloc: Global, number: u32, cache: u32, lines: u32) -> Result<Node, Memory>
        requires least { 1 ≤ cache }
        requires most { cache ≤ 4096 }
        requires lines { lines < 2 ^ 31 }
        ensures number { IfOk result (λ node. node.number ≡ number) }
        ensures capacity { IfOk result (λ node. node.capacity ≡ cache) }
        ensures history { IfOk result (λ node. node.history ≡ []) }
        ensures front { IfOk result (λ node. node.front ≡ 0) }
        ensures room { IfOk result (λ node. node.room ≡ lines + 1) }
    {
        let ledger = Ledger::new(alloc, number, cache, lines)?;
        Ok(Node { alloc, ledger })
    }

    /// The node's number.
    pub fn number(&self) -> u32
        ensures { result ≡ self.now.number }
    {
        self.ledger.number()
    }

    /// For how many answers there is room.
    pub fn room(&self) -> u32
        ensures { result ≡ self.now.room }
    {
        self.ledger.room()
    }

    /// The last entry of the history, if there is one.
    pub fn last(&self) -> Option<&NodeEntry>
        ensures { option_copied result ≡ slice_get self.now.history (length self.now.history - 1) }
    {
        self.ledger.last()
    }

    /// What is true of the history: it is legal as far as that is said of it alone, and no front of it is above the node's.
    pub fn law(&self)
        ensures legal { LegalNode self.now.number self.now.capacity self.now.history }
        ensures fronts { FrontsWithin self.now.front self.now.history }
    {
        self.ledger.law();
    }

    /// Answers, and does nothing else. Takes no memory.
    pub fn answer(&mut self, front: u64, by: By, reply: Reply)
        requires room { 1 ≤ self.old.room }
        requires may { IsTrue (may_answer_alone (Some reply)) }
        ensures { self.new ≡ answered front by reply self.old }
    {
        self.ledger.answer(front, by, reply);
    }

    /// The history, oldest entry first. Takes no memory.
    pub fn close(self) -> List<NodeEntry>
        ensures history { result ≡ self.history }
        ensures legal { LegalNode self.number self.capacity self.history }
    {
        self.ledger.into_history()
    }
}
