//! Entries that tell of what is learned, dropped, given up and announced.

ghost use Rattle.std.specs.Prelude.{◌≡◌, ◌≤◌, ◌<◌, ◌+◌, ◌^◌, ◌⊎◌, ◌&&◌, ℕ, [], None, Some, IfOk, IfSome, IsFalse, IsTrue, OnErr, OnOk, filter, is_some, length, not, take, true};
ghost use Rattle.std.specs.List.{fold};
ghost use Rattle.aft_model.specs.declared.node.NodeAct.TheVariants as acts;
ghost use Rattle.aft_model.specs.declared.reply.Reply.TheVariants as replies;
ghost use Rattle.aft_model.specs.Known.{droppable, holds_id, known, unannounced};
ghost use Rattle.aft_model.specs.NodeRules.{counts};
ghost use Rattle.aft_model.specs.NodeState.{in_service, part, service};
ghost use Rattle.aft_records.specs.Commits.{ids_ascend, ids_of, is_listed, with_commit, without_ids};
ghost use Rattle.aft_records.specs.Superseded.{is_superseded};
ghost use Rattle.aft_id.specs.declared.txn_id.TxnId.{TxnId as Id};
ghost use Rattle.aft_meta.specs.KnownCommits.{supersedes_id};
ghost use Rattle.aft_ledger.specs.Fresh.{once_each};
ghost use Rattle.aft_ledger.specs.Knowing.{Learns, Tallied, answer_told, dropped_ids, kept_apart, learned_or, pruned_away, told_more};
ghost use Rattle.aft_ledger.specs.Ledger.{shown};
ghost use Rattle.aft_ledger.specs.View.{after_entry};
ghost use Rattle.aft_txn.specs.Rows.{is_pinned_in};

use super::{Ledger, add};
use crate::fresh::{in_order, parted};
use aft_id::{List, Memory, TxnId};
use aft_meta::{CommitSet, Learnt, Meta};
use aft_model::{By, NodeAct, Reply};
use aft_records::Commit;
use aft_txn::TxnTable;
use std::alloc::Global;

/// What came of learning some commits: how many were learned of, and of these how many were taken in, superseded and known.
#[derive(Clone, Copy, Debug)]
pub(crate) struct Told {
    pub(crate) taken: u64,
    pub(crate) superseded: u64,
    pub(crate) known: u64,
}

impl Ledger {
    /// Commits are learned, one after the other. Where memory is wanting at one, those before it are.
    pub fn add_learn(&mut self, front: u64, by: By, commits: List<Commit>)
        requires room { 1 ≤ self.old.room }
        requires serves { IsTrue (is_some (service self.old.history)) }
        ensures { Learns front by commits (shown self.old) (shown self.new) }
    {
        let mut commits = commits.into_vec();
        let (learned, reply) = learn_told(&mut self.known, commits.as_slice());
        commits.truncate(learned);
        self.room -= 1;
        let act = NodeAct::Learn {
            commits: List::from_vec(commits),
        };
        add(
            &mut self.history,
            &mut self.front,
            front,
            by,
            act,
            Some(reply),
        );
    }

    /// The commits that the known ones supersede and that no attempt has read are dropped. Want of memory adds no entry.
    pub fn add_drop(&mut self, front: u64, by: By) -> Result<(), Memory>
        requires room { 1 ≤ self.old.room }
        requires serves { IsTrue (is_some (service self.old.history)) }
        ensures ok { OnOk result (shown self.new ≡ after_entry front by (acts.Drop (dropped_ids self.old.history)) (Some (replies.Dropped (length (dropped_ids self.old.history)))) (shown self.old)) }
        ensures err { OnErr result (self.new ≡ self.old) }
    {
        let ids = droppable(self.alloc, &self.known, &self.table)?;
        drop_all(&mut self.known, ids.as_slice());
        self.room -= 1;
        let (act, reply) = dropped_act(ids);
        add(
            &mut self.history,
            &mut self.front,
            front,
            by,
            act,
            Some(reply),
        );
        Ok(())
    }

    /// The commit of an id that isn't held is given up. Takes no memory.
    pub fn add_give_up(&mut self, front: u64, by: By, id: TxnId)
        requires has_room { self.old.has_room ≡ true }
        requires serves { IsTrue (is_some (service self.old.history)) }
        requires free { IsFalse (in_service (holds_id id) (service self.old.history)) }
        ensures { shown self.new ≡ after_entry front by (acts.GiveUp id) None (shown self.old) }
    {
        add(
            &mut self.history,
            &mut self.front,
            front,
            by,
            NodeAct::GiveUp { id },
            None,
        );
    }

    /// The commits that weren't announced are taken: the answer is those that the known ones don't supersede, and the others,
    /// in id order. Want of memory adds no entry.
    pub fn add_announce(
        &mut self,
        front: u64,
        by: By,
    ) -> Result<(List<Commit>, List<Commit>), Memory>
        requires has_room { self.old.has_room ≡ true }
        requires serves { IsTrue (is_some (service self.old.history)) }
        ensures told { IfOk result (λ told. told ≡ (kept_apart self.old.history, pruned_away self.old.history)) }
        ensures ok { OnOk result (shown self.new ≡ after_entry front by (acts.Announce (kept_apart self.old.history) (pruned_away self.old.history)) None (shown self.old)) }
        ensures err { OnErr result (self.new ≡ self.old) }
    {
        let (told, act) = announced(self.alloc, &self.known, self.fresh.as_slice())?;
        self.fresh.clear();
        add(&mut self.history, &mut self.front, front, by, act, None);
        Ok(told)
    }
}

/// Learns commits one after the other, until memory is wanting: how many were learned, and what is answered.
fn learn_told(known: &mut Meta, commits: &[Commit]) -> (usize, Reply)
    ensures some { result.0 ≤ length commits.now }
    ensures known { known.new ≡ fold with_commit known.old (take result.0 commits.now) }
    ensures told { result.1 ≡ learned_or known.old commits.now result.0 }
{
    let (learned, told) = learn_all(known, commits);
    (learned, told_reply(learned == commits.len(), told))
}

/// Learns commits one after the other, until memory is wanting: how many were learned, and what came of it.
fn learn_all(known: &mut Meta, commits: &[Commit]) -> (usize, Told)
    ensures some { result.0 ≤ length commits.now }
    ensures known { known.new ≡ fold with_commit known.old (take result.0 commits.now) }
    ensures told { Tallied known.old (take result.0 commits.now) result.1 }
{
    let mut told = Told {
        taken: 0,
        superseded: 0,
        known: 0,
    };
    for (at, commit) in commits.iter().enumerate() {
        match known.learn(commit) {
            Ok(learnt) => told = one_more(told, learnt),
            Err(Memory) => return (at, told),
        }
    }
    (commits.len(), told)
}

/// What is answered where all commits were learned, or memory was wanting for a further one.
fn told_reply(all: bool, told: Told) -> Reply
    ensures { result ≡ answer_told all told }
{
    if all {
        Reply::Learned {
            taken: told.taken,
            superseded: told.superseded,
            known: told.known,
        }
    } else {
        Reply::NoMemory
    }
}

/// The counts with one commit more.
fn one_more(told: Told, learnt: Learnt) -> Told
    requires few { told.taken + told.superseded + told.known < 2 ^ 63 }
    ensures { result ≡ told_more told learnt }
{
    match learnt {
        Learnt::Taken => Told {
            taken: told.taken + 1,
            ..told
        },
        Learnt::Superseded => Told {
            superseded: told.superseded + 1,
            ..told
        },
        Learnt::Known => Told {
            known: told.known + 1,
            ..told
        },
    }
}

/// What is announced of stored commits, twice: to be handed out, and as what is done.
fn announced(
    alloc: Global,
    known: &Meta,
    fresh: &[Commit],
) -> Result<((List<Commit>, List<Commit>), NodeAct), Memory>
    ensures told { IfOk result (λ made. made.0 ≡ (filter (λ c. not (is_superseded c known.now)) (once_each fresh.now), filter (λ c. is_superseded c known.now) (once_each fresh.now))) }
    ensures act { IfOk result (λ made. made.1 ≡ acts.Announce (filter (λ c. not (is_superseded c known.now)) (once_each fresh.now)) (filter (λ c. is_superseded c known.now) (once_each fresh.now))) }
{
    let fresh = in_order(alloc, fresh)?;
    let told = parted(alloc, known, fresh.as_slice())?;
    let (kept, pruned) = parted(alloc, known, fresh.as_slice())?;
    Ok((told, NodeAct::Announce { kept, pruned }))
}

/// That commits of ids are dropped, and its answer.
fn dropped_act(ids: Vec<TxnId>) -> (NodeAct, Reply)
    ensures { result ≡ (acts.Drop ids.items, replies.Dropped (length ids.items)) }
{
    let reply = Reply::Dropped(ids.len() as u64);
    let act = NodeAct::Drop {
        ids: List::from_vec(ids),
    };
    (act, reply)
}

/// The ids of the commits that the known ones supersede and that no attempt has read, ascending.
fn droppable(alloc: Global, known: &Meta, table: &TxnTable) -> Result<Vec<TxnId>, Memory>
    ensures { IfOk result (λ ids. ids.items ≡ filter (λ id. supersedes_id id known.now && not (is_pinned_in id table.now.rows)) (ids_of known.now)) }
{
    let ids = known.superseded_ids()?;
    loose(alloc, table, ids.as_slice())
}

/// Those of some ids that no attempt has read.
fn loose(alloc: Global, table: &TxnTable, ids: &[TxnId]) -> Result<Vec<TxnId>, Memory>
    ensures { IfOk result (λ loose. loose.items ≡ filter (λ id. not (is_pinned_in id table.now.rows)) ids.now) }
{
    let mut dropped = Vec::new(alloc);
    for id in ids {
        if !table.pinned(*id) {
            dropped.push(*id)?;
        }
    }
    Ok(dropped)
}

/// Drops the commits of ids that the known ones supersede.
fn drop_all(known: &mut Meta, ids: &[TxnId])
    requires in_order { IsTrue (ids_ascend known.old) }
    requires all { (id : Id) → IsTrue (is_listed id ids.now) → IsTrue (supersedes_id id known.old) }
    ensures { known.new ≡ without_ids ids.now known.old }
{
    for id in ids {
        if known.superseded(*id) {
            known.remove(*id);
        }
    }
}
