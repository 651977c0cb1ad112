//! Entries that tell of boots, crashes and answers alone.

ghost use Rattle.std.specs.Prelude.{◌≡◌, ◌≤◌, ◌||◌, [], None, Some, IfOk, IsTrue, OnErr, OnOk, filter, not, true};
ghost use Rattle.std.specs.List.{fold};
ghost use Rattle.aft_model.specs.declared.node.NodeAct.TheVariants as acts;
ghost use Rattle.aft_model.specs.declared.reply.Reply.TheVariants as replies;
ghost use Rattle.aft_model.specs.NodeRules.{is_boot_refusal, may_answer_alone, may_begin_boot};
ghost use Rattle.aft_model.specs.NodeState.{boots, newest, node_state, serves};
ghost use Rattle.aft_ledger.specs.Ledger.{shown};
ghost use Rattle.aft_ledger.specs.Turns.{ids_differ};
ghost use Rattle.aft_ledger.specs.View.{after_entry, answered};
ghost use Rattle.aft_records.specs.Commits.{first_known, with_commit};
ghost use Rattle.aft_records.specs.Superseded.{is_superseded};

use super::{Ledger, add};
use crate::stage::Stage;
use aft_id::{List, Memory};
use aft_meta::{CommitSet, Meta};
use aft_model::{By, NodeAct, Reply};
use aft_records::Commit;
use aft_txn::TxnTable;
use std::alloc::Global;

impl Ledger {
    /// Answers, and does nothing else. Takes no memory.
    pub fn answer(&mut self, front: u64, by: By, reply: Reply)
        requires room { 1 ≤ self.old.room }
        requires may { IsTrue (may_answer_alone (Some reply)) }
        ensures { shown self.new ≡ answered front by reply (shown self.old) }
    {
        self.room -= 1;
        let act = NodeAct::Nothing;
        add(
            &mut self.history,
            &mut self.front,
            front,
            by,
            act,
            Some(reply),
        );
    }

    /// An incarnation begins to boot. Takes no memory.
    pub fn add_booting(&mut self, front: u64, by: By, inc: u32)
        requires room { self.old.has_room ≡ true }
        requires next { IsTrue (may_begin_boot inc (newest self.old.history) (node_state self.old.history)) }
        ensures { shown self.new ≡ after_entry front by (acts.Booting inc) None (shown self.old) }
    {
        self.stage = Stage::Booting { inc, running: true };
        self.newest = inc;
        let act = NodeAct::Booting { inc };
        add(&mut self.history, &mut self.front, front, by, act, None);
    }

    /// The incarnation that boots serves from here on, and knows these commits less those that they supersede. Want of
    /// memory adds no entry.
    pub fn add_boot(
        &mut self,
        front: u64,
        by: By,
        inc: u32,
        commits: List<Commit>,
    ) -> Result<(), Memory>
        requires room { 1 ≤ self.old.room }
        requires boots { IsTrue (boots inc (node_state self.old.history)) }
        requires differ { IsTrue (ids_differ commits) }
        ensures ok { OnOk result (shown self.new ≡ after_entry front by (acts.Boot inc commits) (Some (replies.Started self.old.number inc)) (shown self.old)) }
        ensures err { OnErr result (self.new ≡ self.old) }
    {
        let known = first_known(self.alloc, commits.as_slice())?;
        self.known = known;
        self.stage = Stage::Serving { inc };
        self.room -= 1;
        let node = self.number;
        let reply = Reply::Started { node, inc };
        let act = NodeAct::Boot { inc, commits };
        add(
            &mut self.history,
            &mut self.front,
            front,
            by,
            act,
            Some(reply),
        );
        Ok(())
    }

    /// The boot is stopped: the incarnation stays booting. Takes no memory.
    pub fn add_boot_stopped(&mut self, front: u64, by: By, inc: u32, reply: Reply)
        requires room { 1 ≤ self.old.room }
        requires boots { IsTrue (boots inc (node_state self.old.history)) }
        requires may { IsTrue (is_boot_refusal (Some reply)) }
        ensures { shown self.new ≡ after_entry front by (acts.BootStopped inc) (Some reply) (shown self.old) }
    {
        self.stage = Stage::Booting {
            inc,
            running: false,
        };
        self.room -= 1;
        let act = NodeAct::BootStopped { inc };
        add(
            &mut self.history,
            &mut self.front,
            front,
            by,
            act,
            Some(reply),
        );
    }

    /// The incarnation that boots or serves is down, and nothing of it is left. Takes no memory.
    pub fn add_down(&mut self, front: u64, by: By, inc: u32)
        requires room { 1 ≤ self.old.room }
        requires up { IsTrue (boots inc (node_state self.old.history) || serves inc (node_state self.old.history)) }
        ensures { shown self.new ≡ after_entry front by (acts.Down inc) (Some (replies.Crashed self.old.number inc)) (shown self.old) }
    {
        self.known = Meta::new(self.alloc);
        self.table = TxnTable::new(self.alloc);
        self.cache.clear();
        self.fresh.clear();
        self.stage = Stage::Down;
        self.room -= 1;
        let node = self.number;
        let reply = Reply::Crashed { node, inc };
        let act = NodeAct::Down { inc };
        add(
            &mut self.history,
            &mut self.front,
            front,
            by,
            act,
            Some(reply),
        );
    }
}

/// What is known at first: of some commits those that they don't supersede.
fn first_known(alloc: Global, commits: &[Commit]) -> Result<Meta, Memory>
    requires { IsTrue (ids_differ commits.now) }
    ensures { IfOk result (λ known. known ≡ first_known commits.now) }
{
    let all = learned(alloc, commits)?;
    learned_newest(alloc, &all, commits)
}

/// Commits, learned one after the other.
fn learned(alloc: Global, commits: &[Commit]) -> Result<Meta, Memory>
    ensures { IfOk result (λ known. known ≡ fold with_commit [] commits.now) }
{
    let mut known = Meta::new(alloc);
    for commit in commits {
        known.learn(commit)?;
    }
    Ok(known)
}

/// Those of some commits that others don't supersede, learned one after the other.
fn learned_newest(alloc: Global, all: &Meta, commits: &[Commit]) -> Result<Meta, Memory>
    ensures { IfOk result (λ known. known ≡ fold with_commit [] (filter (λ c. not (is_superseded c all.now)) commits.now)) }
{
    let mut known = Meta::new(alloc);
    for commit in commits {
        if !all.covered(commit) {
            known.learn(commit)?;
        }
    }
    Ok(known)
}
