//! Boots and crashes.

ghost use Rattle.aft_node.specs.declared.goes.BootEnd.TheVariants as ends;
ghost use Rattle.aft_model.specs.NodeRules.{may_begin_boot};
ghost use Rattle.std.specs.Prelude.{◌≡◌, ◌≤◌, IsFalse, IsTrue, None, false};
ghost use Rattle.aft_model.specs.declared.node.NodeAct.TheVariants as acts;
ghost use Rattle.aft_model.specs.NodeState.{boots, node_state, newest};
ghost use Rattle.aft_ledger.specs.Turns.{boot_refusal, ids_differ};
ghost use Rattle.aft_ledger.specs.View.{after_entry, answered};
ghost use Rattle.aft_node.specs.Booting.{BootEnds, MayEndSo, down_done, next_of};
ghost use Rattle.aft_node.specs.Closing.{MayClose, opens_boot};
ghost use Rattle.aft_node.specs.Outcomes.{Leads, caller, down_reply};
ghost use Rattle.aft_node.specs.declared.goes.BootGo.TheVariants as goes;

use super::Node;
use crate::goes::{BootEnd, BootGo};
use aft_id::List;
use aft_model::{By, Caller, Reply};
use aft_records::Commit;

impl Node {
    /// The first turn of a boot. Where a node serves it answers `IsUp`, where a boot runs `IsBooting`. Else it boots: the
    /// incarnation whose boot was stopped, or the next one; or it answers `NoMemory`.
    pub fn boot_first(&mut self, front: u64, by: By) -> BootGo
        requires room { 1 ≤ self.old.room }
        ensures { Leads front by goes.Answered (boot_refusal self.old.number (node_state self.old.history)) (after_entry front by (acts.Booting (next_of self.old)) None self.old) (goes.Go (caller self.old.number (next_of self.old) by)) self.old self.new result }
    {
        match self.ledger.next_boot() {
            Ok(inc) => self.begin_boot(front, by, inc),
            Err(reply) => {
                self.ledger.answer(front, by, reply);
                BootGo::Answered
            }
        }
    }

    /// An incarnation begins to boot.
    fn begin_boot(&mut self, front: u64, by: By, inc: u32) -> BootGo
        requires room { 1 ≤ self.old.room }
        requires next { IsTrue (may_begin_boot inc (newest self.old.history) (node_state self.old.history)) }
        ensures { Leads front by goes.Answered None (after_entry front by (acts.Booting inc) None self.old) (goes.Go (caller self.old.number inc by)) self.old self.new result }
    {
        match self.ledger.make_room() {
            Ok(()) => {
                self.ledger.add_booting(front, by, inc);
                let node = self.ledger.number();
                BootGo::Go(Caller { node, inc, by })
            }
            Err(Memory) => {
                self.ledger.answer(front, by, Reply::NoMemory);
                BootGo::Answered
            }
        }
    }

    /// The last turn of a boot: whether the incarnation serves from here on. It then knows the commits that were shown, less
    /// those that they supersede, and answers `Started`. Where it was refused, or memory is wanting, the boot is stopped with
    /// that answer. Where the node doesn't boot the incarnation any more, that is answered alone, as `NodeDown`.
    pub fn boot_end(&mut self, front: u64, by: By, inc: u32, end: BootEnd) -> bool
        requires room { 1 ≤ self.old.room }
        requires own { MayClose (opens_boot inc) by self.old.history }
        requires may { MayEndSo end }
        ensures runs { IsTrue (boots inc (node_state self.old.history)) → BootEnds front by inc end self.old self.new result }
        ensures over { IsFalse (boots inc (node_state self.old.history)) → (self.new ≡ answered front by (down_reply self.old inc) self.old) × (result ≡ false) }
    {
        if !self.ledger.boots(inc) {
            self.answer_down(front, by, inc);
            return false;
        }
        match end {
            BootEnd::Shown(commits) => self.serve(front, by, inc, commits),
            BootEnd::Refused(reply) => {
                self.ledger.add_boot_stopped(front, by, inc, reply);
                false
            }
        }
    }

    /// The incarnation that boots serves, or for want of memory the boot is stopped.
    fn serve(&mut self, front: u64, by: By, inc: u32, commits: List<Commit>) -> bool
        requires room { 1 ≤ self.old.room }
        requires boots { IsTrue (boots inc (node_state self.old.history)) }
        requires differ { IsTrue (ids_differ commits) }
        ensures { BootEnds front by inc (ends.Shown commits) self.old self.new result }
    {
        match self.ledger.add_boot(front, by, inc, commits) {
            Ok(()) => true,
            Err(Memory) => {
                self.ledger
                    .add_boot_stopped(front, by, inc, Reply::NoMemory);
                false
            }
        }
    }

    /// The last turn of a crash, which fenced this incarnation, or none. The node is down, and nothing of the incarnation is left
    /// but its history; the answer is `Crashed`, also where the node has left that incarnation already, and `NotUp` where none
    /// was up. Takes no memory.
    pub fn down(&mut self, front: u64, by: By, fenced: Option<u32>)
        requires room { 1 ≤ self.old.room }
        ensures { self.new ≡ down_done front by fenced self.old }
    {
        let node = self.ledger.number();
        match fenced {
            None => self.ledger.answer(front, by, Reply::NotUp { node }),
            Some(inc) => {
                if self.ledger.boots(inc) || self.ledger.serves(inc) {
                    self.ledger.add_down(front, by, inc);
                } else {
                    self.ledger.answer(front, by, Reply::Crashed { node, inc });
                }
            }
        }
    }
}
