//! What is learned, dropped, given up and announced.

ghost use Rattle.aft_records.specs.Superseded.{is_superseded};
ghost use Rattle.aft_node.specs.Beginning.{serving_inc};
ghost use Rattle.aft_model.specs.declared.node.NodeAct.TheVariants as acts;
ghost use Rattle.aft_model.specs.Known.{holds_id, known};
ghost use Rattle.std.specs.Prelude.{◌≡◌, ◌≤◌, IsFalse, IsTrue, None, Some, is_some, not, IfOk, OnOk, OnErr, HoldsAt, if◌then◌else◌, ◌&&◌};
ghost use Rattle.aft_model.specs.NodeState.{newest, service, in_service};
ghost use Rattle.aft_ledger.specs.Knowing.{Learns, kept_apart, pruned_away};
ghost use Rattle.aft_ledger.specs.View.{answered, raised, after_entry};
ghost use Rattle.aft_node.specs.Outcomes.{Does, Leads, caller, down_reply};
ghost use Rattle.aft_node.specs.Rounds.{announce_done, announce_go, drop_done, given_up, gives_up, serving_refusal};
ghost use Rattle.aft_node.specs.declared.goes.AnnounceGo.TheVariants as announces;

use super::Node;
use crate::goes::AnnounceGo;
use aft_id::{List, Memory, TxnId};
use aft_model::{By, Caller, Reply};
use aft_records::Commit;

impl Node {
    /// The turn of learning commits, in order: the answer is `Learned` with its counts. Where memory is wanting at a commit those
    /// before it are learned, and the answer is `NoMemory`. Where no incarnation serves it answers `NodeDown` with the newest.
    pub fn learn(&mut self, front: u64, by: By, commits: List<Commit>)
        requires room { 1 ≤ self.old.room }
        ensures serves { IsTrue (is_some (service self.old.history)) → Learns front by commits self.old self.new }
        ensures down { IsFalse (is_some (service self.old.history)) → self.new ≡ answered front by (down_reply self.old (newest self.old.history)) self.old }
    {
        if self.ledger.serving().is_none() {
            self.answer_newest_down(front, by);
            return;
        }
        self.ledger.add_learn(front, by, commits);
    }

    /// Answers that no incarnation serves, with the newest.
    fn answer_newest_down(&mut self, front: u64, by: By)
        requires room { 1 ≤ self.old.room }
        ensures { self.new ≡ answered front by (down_reply self.old (newest self.old.history)) self.old }
    {
        let newest = self.ledger.newest();
        self.answer_down(front, by, newest);
    }

    /// The turn of a local collection: just the known commits that others supersede and that no attempt has read are dropped, and the
    /// answer is `Dropped` with their number, or `NoMemory`. Where no incarnation serves it answers `NodeDown` with the newest.
    pub fn drop_covered(&mut self, front: u64, by: By)
        requires room { 1 ≤ self.old.room }
        ensures { Does front by (serving_refusal self.old) (drop_done front by self.old) self.old self.new }
    {
        if self.ledger.serving().is_none() {
            self.answer_newest_down(front, by);
            return;
        }
        if self.ledger.add_drop(front, by).is_err() {
            self.ledger.answer(front, by, Reply::NoMemory);
        }
    }

    /// Gives up a commit, so that it may be collected: exactly where an incarnation serves, its known commits supersede this one, it
    /// isn't known, and no attempt commits it or is in doubt about it. The answer is then the caller of the door, which gives it up too.
    /// Where it isn't given up, and where memory is wanting, no entry is made.
    pub fn give_up(&mut self, front: u64, by: By, commit: &Commit) -> Result<Option<Caller>, Memory>
        ensures some { IfOk result (λ gave. gave ≡ (if gives_up commit.now self.old then Some (caller self.old.number (serving_inc (service self.old.history)) by) else None)) }
        ensures node { OnOk result (self.new ≡ (if gives_up commit.now self.old then given_up front by commit.now self.old else raised front self.old)) }
        ensures memory { OnErr result (self.new ≡ raised front self.old) }
    {
        self.ledger.raise(front);
        match self.ledger.serving() {
            Some(inc) if self.may_give_up(commit) => self.add_give_up(front, by, inc, commit.id),
            _ => Ok(None),
        }
    }

    /// Whether a commit may be given up in the service that the node is in.
    fn may_give_up(&self, commit: &Commit) -> bool
        ensures { result ≡ (not (in_service (holds_id commit.now.id) (service self.now.history)) && is_superseded commit.now (known self.now.history)) }
    {
        !self.ledger.holds(commit.id) && self.ledger.covered(commit)
    }

    /// Adds the give-up, for the caller of this incarnation.
    fn add_give_up(
        &mut self,
        front: u64,
        by: By,
        inc: u32,
        id: TxnId,
    ) -> Result<Option<Caller>, Memory>
        requires serves { IsTrue (is_some (service self.old.history)) }
        requires free { IsFalse (in_service (holds_id id) (service self.old.history)) }
        ensures caller { IfOk result (λ gave. gave ≡ Some (caller self.old.number inc by)) }
        ensures node { OnOk result (self.new ≡ after_entry front by (acts.GiveUp id) None self.old) }
        ensures memory { OnErr result (self.new ≡ self.old) }
    {
        self.ledger.make_room()?;
        self.ledger.add_give_up(front, by, id);
        let node = self.ledger.number();
        Ok(Some(Caller { node, inc, by }))
    }

    /// The first turn of an announcement: the stored commits that weren't announced are taken, in id order, those to announce apart from
    /// those that the known ones supersede; or the answer is `NoMemory`. Where no incarnation serves it answers `NodeDown` with the
    /// newest.
    pub fn announce(&mut self, front: u64, by: By) -> AnnounceGo
        requires room { 1 ≤ self.old.room }
        ensures { Leads front by announces.Answered (serving_refusal self.old) (announce_done front by self.old) (announce_go self.old) self.old self.new result }
    {
        if self.ledger.serving().is_none() {
            self.answer_newest_down(front, by);
            return AnnounceGo::Answered;
        }
        match self.announce_all(front, by) {
            Ok((kept, pruned)) => AnnounceGo::Go(kept, pruned),
            Err(Memory) => {
                self.ledger.answer(front, by, Reply::NoMemory);
                AnnounceGo::Answered
            }
        }
    }

    /// Takes the stored commits that weren't announced. Where memory is wanting nothing changes.
    fn announce_all(&mut self, front: u64, by: By) -> Result<(List<Commit>, List<Commit>), Memory>
        requires serves { IsTrue (is_some (service self.old.history)) }
        ensures told { IfOk result (λ told. told ≡ (kept_apart self.old.history, pruned_away self.old.history)) }
        ensures node { OnOk result (self.new ≡ announce_done front by self.old) }
        ensures memory { OnErr result (self.new ≡ self.old) }
    {
        self.ledger.make_room()?;
        self.ledger.add_announce(front, by)
    }
}
