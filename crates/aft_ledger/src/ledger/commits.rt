//! Entries that tell of commits and aborts.

ghost use Rattle.std.specs.Prelude.{◌≡◌, ◌≢◌, ◌≤◌, ◌<◌, ◌⊎◌, None, Some, IfErr, IfOk, IsFalse, IsTrue, OnErr, OnOk, length, true};
ghost use Rattle.aft_model.specs.declared.node.NodeAct.TheVariants as acts;
ghost use Rattle.aft_model.specs.Attempts.{attempt_state, buffer, is_committing, is_in_doubt, is_running, open_reads, reads, uuid_of, written_keys};
ghost use Rattle.aft_model.specs.Known.{known};
ghost use Rattle.aft_model.specs.NodeRules.{commit_time, is_doubt, is_end, is_own_end, is_storing};
ghost use Rattle.aft_model.specs.NodeState.{part};
ghost use Rattle.aft_records.specs.Limits.{is_time};
ghost use Rattle.aft_ledger.specs.Ledger.{shown};
ghost use Rattle.aft_ledger.specs.Turns.{commit_of, floor_of, is_doing};
ghost use Rattle.aft_ledger.specs.View.{after_entry};
ghost use Rattle.aft_txn.specs.declared.state.TxnFault.TheVariants as faults;

use super::{Ledger, add};
use aft_id::{Memory, TxnId};
use aft_meta::CommitSet;
use aft_model::{Attempt, By, NodeAct, Reply};
use aft_records::{Commit, Keys};
use aft_txn::TxnFault;

impl Ledger {
    /// A running attempt commits, under the id that is answered, with these keys: those that it has buffered. It is refused
    /// exactly where the time would pass 2^48 - 1, and then there is no entry. Takes no memory. `now` is in milliseconds since
    /// 1970, and `floor` is that of these keys.
    pub fn add_start(
        &mut self,
        front: u64,
        by: By,
        attempt: Attempt,
        now: u64,
        floor: u64,
        keys: Keys,
    ) -> Result<TxnId, TxnFault>
        requires has_room { self.old.has_room ≡ true }
        requires node { attempt.node ≡ self.old.number }
        requires running { IsTrue (is_doing is_running attempt self.old.history) }
        requires closed { open_reads attempt (part self.old.history) ≡ 0 }
        requires some { 1 ≤ length keys }
        requires keys { keys ≡ written_keys (buffer attempt (part self.old.history)) }
        requires floor { floor ≡ floor_of keys (known self.old.history) }
        ensures in_time { OnOk result (IsTrue (is_time (commit_of now attempt self.old.history).id.time)) }
        ensures fault { IfErr result (λ fault. (fault ≡ faults.ClockEnd) × IsFalse (is_time (commit_of now attempt self.old.history).id.time)) }
        ensures id { IfOk result (λ id. id ≡ (commit_of now attempt self.old.history).id) }
        ensures ok { OnOk result (shown self.new ≡ after_entry front by (acts.Start attempt now (commit_of now attempt self.old.history)) None (shown self.old)) }
        ensures err { OnErr result (self.new ≡ self.old) }
    {
        let id = match self.table.start_commit(attempt.number, now, floor) {
            Ok(id) => id,
            Err(fault) => return Err(fault),
        };
        let act = start_act(attempt, now, &id, keys);
        add(&mut self.history, &mut self.front, front, by, act, None);
        Ok(id)
    }

    /// A commit in doubt is tried again. Takes no memory.
    pub fn add_settle(&mut self, front: u64, by: By, attempt: Attempt)
        requires has_room { self.old.has_room ≡ true }
        requires node { attempt.node ≡ self.old.number }
        requires doubt { IsTrue (is_doing is_in_doubt attempt self.old.history) }
        ensures { shown self.new ≡ after_entry front by (acts.Settle attempt) None (shown self.old) }
    {
        self.table.settle(attempt.number);
        add(
            &mut self.history,
            &mut self.front,
            front,
            by,
            NodeAct::Settle { attempt },
            None,
        );
    }

    /// A running attempt leaves. Takes no memory.
    pub fn add_leave(&mut self, front: u64, by: By, attempt: Attempt)
        requires has_room { self.old.has_room ≡ true }
        requires node { attempt.node ≡ self.old.number }
        requires running { IsTrue (is_doing is_running attempt self.old.history) }
        requires closed { open_reads attempt (part self.old.history) ≡ 0 }
        ensures { shown self.new ≡ after_entry front by (acts.Leave attempt) None (shown self.old) }
    {
        match self.table.leave(attempt.number) {
            Ok(()) => {}
            // An attempt that runs and has no open read isn't refused.
            Err(_) => return,
        }
        add(
            &mut self.history,
            &mut self.front,
            front,
            by,
            NodeAct::Leave { attempt },
            None,
        );
    }

    /// The commit of an attempt is stored: it is known, and to be announced. Want of memory adds no entry.
    pub fn add_stored(
        &mut self,
        front: u64,
        by: By,
        attempt: Attempt,
        commit: Commit,
    ) -> Result<(), Memory>
        requires has_room { self.old.has_room ≡ true }
        requires node { attempt.node ≡ self.old.number }
        requires storing { IsTrue (is_doing (is_storing commit) attempt self.old.history) }
        ensures ok { OnOk result (shown self.new ≡ after_entry front by (acts.Stored attempt commit) None (shown self.old)) }
        ensures err { OnErr result (self.new ≡ self.old) }
    {
        let own = commit.clone()?;
        self.fresh.reserve(1)?;
        self.known.learn(&commit)?;
        self.fresh.push_reserved(own);
        add(
            &mut self.history,
            &mut self.front,
            front,
            by,
            NodeAct::Stored { attempt, commit },
            None,
        );
        Ok(())
    }

    /// It isn't known whether the commit of an attempt is stored. Takes no memory.
    pub fn add_doubt(&mut self, front: u64, by: By, attempt: Attempt, reply: Reply)
        requires room { 1 ≤ self.old.room }
        requires node { attempt.node ≡ self.old.number }
        requires committing { IsTrue (is_doing is_committing attempt self.old.history) }
        requires may { IsTrue (is_doubt (Some reply)) }
        ensures { shown self.new ≡ after_entry front by (acts.Doubt attempt) (Some reply) (shown self.old) }
    {
        self.table.doubt(attempt.number);
        self.room -= 1;
        add(
            &mut self.history,
            &mut self.front,
            front,
            by,
            NodeAct::Doubt { attempt },
            Some(reply),
        );
    }

    /// An attempt that commits or leaves is taken away. Takes no memory.
    pub fn add_end(&mut self, front: u64, by: By, attempt: Attempt, reply: Reply)
        requires room { 1 ≤ self.old.room }
        requires node { attempt.node ≡ self.old.number }
        requires ends { IsTrue (is_doing (λ state. is_end state (Some reply)) attempt self.old.history) }
        requires own { IsTrue (is_own_end (part self.old.history) by (acts.End attempt) (Some reply)) }
        ensures { shown self.new ≡ after_entry front by (acts.End attempt) (Some reply) (shown self.old) }
    {
        self.table.end(attempt.number);
        self.room -= 1;
        add(
            &mut self.history,
            &mut self.front,
            front,
            by,
            NodeAct::End { attempt },
            Some(reply),
        );
    }
}

/// That an attempt commits.
fn start_act(attempt: Attempt, now: u64, id: &TxnId, keys: Keys) -> NodeAct
    ensures { result ≡ acts.Start attempt now (record { id = id.now; keys = keys }) }
{
    let commit = Commit { id: *id, keys };
    NodeAct::Start {
        attempt,
        now,
        commit,
    }
}
