//! Commits and aborts.

ghost use Rattle.aft_node.specs.declared.node.finish.Ending.TheVariants as endings;
ghost use Rattle.std.specs.Option.{ForSome};
ghost use Rattle.std.specs.Prelude.{◌≡◌, ◌≤◌, [], IfOk, IsFalse, IsTrue, None, OnErr, OnOk, Some, false, length, map, IfErr, if◌then◌else◌, not, true};
ghost use Rattle.aft_model.specs.declared.node.NodeAct.TheVariants as acts;
ghost use Rattle.aft_model.specs.declared.reply.Reply.TheVariants as replies;
ghost use Rattle.aft_model.specs.Attempts.{IsRunning, attempt_state, buffer, is_committing, is_gone, is_in_doubt, is_running, open_reads, uuid_of, fixed_commit};
ghost use Rattle.aft_model.specs.NodeRules.{is_doubt, is_end, is_own_end, is_storing, may_answer_alone};
ghost use Rattle.aft_model.specs.NodeState.{node_state, part, serves};
ghost use Rattle.aft_ledger.specs.Turns.{is_doing, commit_of};
ghost use Rattle.aft_ledger.specs.View.{after_entry, answered};
ghost use Rattle.aft_node.specs.Closing.{MayClose, opens_finish};
ghost use Rattle.aft_node.specs.Committing.{StoresNow, caller_for, doubted, end_refusal, finish_refusal, is_end_reply, leave_by, leave_done, leave_go, leave_go_by, left, left_go, open_refusal, settled, settled_go, start_by, start_done, start_go, start_go_by, ends_so, MayEnd, writes_nothing, values_of, fixed, fixed_go, record_of};
ghost use Rattle.aft_node.specs.Held.{doing};
ghost use Rattle.aft_node.specs.Outcomes.{Leads, down_reply};
ghost use Rattle.aft_node.specs.declared.goes.StartGo.TheVariants as starts;

use super::Node;
use crate::goes::StartGo;
use crate::values::values_of;
use aft_id::{Bytes, List, Memory, TxnId};
use aft_model::{Attempt, By, Caller, Hold, Reply};
use aft_records::{Commit, Origin, Record};
use aft_txn::{State, Write};

/// The first turn of a commit or an abort.
impl Node {
    /// The first turn of a commit, at this time of the clock (milliseconds since 1970). An attempt that runs and has put nothing
    /// leaves, and its UUID is to be let go; one that has put something fixes its commit, whose record and values are to be stored;
    /// one in doubt is settled. It answers instead, in this order: `NoTransaction` where the client holds no attempt, `NodeDown` where
    /// the node doesn't serve its incarnation, `NoTransaction` where it isn't there, `Committing` where it neither runs nor is in
    /// doubt, `OpenReads` where a read of it isn't over, `ClockEnd` where its time would pass 2^48 - 1; or `NoMemory`.
    pub fn start(&mut self, front: u64, by: By, hold: &Hold, now: u64) -> StartGo
        requires room { 1 ≤ self.old.room }
        requires node { ForSome hold.now.attempt (λ a. a.node ≡ self.old.number) }
        ensures { Leads front by starts.Answered (end_refusal hold.now.attempt self.old) (start_done front by now hold.now.attempt self.old) (start_go by now hold.now.attempt self.old) self.old self.new result }
    {
        let go = match self.ending(hold) {
            Ok(Ending::Running(attempt)) => self.start_in(front, by, attempt, now),
            Ok(Ending::InDoubt(attempt)) => self.settle_in(front, by, attempt, true),
            Err(reply) => {
                self.ledger.answer(front, by, reply);
                return StartGo::Answered;
            }
        };
        self.go_or_answer(front, by, go)
    }

    /// The first turn of an abort. An attempt that runs leaves, and its UUID is to be let go; a commit in doubt is settled, with
    /// nothing to be put. It is refused as a commit is, but for the clock.
    pub fn leave(&mut self, front: u64, by: By, hold: &Hold) -> StartGo
        requires room { 1 ≤ self.old.room }
        requires node { ForSome hold.now.attempt (λ a. a.node ≡ self.old.number) }
        ensures { Leads front by starts.Answered (end_refusal hold.now.attempt self.old) (leave_done front by hold.now.attempt self.old) (leave_go by hold.now.attempt self.old) self.old self.new result }
    {
        let go = match self.ending(hold) {
            Ok(Ending::Running(attempt)) => self.leave_in(front, by, attempt),
            Ok(Ending::InDoubt(attempt)) => self.settle_in(front, by, attempt, false),
            Err(reply) => {
                self.ledger.answer(front, by, reply);
                return StartGo::Answered;
            }
        };
        self.go_or_answer(front, by, go)
    }
}

/// What an attempt that may end is doing.
#[derive(Clone, Copy, Debug)]
enum Ending {
    Running(Attempt),
    InDoubt(Attempt),
}

/// What the first turns share.
impl Node {
    /// The attempt that a client holds, if it may end, or why not.
    fn ending(&self, hold: &Hold) -> Result<Ending, Reply>
        requires node { ForSome hold.now.attempt (λ a. a.node ≡ self.now.number) }
        ensures free { IfOk result (λ ending. MayEnd hold.now.attempt ending self.now) }
        ensures refused { IfErr result (λ reply. end_refusal hold.now.attempt self.now ≡ Some reply) }
        ensures may { IfErr result (λ reply. IsTrue (may_answer_alone (Some reply))) }
    {
        let attempt = self.held(hold)?;
        match self.ledger.state(&attempt) {
            Some(State::Running) => self.closed(attempt),
            Some(State::Doubt(_)) => Ok(Ending::InDoubt(attempt)),
            None => Err(Reply::NoTransaction),
            Some(_) => Err(Reply::Committing),
        }
    }

    /// An attempt that runs, if its reads are over, or how many aren't.
    fn closed(&self, attempt: Attempt) -> Result<Ending, Reply>
        requires node { attempt.node ≡ self.now.number }
        requires running { IsTrue (is_doing is_running attempt self.now.history) }
        ensures free { IfOk result (λ ending. (ending ≡ endings.Running attempt) × (open_refusal attempt self.now ≡ None)) }
        ensures refused { IfErr result (λ reply. open_refusal attempt self.now ≡ Some reply) }
        ensures may { IfErr result (λ reply. IsTrue (may_answer_alone (Some reply))) }
    {
        match self.ledger.open_reads(&attempt) {
            0 => Ok(Ending::Running(attempt)),
            count => Err(Reply::OpenReads(count)),
        }
    }

    /// Answers that memory is wanting, where it is.
    fn go_or_answer(&mut self, front: u64, by: By, go: Result<StartGo, Memory>) -> StartGo
        requires room { OnErr go (1 ≤ self.old.room) }
        ensures ok { IfOk go (λ leads. (self.new ≡ self.old) × (result ≡ leads)) }
        ensures err { OnErr go ((self.new ≡ answered front by replies.NoMemory self.old) × (result ≡ starts.Answered)) }
    {
        match go {
            Ok(go) => go,
            Err(Memory) => {
                self.ledger.answer(front, by, Reply::NoMemory);
                StartGo::Answered
            }
        }
    }

    /// The caller of the door for an attempt.
    fn caller(&self, by: By, attempt: &Attempt) -> Caller
        ensures { result ≡ caller_for attempt.now by self.now }
    {
        Caller {
            node: self.ledger.number(),
            inc: attempt.inc,
            by,
        }
    }

    /// The record of a commit of an attempt.
    fn record(&self, attempt: &Attempt, commit: Commit) -> Result<Record, Memory>
        requires node { attempt.now.node ≡ self.now.number }
        requires there { IsTrue (is_doing (λ state. not (is_gone state)) attempt.now self.now.history) }
        ensures { IfOk result (λ written. written ≡ record_of attempt.now self.now commit) }
    {
        let reads = self.ledger.origin_reads(attempt)?;
        Ok(record_of(attempt, commit, reads))
    }

    /// A copy of what an attempt has buffered, in key order.
    fn values(&self, attempt: &Attempt) -> Result<List<Bytes>, Memory>
        requires node { attempt.now.node ≡ self.now.number }
        requires there { IsTrue (is_doing (λ state. not (is_gone state)) attempt.now self.now.history) }
        ensures { IfOk result (λ values. values ≡ values_of attempt.now self.now) }
    {
        let writes = self.ledger.writes(attempt)?;
        values_of(self.alloc, writes)
    }

    /// The attempt leaves. Where memory is wanting nothing changes.
    fn leave_in(&mut self, front: u64, by: By, attempt: Attempt) -> Result<StartGo, Memory>
        requires node { attempt.node ≡ self.old.number }
        requires running { IsTrue (is_doing is_running attempt self.old.history) }
        requires closed { open_reads attempt (part self.old.history) ≡ 0 }
        ensures node { OnOk result (self.new ≡ left front by attempt self.old) }
        ensures go { IfOk result (λ go. go ≡ left_go by attempt self.old) }
        ensures err { OnErr result (self.new ≡ self.old) }
    {
        self.ledger.make_room()?;
        let uuid = match self.ledger.uuid_of(&attempt) {
            Some(uuid) => uuid,
            None => return Err(Memory),
        };
        self.ledger.add_leave(front, by, attempt);
        Ok(StartGo::Release(self.caller(by, &attempt), uuid))
    }

    /// A commit in doubt is settled: with its values, if they may be put again. Where memory is wanting nothing changes.
    fn settle_in(
        &mut self,
        front: u64,
        by: By,
        attempt: Attempt,
        puts: bool,
    ) -> Result<StartGo, Memory>
        requires node { attempt.node ≡ self.old.number }
        requires doubt { IsTrue (is_doing is_in_doubt attempt self.old.history) }
        ensures node { OnOk result (self.new ≡ settled front by attempt self.old) }
        ensures go { IfOk result (λ go. go ≡ settled_go by attempt (if puts then values_of attempt self.old else []) self.old (fixed_commit (doing self.old attempt))) }
        ensures err { OnErr result (self.new ≡ self.old) }
    {
        self.ledger.make_room()?;
        let values = if puts {
            self.values(&attempt)?
        } else {
            List::from_vec(Vec::new(self.alloc))
        };
        let commit = match self.ledger.fixed(&attempt)? {
            Some(commit) => commit,
            None => return Err(Memory),
        };
        let record = self.record(&attempt, commit)?;
        self.ledger.add_settle(front, by, attempt);
        Ok(StartGo::Settle(self.caller(by, &attempt), record, values))
    }

    /// The attempt leaves where it has put nothing, and else fixes its commit. Where memory is wanting nothing changes.
    fn start_in(
        &mut self,
        front: u64,
        by: By,
        attempt: Attempt,
        now: u64,
    ) -> Result<StartGo, Memory>
        requires room { 1 ≤ self.old.room }
        requires node { attempt.node ≡ self.old.number }
        requires running { IsTrue (is_doing is_running attempt self.old.history) }
        requires closed { open_reads attempt (part self.old.history) ≡ 0 }
        ensures node { OnOk result (self.new ≡ start_by front by now attempt self.old IsRunning) }
        ensures go { IfOk result (λ go. go ≡ start_go_by by now attempt self.old IsRunning) }
        ensures err { OnErr result (self.new ≡ self.old) }
    {
        let values = self.values(&attempt)?;
        if values.as_slice().is_empty() {
            self.leave_in(front, by, attempt)
        } else {
            self.fix(front, by, attempt, now, values)
        }
    }

    /// The attempt fixes its commit, unless its time would be past the last one. Where memory is wanting nothing changes.
    fn fix(
        &mut self,
        front: u64,
        by: By,
        attempt: Attempt,
        now: u64,
        values: List<Bytes>,
    ) -> Result<StartGo, Memory>
        requires room { 1 ≤ self.old.room }
        requires node { attempt.node ≡ self.old.number }
        requires running { IsTrue (is_doing is_running attempt self.old.history) }
        requires closed { open_reads attempt (part self.old.history) ≡ 0 }
        requires some { IsFalse (writes_nothing attempt self.old) }
        requires values { values ≡ values_of attempt self.old }
        ensures node { OnOk result (self.new ≡ fixed front by now attempt self.old (commit_of now attempt self.old.history)) }
        ensures go { IfOk result (λ go. go ≡ fixed_go by attempt self.old (commit_of now attempt self.old.history)) }
        ensures err { OnErr result (self.new ≡ self.old) }
    {
        self.ledger.make_room()?;
        let keys = self.ledger.keys(&attempt)?;
        let reads = self.ledger.origin_reads(&attempt)?;
        let own = keys.clone()?;
        let floor = self.ledger.floor(keys.list());
        match self.ledger.add_start(front, by, attempt, now, floor, keys) {
            Ok(id) => {
                let commit = Commit { id, keys: own };
                let record = record_of(&attempt, commit, reads);
                Ok(StartGo::Store(self.caller(by, &attempt), record, values))
            }
            Err(_) => {
                self.ledger.answer(front, by, Reply::ClockEnd);
                Ok(StartGo::Answered)
            }
        }
    }
}

/// The last turns of a commit or an abort.
impl Node {
    /// The turn behind a record that was put or shown: the commit is known here, and to be announced; whether that is so. For want of
    /// memory the attempt is left in doubt, and the answer is `NoMemory`. Where the attempt doesn't commit this any more, or the node
    /// doesn't serve its incarnation, that is answered alone, as `NodeDown`.
    pub fn stored(&mut self, front: u64, by: By, attempt: Attempt, commit: Commit) -> bool
        requires room { 1 ≤ self.old.room }
        requires node { attempt.node ≡ self.old.number }
        requires own { MayClose (opens_finish attempt) by self.old.history }
        ensures commits { IsTrue (is_doing is_committing attempt self.old.history) → StoresNow front by attempt commit (is_doing (is_storing commit) attempt self.old.history) self.old self.new result }
        ensures over { IsFalse (is_doing is_committing attempt self.old.history) → (self.new ≡ answered front by (down_reply self.old attempt.inc) self.old) × (result ≡ false) }
    {
        match self.doing(&attempt) {
            Some(State::Committing(_)) => self.store(front, by, attempt, commit),
            _ => {
                self.answer_down(front, by, attempt.inc);
                false
            }
        }
    }

    /// The commit of an attempt that commits is stored, where it is this one.
    fn store(&mut self, front: u64, by: By, attempt: Attempt, commit: Commit) -> bool
        requires room { 1 ≤ self.old.room }
        requires node { attempt.node ≡ self.old.number }
        requires committing { IsTrue (is_doing is_committing attempt self.old.history) }
        ensures { StoresNow front by attempt commit (is_doing (is_storing commit) attempt self.old.history) self.old self.new result }
    {
        match self.ledger.is_storing(&attempt, &commit) {
            Ok(true) => self.store_own(front, by, attempt, commit),
            Ok(false) => {
                self.answer_down(front, by, attempt.inc);
                false
            }
            Err(Memory) => {
                self.ledger.add_doubt(front, by, attempt, Reply::NoMemory);
                false
            }
        }
    }

    /// The commit that an attempt is storing is stored.
    fn store_own(&mut self, front: u64, by: By, attempt: Attempt, commit: Commit) -> bool
        requires room { 1 ≤ self.old.room }
        requires node { attempt.node ≡ self.old.number }
        requires storing { IsTrue (is_doing (is_storing commit) attempt self.old.history) }
        ensures { StoresNow front by attempt commit true self.old self.new result }
    {
        match self.add_stored(front, by, attempt, commit) {
            Ok(()) => true,
            Err(Memory) => {
                self.ledger.add_doubt(front, by, attempt, Reply::NoMemory);
                false
            }
        }
    }

    /// Adds the storing. Where memory is wanting nothing changes.
    fn add_stored(
        &mut self,
        front: u64,
        by: By,
        attempt: Attempt,
        commit: Commit,
    ) -> Result<(), Memory>
        requires node { attempt.node ≡ self.old.number }
        requires storing { IsTrue (is_doing (is_storing commit) attempt self.old.history) }
        ensures ok { OnOk result (self.new ≡ after_entry front by (acts.Stored attempt commit) None self.old) }
        ensures err { OnErr result (self.new ≡ self.old) }
    {
        self.ledger.make_room()?;
        self.ledger.add_stored(front, by, attempt, commit)
    }

    /// The last turn of a commit of which it isn't known whether it is stored: the attempt is left in doubt, with this answer. Where it
    /// doesn't commit any more, or the node doesn't serve its incarnation, that is answered alone, as `NodeDown`. Takes no memory.
    pub fn doubt(&mut self, front: u64, by: By, attempt: Attempt, reply: Reply)
        requires room { 1 ≤ self.old.room }
        requires node { attempt.node ≡ self.old.number }
        requires own { MayClose (opens_finish attempt) by self.old.history }
        requires may { IsTrue (is_doubt (Some reply)) }
        ensures { self.new ≡ (if is_doing is_committing attempt self.old.history then doubted front by attempt reply self.old else answered front by (down_reply self.old attempt.inc) self.old) }
    {
        match self.doing(&attempt) {
            Some(State::Committing(_)) => self.ledger.add_doubt(front, by, attempt, reply),
            _ => self.answer_down(front, by, attempt.inc),
        }
    }

    /// The last turn of a commit or an abort behind its release: the attempt is taken away, with this answer. Where it neither commits
    /// that nor leaves any more, or the node doesn't serve its incarnation, that is answered alone, as `NodeDown`. Takes no memory.
    pub fn ended(&mut self, front: u64, by: By, attempt: Attempt, reply: Reply)
        requires room { 1 ≤ self.old.room }
        requires node { attempt.node ≡ self.old.number }
        requires own { MayClose (opens_finish attempt) by self.old.history }
        requires may { IsTrue (is_end_reply reply) }
        requires stored { IsTrue (is_own_end self.old.history by (acts.End attempt) (Some reply)) }
        ensures { self.new ≡ (if is_doing (λ state. is_end state (Some reply)) attempt self.old.history then after_entry front by (acts.End attempt) (Some reply) self.old else answered front by (down_reply self.old attempt.inc) self.old) }
    {
        self.ledger.law();
        if self.may_end(&attempt, &reply) {
            self.ledger.add_end(front, by, attempt, reply);
        } else {
            self.answer_down(front, by, attempt.inc);
        }
    }

    /// Whether the node serves an attempt's incarnation, and its end may answer this.
    fn may_end(&self, attempt: &Attempt, reply: &Reply) -> bool
        requires node { attempt.now.node ≡ self.now.number }
        ensures { result ≡ is_doing (λ state. is_end state (Some reply.now)) attempt.now self.now.history }
    {
        ends_so(&self.doing(attempt), reply)
    }
}

/// Whether the end of an attempt in this state may answer this.
fn ends_so(state: &Option<State>, reply: &Reply) -> bool
    ensures { result ≡ ends_so state.now reply.now }
{
    match (state, reply) {
        (Some(State::Committing(id)), Reply::Committed(committed)) => id == committed,
        (Some(State::Committing(_)), Reply::Aborted) => true,
        (Some(State::Leaving), Reply::Ended) => true,
        (Some(State::Leaving), Reply::Aborted) => true,
        _ => false,
    }
}

/// The record of a commit of an attempt that had read these.
fn record_of(attempt: &Attempt, commit: Commit, reads: List<TxnId>) -> Record
    ensures { result ≡ record { commit = commit; origin = record { node = attempt.now.node; inc = attempt.now.inc; reads = reads } } }
{
    let node = attempt.node;
    let inc = attempt.inc;
    let origin = Origin { node, inc, reads };
    Record { commit, origin }
}
