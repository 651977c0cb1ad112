//! Begins and forgets.

ghost use Rattle.aft_txn.specs.Rows.{row_of_uuid};
ghost use Rattle.aft_model.specs.declared.reply.Reply.TheVariants as replies;
ghost use Rattle.std.specs.Prelude.{◌≡◌, ◌≤◌, IsFalse, IsTrue, None, Some, false, true, if◌then◌else◌, IfSome};
ghost use Rattle.aft_model.specs.declared.node.NodeAct.TheVariants as acts;
ghost use Rattle.aft_model.specs.Attempts.{is_opening, uuid_of, rows};
ghost use Rattle.aft_model.specs.NodeRules.{is_begin_refusal};
ghost use Rattle.aft_model.specs.NodeState.{service, newest, serves, node_state, part};
ghost use Rattle.aft_ledger.specs.Turns.{is_doing};
ghost use Rattle.aft_ledger.specs.View.{after_entry, answered};
ghost use Rattle.aft_node.specs.Beginning.{admit_refusal, admitted_done, admitted_go, begin_refusal_by, begun, forget_refusal_by, refused_go, join_reply, joined_go, join_go, next_attempt};
ghost use Rattle.aft_node.specs.Closing.{MayClose, opens_begin};
ghost use Rattle.aft_node.specs.Outcomes.{Leads, down_reply};
ghost use Rattle.aft_node.specs.declared.goes.AdmitGo.TheVariants as admits;

use super::Node;
use crate::goes::AdmitGo;
use aft_model::{Attempt, By, Caller, Reply};
use aft_txn::State;
use uuid::Uuid;

impl Node {
    /// The first turn of a begin. Where no incarnation serves it answers `NodeDown` with the newest; where an attempt of the
    /// UUID is there, `Busy` with the node's own numbers if it opens, and else `Joined`. Else an attempt is admitted, or the
    /// answer is `NoMemory`.
    pub fn admit(&mut self, front: u64, by: By, uuid: Uuid) -> AdmitGo
        requires room { 1 ≤ self.old.room }
        ensures refused { IfSome (admit_refusal begin_refusal_by uuid self.old (service self.old.history)) (λ reply. (self.new ≡ answered front by reply self.old) × (result ≡ refused_go uuid self.old (service self.old.history))) }
        ensures free { admit_refusal begin_refusal_by uuid self.old (service self.old.history) ≡ None → Leads front by admits.Answered None (admitted_done front by uuid self.old) (admitted_go by self.old) self.old self.new result }
    {
        match self.ledger.serving() {
            None => self.admit_nowhere(front, by),
            Some(inc) => match self.ledger.find(uuid) {
                None => self.admit_new(front, by, inc, uuid),
                Some(found) => self.join(front, by, inc, uuid, found),
            },
        }
    }

    /// The first turn of a forget: as that of a begin, but where an attempt of the UUID is there, whatever it is doing, it answers
    /// `Busy` with the node's own numbers.
    pub fn admit_forget(&mut self, front: u64, by: By, uuid: Uuid) -> AdmitGo
        requires room { 1 ≤ self.old.room }
        ensures { Leads front by admits.Answered (admit_refusal forget_refusal_by uuid self.old (service self.old.history)) (admitted_done front by uuid self.old) (admitted_go by self.old) self.old self.new result }
    {
        match self.ledger.serving() {
            None => self.admit_nowhere(front, by),
            Some(inc) => match self.ledger.find(uuid) {
                None => self.admit_new(front, by, inc, uuid),
                Some(_) => {
                    self.answer_busy(front, by, inc);
                    AdmitGo::Answered
                }
            },
        }
    }

    /// No incarnation serves.
    fn admit_nowhere(&mut self, front: u64, by: By) -> AdmitGo
        requires room { 1 ≤ self.old.room }
        ensures node { self.new ≡ answered front by (down_reply self.old (newest self.old.history)) self.old }
        ensures go { result ≡ admits.Answered }
    {
        let newest = self.ledger.newest();
        self.answer_down(front, by, newest);
        AdmitGo::Answered
    }

    /// Answers that an incarnation of this node holds the UUID.
    fn answer_busy(&mut self, front: u64, by: By, inc: u32)
        requires room { 1 ≤ self.old.room }
        ensures { self.new ≡ answered front by (replies.Busy self.old.number inc) self.old }
    {
        let node = self.ledger.number();
        self.ledger.answer(front, by, Reply::Busy { node, inc });
    }

    /// An attempt of the UUID is there: one that opens isn't joined.
    fn join(&mut self, front: u64, by: By, inc: u32, uuid: Uuid, found: (u64, State)) -> AdmitGo
        requires room { 1 ≤ self.old.room }
        ensures node { self.new ≡ answered front by (join_reply self.old.number inc uuid found.1) self.old }
        ensures go { result ≡ join_go self.old.number inc found.0 found.1 }
    {
        let (number, state) = found;
        if let State::Opening = state {
            self.answer_busy(front, by, inc);
            return AdmitGo::Answered;
        }
        self.ledger.answer(front, by, Reply::Joined(uuid));
        let node = self.ledger.number();
        AdmitGo::Joined(Attempt { node, inc, number })
    }

    /// An attempt of a UUID of which none is there is admitted.
    fn admit_new(&mut self, front: u64, by: By, inc: u32, uuid: Uuid) -> AdmitGo
        requires room { 1 ≤ self.old.room }
        requires serves { IsTrue (serves inc (node_state self.old.history)) }
        requires free { row_of_uuid uuid (rows (part self.old.history)) ≡ None }
        ensures { Leads front by admits.Answered None (admitted_done front by uuid self.old) (admitted_go by self.old) self.old self.new result }
    {
        match self.open(front, by, inc, uuid) {
            Some(attempt) => {
                let node = self.ledger.number();
                AdmitGo::Go(Caller { node, inc, by }, attempt)
            }
            None => {
                self.ledger.answer(front, by, Reply::NoMemory);
                AdmitGo::Answered
            }
        }
    }

    /// Adds the attempt. Where memory is wanting nothing changes.
    fn open(&mut self, front: u64, by: By, inc: u32, uuid: Uuid) -> Option<Attempt>
        requires serves { IsTrue (serves inc (node_state self.old.history)) }
        requires free { row_of_uuid uuid (rows (part self.old.history)) ≡ None }
        ensures some { IfSome result (λ a. (a ≡ next_attempt self.old) × (self.new ≡ admitted_done front by uuid self.old)) }
        ensures none { result ≡ None → self.new ≡ self.old }
    {
        if self.ledger.len() >= 1 << 63 || self.ledger.make_room().is_err() {
            return None;
        }
        self.ledger.add_admit(front, by, inc, uuid).ok()
    }

    /// The last turn of a begin that found nothing: the attempt runs, and the answer is `Begun`; whether that is so. Where it doesn't
    /// open any more, or the node doesn't serve its incarnation, that is answered alone, as `NodeDown`. Takes no memory.
    pub fn admitted(&mut self, front: u64, by: By, attempt: Attempt) -> bool
        requires room { 1 ≤ self.old.room }
        requires node { attempt.node ≡ self.old.number }
        requires own { MayClose (opens_begin attempt) by self.old.history }
        ensures node { self.new ≡ (if is_doing is_opening attempt self.old.history then begun front by attempt self.old else answered front by (down_reply self.old attempt.inc) self.old) }
        ensures begun { result ≡ is_doing is_opening attempt self.old.history }
    {
        match self.opening(&attempt) {
            Some(uuid) => {
                self.ledger.add_begin(front, by, attempt, uuid);
                true
            }
            None => {
                self.answer_down(front, by, attempt.inc);
                false
            }
        }
    }

    /// The UUID of an attempt, if it opens.
    fn opening(&self, attempt: &Attempt) -> Option<Uuid>
        requires node { attempt.now.node ≡ self.now.number }
        ensures { result ≡ (if is_doing is_opening attempt.now self.now.history then Some (uuid_of attempt.now (part self.now.history)) else None) }
    {
        match self.doing(attempt) {
            Some(State::Opening) => self.ledger.uuid_of(attempt),
            _ => None,
        }
    }

    /// The last turn of a begin that came to nothing, and of a forget: the attempt is taken away, with this answer. Where it
    /// doesn't open any more, or the node doesn't serve its incarnation, that is answered alone, as `NodeDown`. Takes no memory.
    pub fn unadmitted(&mut self, front: u64, by: By, attempt: Attempt, reply: Reply)
        requires room { 1 ≤ self.old.room }
        requires node { attempt.node ≡ self.old.number }
        requires own { MayClose (opens_begin attempt) by self.old.history }
        requires may { IsTrue (is_begin_refusal (Some reply)) }
        ensures { self.new ≡ (if is_doing is_opening attempt self.old.history then after_entry front by (acts.Unadmit attempt) (Some reply) self.old else answered front by (down_reply self.old attempt.inc) self.old) }
    {
        match self.doing(&attempt) {
            Some(State::Opening) => self.ledger.add_unadmit(front, by, attempt, reply),
            _ => self.answer_down(front, by, attempt.inc),
        }
    }
}
