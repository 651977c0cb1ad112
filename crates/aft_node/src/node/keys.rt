//! Puts and gets.

ghost use Rattle.aft_model.specs.Attempts.{is_running};
ghost use Rattle.std.specs.Option.{ForSome};
ghost use Rattle.std.specs.Prelude.{◌≡◌, ◌≤◌, IsFalse, IsTrue, None, length, OnOk, IfOk, OnErr};
ghost use Rattle.aft_ledger.specs.Turns.{is_doing, is_fetching};
ghost use Rattle.aft_ledger.specs.View.{answered};
ghost use Rattle.aft_node.specs.Closing.{MayClose, opens_fetch};
ghost use Rattle.aft_node.specs.Getting.{Came, MayCome, put_done, select_done, select_go, go_of};
ghost use Rattle.aft_node.specs.Held.{get_refusal};
ghost use Rattle.aft_node.specs.Outcomes.{Does, Leads, down_reply};
ghost use Rattle.aft_node.specs.declared.goes.SelectGo.TheVariants as selects;

use super::Node;
use crate::goes::{Got, SelectGo};
use aft_id::{Bytes, Memory, TxnId};
use aft_model::{Attempt, By, Caller, Hold, Picked, Reply};
use aft_records::Key;
use aft_txn::TxnFault;

impl Node {
    /// The turn of a put: the attempt that the client holds buffers the value (at most 4,096 bytes), and the answer is `Stored`. It
    /// answers instead, in this order: `NoTransaction` where the client holds none, `NodeDown` where the node doesn't serve its
    /// incarnation, `NoTransaction` where it isn't there, `Committing` where it doesn't run, `TooManyKeys` where the key would be
    /// its 33rd; or `NoMemory`.
    pub fn put(&mut self, front: u64, by: By, hold: &Hold, key: Key, value: Bytes)
        requires room { 1 ≤ self.old.room }
        requires node { ForSome hold.now.attempt (λ a. a.node ≡ self.old.number) }
        requires fits { length value ≤ 4096 }
        ensures { Does front by (get_refusal hold.now.attempt self.old) (put_done front by key value hold.now.attempt self.old) self.old self.new }
    {
        match self.running(hold) {
            Ok(attempt) => self.put_in(front, by, attempt, key, value),
            Err(reply) => self.ledger.answer(front, by, reply),
        }
    }

    /// A put of an attempt that runs.
    fn put_in(&mut self, front: u64, by: By, attempt: Attempt, key: Key, value: Bytes)
        requires room { 1 ≤ self.old.room }
        requires node { attempt.node ≡ self.old.number }
        requires running { IsTrue (is_doing is_running attempt self.old.history) }
        ensures { Does front by None (put_done front by key value (Some attempt) self.old) self.old self.new }
    {
        match self.ledger.add_put(front, by, attempt, key, value) {
            Ok(()) => {}
            Err(TxnFault::TooManyKeys) => self.ledger.answer(front, by, Reply::TooManyKeys),
            Err(_) => self.ledger.answer(front, by, Reply::NoMemory),
        }
    }

    /// The first turn of a get. What the attempt has put itself is answered as `Own`, a kept value as `Value`, a key that is absent as
    /// `Absent`, and where each known version is blocked `NoValidVersion`, at once. Else the version is noted as read, and is to be
    /// fetched. It is refused as a put is, but for the number of keys.
    pub fn select(&mut self, front: u64, by: By, hold: &Hold, key: Key) -> SelectGo
        requires room { 1 ≤ self.old.room }
        requires node { ForSome hold.now.attempt (λ a. a.node ≡ self.old.number) }
        ensures { Leads front by selects.Answered (get_refusal hold.now.attempt self.old) (select_done front by key hold.now.attempt self.old) (select_go by key hold.now.attempt self.old) self.old self.new result }
    {
        match self.running(hold) {
            Ok(attempt) => self.select_in(front, by, attempt, key),
            Err(reply) => {
                self.ledger.answer(front, by, reply);
                SelectGo::Answered
            }
        }
    }

    /// A get of an attempt that runs.
    fn select_in(&mut self, front: u64, by: By, attempt: Attempt, key: Key) -> SelectGo
        requires room { 1 ≤ self.old.room }
        requires node { attempt.node ≡ self.old.number }
        requires running { IsTrue (is_doing is_running attempt self.old.history) }
        ensures { Leads front by selects.Answered None (select_done front by key (Some attempt) self.old) (select_go by key (Some attempt) self.old) self.old self.new result }
    {
        match self.pick(front, by, attempt, key) {
            Ok(go) => go,
            Err(Memory) => {
                self.ledger.answer(front, by, Reply::NoMemory);
                SelectGo::Answered
            }
        }
    }

    /// Adds the pick of a key. Where memory is wanting nothing changes.
    fn pick(&mut self, front: u64, by: By, attempt: Attempt, key: Key) -> Result<SelectGo, Memory>
        requires room { 1 ≤ self.old.room }
        requires node { attempt.node ≡ self.old.number }
        requires running { IsTrue (is_doing is_running attempt self.old.history) }
        ensures node { OnOk result (self.new ≡ select_done front by key (Some attempt) self.old) }
        ensures go { IfOk result (λ go. go ≡ select_go by key (Some attempt) self.old) }
        ensures err { OnErr result (self.new ≡ self.old) }
    {
        self.ledger.make_room()?;
        let (picked, answer) = self.ledger.pick(&attempt, &key)?;
        let go = self.go_of(by, &attempt, &picked);
        self.ledger
            .add_select(front, by, attempt, key, picked, answer)?;
        Ok(go)
    }

    /// Where a pick leads.
    fn go_of(&self, by: By, attempt: &Attempt, picked: &Picked) -> SelectGo
        ensures { result ≡ go_of self.now.number by attempt.now (Some picked.now) }
    {
        match picked {
            Picked::Fetch(id) => {
                let node = self.ledger.number();
                let inc = attempt.inc;
                SelectGo::Fetch(Caller { node, inc, by }, *id)
            }
            _ => SelectGo::Answered,
        }
    }

    /// The last turn of a get that fetched: the value that came at this place of the door's history is kept, if there is memory for
    /// it, and answered; or else why none came. Where the fetch isn't open any more, or the node doesn't serve the attempt's incarnation,
    /// that is answered alone, as `NodeDown`. Takes no other memory.
    pub fn value(
        &mut self,
        front: u64,
        by: By,
        attempt: Attempt,
        key: Key,
        id: TxnId,
        got: Got,
        place: u64,
    )
        requires room { 1 ≤ self.old.room }
        requires node { attempt.node ≡ self.old.number }
        requires own { MayClose (opens_fetch attempt key id) by self.old.history }
        requires may { MayCome id got }
        ensures open { IsTrue (is_fetching attempt self.old.history) → Came front by attempt key id place got self.old self.new }
        ensures over { IsFalse (is_fetching attempt self.old.history) → self.new ≡ answered front by (down_reply self.old attempt.inc) self.old }
    {
        if !self.is_fetching(&attempt) {
            self.answer_down(front, by, attempt.inc);
            return;
        }
        match got {
            Got::Version(value) => {
                self.ledger
                    .add_value(front, by, attempt, key, id, value, place);
            }
            Got::Refused(reply) => self.ledger.add_lost(front, by, attempt, key, id, reply),
        }
    }

    /// Whether an attempt is there, in the service that the node is in, and has a read that isn't over.
    fn is_fetching(&self, attempt: &Attempt) -> bool
        requires node { attempt.now.node ≡ self.now.number }
        ensures { result ≡ is_fetching attempt.now self.now.history }
    {
        self.ledger.serves(attempt.inc) && self.ledger.open_reads(attempt) > 0
    }
}
