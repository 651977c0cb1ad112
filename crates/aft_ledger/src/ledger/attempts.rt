//! Entries that tell of attempts up to their commit.

ghost use Rattle.std.specs.Option.{ForSome};
ghost use Rattle.std.specs.Prelude.{◌≡◌, ◌≤◌, ◌<◌, ◌+◌, ◌-◌, ◌^◌, ◌⊎◌, Bool, ℕ, None, Some, IfErr, IfOk, IfSome, IsFalse, IsTrue, OnErr, OnOk, if◌then◌else◌, length, nat_lt, true};
ghost use Rattle.aft_model.specs.declared.node.NodeAct.TheVariants as acts;
ghost use Rattle.aft_model.specs.declared.reply.Reply.TheVariants as replies;
ghost use Rattle.aft_model.specs.Attempts.{attempt_state, attempts, is_gone, is_opening, is_running, open_reads, rows, uuid_of};
ghost use Rattle.aft_model.specs.NodeRules.{is_begin_refusal, is_fetch_refusal};
ghost use Rattle.aft_model.specs.NodeState.{node_state, part, serves};
ghost use Rattle.aft_model.specs.ReadSet.{read_at};
ghost use Rattle.aft_model.specs.Replies.{is_silent};
ghost use Rattle.aft_ledger.specs.Ledger.{shown};
ghost use Rattle.aft_ledger.specs.Picks.{used};
ghost use Rattle.law_attempts.specs.Rows.{rows_picked};
ghost use Rattle.aft_ledger.specs.Turns.{answer_of, is_doing, is_fetching, may_put, picks};
ghost use Rattle.aft_ledger.specs.View.{after_entry};
ghost use Rattle.aft_records.specs.Kept.{with_front};
ghost use Rattle.aft_txn.specs.Rows.{changed, row_at, row_of_uuid, with_noted};
ghost use Rattle.aft_txn.specs.declared.state.TxnFault.TheVariants as faults;

use super::{Ledger, add};
use aft_cache::{DataCache, Spot};
use aft_id::{Bytes, Memory, TxnId};
use aft_model::{Attempt, By, NodeAct, Picked, ReadSet, Reply};
use aft_records::Key;
use aft_txn::{TxnFault, TxnTable};
use uuid::Uuid;

impl Ledger {
    /// An attempt of a UUID of which none is there opens: it has the next number. `Memory` is the one refusal, and adds no entry.
    pub fn add_admit(
        &mut self,
        front: u64,
        by: By,
        inc: u32,
        uuid: Uuid,
    ) -> Result<Attempt, TxnFault>
        requires room { self.old.has_room ≡ true }
        requires serves { IsTrue (serves inc (node_state self.old.history)) }
        requires free { row_of_uuid uuid (rows (part self.old.history)) ≡ None }
        requires short { length self.old.history < 2 ^ 63 }
        ensures memory { IfErr result (λ fault. fault ≡ faults.Memory) }
        ensures attempt { IfOk result (λ attempt. attempt ≡ record { node = self.old.number; inc = inc; number = length (attempts (part self.old.history)) + 1 }) }
        ensures ok { IfOk result (λ attempt. shown self.new ≡ after_entry front by (acts.Admit attempt uuid) None (shown self.old)) }
        ensures err { OnErr result (self.new ≡ self.old) }
    {
        let number = self.table.begin(uuid)?;
        let attempt = Attempt {
            node: self.number,
            inc,
            number,
        };
        add(
            &mut self.history,
            &mut self.front,
            front,
            by,
            NodeAct::Admit { attempt, uuid },
            None,
        );
        Ok(attempt)
    }

    /// An opening attempt runs. Takes no memory.
    pub fn add_begin(&mut self, front: u64, by: By, attempt: Attempt, uuid: Uuid)
        requires room { 1 ≤ self.old.room }
        requires node { attempt.node ≡ self.old.number }
        requires opening { IsTrue (is_doing is_opening attempt self.old.history) }
        requires uuid { uuid ≡ uuid_of attempt (part self.old.history) }
        ensures { shown self.new ≡ after_entry front by (acts.Begin attempt) (Some (replies.Begun uuid)) (shown self.old) }
    {
        self.table.run(attempt.number);
        self.room -= 1;
        add(
            &mut self.history,
            &mut self.front,
            front,
            by,
            NodeAct::Begin { attempt },
            Some(Reply::Begun(uuid)),
        );
    }

    /// An opening attempt is taken away. Takes no memory.
    pub fn add_unadmit(&mut self, front: u64, by: By, attempt: Attempt, reply: Reply)
        requires room { 1 ≤ self.old.room }
        requires node { attempt.node ≡ self.old.number }
        requires opening { IsTrue (is_doing is_opening attempt self.old.history) }
        requires may { IsTrue (is_begin_refusal (Some reply)) }
        ensures { shown self.new ≡ after_entry front by (acts.Unadmit attempt) (Some reply) (shown self.old) }
    {
        self.table.end(attempt.number);
        self.room -= 1;
        add(
            &mut self.history,
            &mut self.front,
            front,
            by,
            NodeAct::Unadmit { attempt },
            Some(reply),
        );
    }

    /// A running attempt puts a value. It is refused where the key would be its 33rd, or memory is wanting. A refusal adds no
    /// entry.
    pub fn add_put(
        &mut self,
        front: u64,
        by: By,
        attempt: Attempt,
        key: Key,
        value: Bytes,
    ) -> Result<(), TxnFault>
        requires room { 1 ≤ self.old.room }
        requires node { attempt.node ≡ self.old.number }
        requires running { IsTrue (is_doing is_running attempt self.old.history) }
        ensures fits { OnOk result (IsTrue (may_put attempt key self.old.history)) }
        ensures fault { IfErr result (λ fault. (fault ≡ faults.Memory) ⊎ ((fault ≡ faults.TooManyKeys) × IsFalse (may_put attempt key self.old.history))) }
        ensures ok { OnOk result (shown self.new ≡ after_entry front by (acts.Put attempt key value) (Some replies.Stored) (shown self.old)) }
        ensures err { OnErr result (self.new ≡ self.old) }
    {
        let own_key = key.clone()?;
        let own_value = value.clone()?;
        match self.table.put(attempt.number, own_key, own_value) {
            Ok(()) => {}
            Err(fault) => return Err(fault),
        }
        self.room -= 1;
        let act = NodeAct::Put {
            attempt,
            key,
            value,
        };
        add(
            &mut self.history,
            &mut self.front,
            front,
            by,
            act,
            Some(Reply::Stored),
        );
        Ok(())
    }

    /// A running attempt gets a key. Want of memory adds no entry.
    pub fn add_select(
        &mut self,
        front: u64,
        by: By,
        attempt: Attempt,
        key: Key,
        picked: Picked,
        answer: Option<Reply>,
    ) -> Result<(), Memory>
        requires has_room { self.old.has_room ≡ true }
        requires room { 1 ≤ self.old.room }
        requires node { attempt.node ≡ self.old.number }
        requires running { IsTrue (is_doing is_running attempt self.old.history) }
        requires pick { picks (shown self.old) attempt key ≡ Some picked }
        requires answer { answer ≡ answer_of picked }
        ensures ok { OnOk result (shown self.new ≡ after_entry front by (acts.Select attempt key picked) answer (shown self.old)) }
        ensures err { OnErr result (self.new ≡ self.old) }
    {
        note(&mut self.table, attempt.number, &key, &picked)?;
        self.room = room_after(self.room, &answer);
        let key = use_again(&mut self.cache, key, &picked);
        let act = NodeAct::Select {
            attempt,
            key,
            picked,
        };
        add(&mut self.history, &mut self.front, front, by, act, answer);
        Ok(())
    }
}

/// A fetched version of a key came from the store, or none came.
impl Ledger {
    /// The value of a fetched version came, and is kept, if there is memory for it. Takes no other memory.
    pub fn add_value(
        &mut self,
        front: u64,
        by: By,
        attempt: Attempt,
        key: Key,
        id: TxnId,
        value: Bytes,
        place: u64,
    )
        requires room { 1 ≤ self.old.room }
        requires node { attempt.node ≡ self.old.number }
        requires fetching { IsTrue (is_fetching attempt self.old.history) }
        ensures { (kept : Bool) × (shown self.new ≡ after_entry front by (acts.Value attempt key id place kept) (Some (replies.Value id value)) (shown self.old)) }
    {
        self.table.end_read(attempt.number);
        let kept = keep(&mut self.cache, &key, &id, &value).is_ok();
        self.room -= 1;
        let act = value_act(attempt, key, &id, place, kept);
        add(
            &mut self.history,
            &mut self.front,
            front,
            by,
            act,
            Some(Reply::Value(id, value)),
        );
    }

    /// No value came of a fetch. Takes no memory.
    pub fn add_lost(
        &mut self,
        front: u64,
        by: By,
        attempt: Attempt,
        key: Key,
        id: TxnId,
        reply: Reply,
    )
        requires room { 1 ≤ self.old.room }
        requires node { attempt.node ≡ self.old.number }
        requires fetching { IsTrue (is_fetching attempt self.old.history) }
        requires may { IsTrue (is_fetch_refusal id (Some reply)) }
        ensures { shown self.new ≡ after_entry front by (acts.Lost attempt key id) (Some reply) (shown self.old) }
    {
        self.table.end_read(attempt.number);
        self.room -= 1;
        add(
            &mut self.history,
            &mut self.front,
            front,
            by,
            NodeAct::Lost { attempt, key, id },
            Some(reply),
        );
    }
}

/// For how many answers there is room after an entry with this answer, or none.
fn room_after(room: u32, answer: &Option<Reply>) -> u32
    requires { 1 ≤ room }
    ensures { result ≡ (if is_silent answer.now then room else room - 1) }
{
    if answer.is_some() { room - 1 } else { room }
}

/// Notes what a get read. Where memory is wanting nothing changes.
fn note(table: &mut TxnTable, number: u64, key: &Key, picked: &Picked) -> Result<(), Memory>
    ensures ok { OnOk result (table.new ≡ record table.old { rows = rows_picked number key.now picked.now table.old.rows }) }
    ensures err { OnErr result (table.new ≡ table.old) }
{
    match picked {
        Picked::Own(_) | Picked::NoneFits(_) => Ok(()),
        Picked::Cached(id, _) => note_at(table, number, key, id, false),
        Picked::Fetch(id) => note_at(table, number, key, id, true),
        Picked::Absent => note_at(table, number, key, &TxnId::zero(), false),
    }
}

/// Notes that a key was read at an id. Where memory is wanting nothing changes.
fn note_at(
    table: &mut TxnTable,
    number: u64,
    key: &Key,
    id: &TxnId,
    fetch: bool,
) -> Result<(), Memory>
    ensures ok { OnOk result (table.new ≡ record table.old { rows = changed number (with_noted key.now id.now fetch) table.old.rows }) }
    ensures err { OnErr result (table.new ≡ table.old) }
{
    // No key is ever read at two ids: a get of one that was read picks the same id again.
    if !may_note(table, number, key, id) {
        return Err(Memory);
    }
    match table.note_read(number, key.clone()?, *id, fetch) {
        Ok(()) => Ok(()),
        Err(_) => Err(Memory),
    }
}

/// Whether an attempt may read a key at an id: it has read it at no other id, and its open reads can be counted.
fn may_note(table: &TxnTable, number: u64, key: &Key, id: &TxnId) -> bool
    ensures same { IsTrue result → ForSome (row_at number table.now.rows) (λ row. IfSome (read_at key.now row.pairs) (λ read. read ≡ id.now)) }
    ensures open { IsTrue result → ForSome (row_at number table.now.rows) (λ row. row.fetching < 2 ^ 63) }
{
    match (table.reads(number), table.open_reads(number)) {
        (Some(reads), Some(open_reads)) => { may_read(reads, key, id) && open_reads < 1 << 63 }
        _ => false,
    }
}

/// Whether a key was read at no other id.
fn may_read(reads: &ReadSet, key: &Key, id: &TxnId) -> bool
    ensures { IsTrue result → IfSome (read_at key.now reads.now) (λ read. read ≡ id.now) }
{
    match reads.at(key) {
        Some(read) => read == *id,
        None => true,
    }
}

/// Brings a kept value that was used to the front, and gives its key back.
fn use_again(cache: &mut DataCache, key: Key, picked: &Picked) -> Key
    ensures key { result ≡ key }
    ensures cache { cache.new ≡ record cache.old { kept = used cache.old.capacity key picked.now cache.old.kept } }
{
    match picked {
        Picked::Cached(id, _) => {
            let spot = Spot { key, id: *id };
            let _ = cache.look(&spot);
            spot.key
        }
        _ => key,
    }
}

/// Keeps a value. Where memory is wanting nothing changes.
fn keep(cache: &mut DataCache, key: &Key, id: &TxnId, value: &Bytes) -> Result<(), Memory>
    ensures ok { OnOk result (cache.new ≡ record cache.old { kept = with_front cache.old.capacity (record { key = key.now; id = id.now; value = value.now }) cache.old.kept }) }
    ensures err { OnErr result (cache.new ≡ cache.old) }
{
    cache.keep(key.clone()?, *id, value.clone()?)
}

/// That the value of a fetched version came.
fn value_act(attempt: Attempt, key: Key, id: &TxnId, place: u64, kept: bool) -> NodeAct
    ensures { result ≡ acts.Value attempt key id.now place kept }
{
    NodeAct::Value {
        attempt,
        key,
        id: *id,
        place,
        kept,
    }
}
