//! What the history says, found without reading it.

ghost use Rattle.std.specs.Option.{option_map_or};
ghost use Rattle.std.specs.Prelude.{◌≡◌, ◌+◌, ◌||◌, None, Some, IfErr, IfOk, IfSome, IsFalse, IsSome, IsTrue, MatchResult, if◌then◌else◌, is_some, length, map, max, option_and_then, option_copied, option_map, slice_get, ◌-◌};
ghost use Rattle.aft_model.specs.Attempts.{attempt_state, buffer, is_committing, is_gone, open_reads, reads, rows, uuid_of, written_keys};
ghost use Rattle.aft_model.specs.Known.{holds_id, known};
ghost use Rattle.aft_model.specs.declared.choice.Picked.TheVariants as picked;
ghost use Rattle.aft_model.specs.Choice.{choice};
ghost use Rattle.aft_model.specs.NodeRules.{is_storing, kept_or_fetched, may_answer_alone, may_begin_boot, picked_by};
ghost use Rattle.aft_model.specs.Cache.{cache};
ghost use Rattle.aft_records.specs.Kept.{kept_value};
ghost use Rattle.aft_model.specs.NodeState.{boots, in_service, newest, node_state, part, serves, service};
ghost use Rattle.aft_ledger.specs.Ledger.{shown};
ghost use Rattle.aft_model.specs.Origins.{greatest_reads};
ghost use Rattle.aft_ledger.specs.Turns.{answer_of, boot_refusal, floor_of, next_boot, picks, within_times};
ghost use Rattle.aft_ledger.specs.Holding.{fixed_in, has_fixed, stores_in};
ghost use Rattle.aft_records.specs.Commits.{has_id, same_commit};
ghost use Rattle.aft_records.specs.Superseded.{is_superseded};
ghost use Rattle.aft_txn.specs.Buffer.{as_write};
ghost use Rattle.aft_txn.specs.Rows.{row_of_uuid, told};

use super::Ledger;
use crate::copies::{copy_of, keys_of};
use crate::origin::greatest_reads;
use aft_cache::Spot;
use aft_id::{Bytes, List, Memory, TxnId};
use aft_meta::{CommitSet, Meta};
use aft_model::{Attempt, Choice, NodeEntry, Picked, ReadSet, Reply};
use aft_records::{Commit, Key};
use aft_select::select;
use aft_txn::{State, TxnTable, Write};
use uuid::Uuid;

/// The stages of a node, and its history's ends.
impl Ledger {
    /// The node's number.
    pub fn number(&self) -> u32
        ensures { result ≡ self.now.number }
    {
        self.number
    }

    /// For how many answers there is still room.
    pub fn room(&self) -> u32
        ensures { result ≡ self.now.room }
    {
        self.room
    }

    /// How many entries the history has.
    pub fn len(&self) -> u64
        ensures { result ≡ length self.now.history }
    {
        self.history.len() as u64
    }

    /// The last entry.
    pub fn last(&self) -> Option<&NodeEntry>
        ensures { option_copied result ≡ slice_get self.now.history (length self.now.history - 1) }
    {
        self.history.last()
    }

    /// The newest incarnation that began to boot, or 0.
    pub fn newest(&self) -> u32
        ensures { result ≡ newest self.now.history }
    {
        self.newest
    }

    /// The incarnation that serves, if one does.
    pub fn serving(&self) -> Option<u32>
        ensures { result ≡ option_map (λ s. s.inc) (service self.now.history) }
    {
        self.stage.serving()
    }

    /// The incarnation that boots next, or why none does.
    pub fn next_boot(&self) -> Result<u32, Reply>
        ensures which { MatchResult result (λ inc. (boot_refusal self.now.number (node_state self.now.history) ≡ None) × (inc ≡ next_boot self.now.history (node_state self.now.history))) (λ reply. boot_refusal self.now.number (node_state self.now.history) ≡ Some reply) }
        ensures next { IfOk result (λ inc. IsTrue (may_begin_boot inc (newest self.now.history) (node_state self.now.history))) }
        ensures may { IfErr result (λ reply. IsTrue (may_answer_alone (Some reply))) }
    {
        self.stage.next_boot(self.number, self.newest)
    }

    /// Whether the node boots an incarnation.
    pub fn boots(&self, inc: u32) -> bool
        ensures { result ≡ boots inc (node_state self.now.history) }
    {
        self.stage.boots(inc)
    }

    /// Whether an incarnation serves.
    pub fn serves(&self, inc: u32) -> bool
        ensures { result ≡ serves inc (node_state self.now.history) }
    {
        self.stage.serves(inc)
    }
}

/// The attempts of the incarnation that serves.
impl Ledger {
    /// The number and the state of the attempt of a UUID.
    pub fn find(&self, uuid: Uuid) -> Option<(u64, State)>
        ensures free { result ≡ None → row_of_uuid uuid (rows (part self.now.history)) ≡ None }
        ensures found { result ≡ option_and_then (λ row. option_map (λ state. (row.number, state)) (told row.state)) (row_of_uuid uuid (rows (part self.now.history))) }
    {
        self.table.find(uuid)
    }

    /// What an attempt is doing.
    pub fn state(&self, attempt: &Attempt) -> Option<State>
        requires node { attempt.now.node ≡ self.now.number }
        requires serves { IsTrue (serves attempt.now.inc (node_state self.now.history)) }
        ensures { result ≡ told (attempt_state attempt.now (part self.now.history)) }
    {
        self.table.state(attempt.number)
    }

    /// How many reads of an attempt are open.
    pub fn open_reads(&self, attempt: &Attempt) -> u64
        requires node { attempt.now.node ≡ self.now.number }
        requires serves { IsTrue (serves attempt.now.inc (node_state self.now.history)) }
        ensures { result ≡ (if is_gone (attempt_state attempt.now (part self.now.history)) then 0 else open_reads attempt.now (part self.now.history)) }
    {
        self.table.open_reads(attempt.number).unwrap_or(0)
    }

    /// The UUID of an attempt that is there.
    pub fn uuid_of(&self, attempt: &Attempt) -> Option<Uuid>
        requires node { attempt.now.node ≡ self.now.number }
        requires serves { IsTrue (serves attempt.now.inc (node_state self.now.history)) }
        requires there { IsFalse (is_gone (attempt_state attempt.now (part self.now.history))) }
        ensures { result ≡ Some (uuid_of attempt.now (part self.now.history)) }
    {
        self.table.uuid_of(attempt.number)
    }

    /// What an attempt that is there has buffered, copied, in key order. Only memory may be wanting.
    pub fn writes(&self, attempt: &Attempt) -> Result<List<Write>, Memory>
        requires node { attempt.now.node ≡ self.now.number }
        requires serves { IsTrue (serves attempt.now.inc (node_state self.now.history)) }
        requires there { IsFalse (is_gone (attempt_state attempt.now (part self.now.history))) }
        ensures { IfOk result (λ writes. map as_write writes ≡ buffer attempt.now (part self.now.history)) }
    {
        self.table.writes(attempt.number)
    }

    /// The greatest ids that an attempt has read, as many as a record names, ascending. Only memory may be wanting.
    pub fn origin_reads(&self, attempt: &Attempt) -> Result<List<TxnId>, Memory>
        requires node { attempt.now.node ≡ self.now.number }
        requires serves { IsTrue (serves attempt.now.inc (node_state self.now.history)) }
        requires there { IsFalse (is_gone (attempt_state attempt.now (part self.now.history))) }
        ensures { IfOk result (λ ids. ids ≡ greatest_reads (reads attempt.now (part self.now.history))) }
    {
        match self.table.reads(attempt.number) {
            Some(reads) => greatest_reads(self.alloc, reads.pairs()),
            None => Err(Memory),
        }
    }

    /// Whether an attempt that commits is storing this commit. Only memory may be wanting.
    pub fn is_storing(&self, attempt: &Attempt, commit: &Commit) -> Result<bool, Memory>
        requires node { attempt.now.node ≡ self.now.number }
        requires serves { IsTrue (serves attempt.now.inc (node_state self.now.history)) }
        requires committing { IsTrue (is_committing (attempt_state attempt.now (part self.now.history))) }
        ensures { IfOk result (λ storing. storing ≡ is_storing commit.now (attempt_state attempt.now (part self.now.history))) }
    {
        let keys = self.written_keys(attempt)?;
        Ok(is_stored_by(&self.table.state(attempt.number), commit, keys.as_slice()))
    }

    /// The keys that an attempt has buffered, ascending.
    pub(super) fn written_keys(&self, attempt: &Attempt) -> Result<List<Key>, Memory>
        requires node { attempt.now.node ≡ self.now.number }
        requires serves { IsTrue (serves attempt.now.inc (node_state self.now.history)) }
        requires there { IsFalse (is_gone (attempt_state attempt.now (part self.now.history))) }
        ensures { IfOk result (λ keys. keys ≡ written_keys (buffer attempt.now (part self.now.history))) }
    {
        let writes = self.writes(attempt)?;
        keys_of(self.alloc, writes.as_slice())
    }
}

/// Whether an attempt in this state that has buffered these keys is storing a commit.
fn is_stored_by(state: &Option<State>, commit: &Commit, keys: &[Key]) -> bool
    ensures { result ≡ stores_in state.now commit.now keys.now }
{
    match state {
        Some(State::Committing(id)) => is_same(commit, id, keys),
        _ => false,
    }
}

/// Whether a commit has this id and these keys.
fn is_same(commit: &Commit, id: &TxnId, keys: &[Key]) -> bool
    ensures { result ≡ same_commit commit.now (record { id = id.now; keys = keys.now }) }
{
    commit.id == *id && commit.keys.list() == keys
}

/// What a get picks.
impl Ledger {
    /// What a get of a key picks, and what it answers: its own last put, or else the version that is chosen, by its kept value
    /// or its fetch, or else that the key is absent, or what blocks its versions. Only memory may be wanting.
    pub fn pick(&self, attempt: &Attempt, key: &Key) -> Result<(Picked, Option<Reply>), Memory>
        requires node { attempt.now.node ≡ self.now.number }
        requires serves { IsTrue (serves attempt.now.inc (node_state self.now.history)) }
        requires there { IsFalse (is_gone (attempt_state attempt.now (part self.now.history))) }
        ensures picks { IfOk result (λ pick. picks (shown self.now) attempt.now key.now ≡ Some pick.0) }
        ensures answers { IfOk result (λ pick. pick.1 ≡ answer_of pick.0) }
    {
        match self.table.own(attempt.number, key) {
            Some(value) => own_picked(value),
            None => self.chosen(attempt, key),
        }
    }

    /// What the choice picks of a key, and what it answers.
    fn chosen(&self, attempt: &Attempt, key: &Key) -> Result<(Picked, Option<Reply>), Memory>
        requires node { attempt.now.node ≡ self.now.number }
        requires serves { IsTrue (serves attempt.now.inc (node_state self.now.history)) }
        requires there { IsFalse (is_gone (attempt_state attempt.now (part self.now.history))) }
        ensures picks { IfOk result (λ pick. pick.0 ≡ picked_by key.now (cache self.now.capacity (part self.now.history)) (choice key.now (reads attempt.now (part self.now.history)) (known self.now.history))) }
        ensures answers { IfOk result (λ pick. pick.1 ≡ answer_of pick.0) }
    {
        match self.choice(attempt, key)? {
            Choice::Version(id) => self.kept_or_fetched(key, id),
            Choice::Absent => Ok((Picked::Absent, Some(Reply::Absent))),
            Choice::NoneFits(blocked) => {
                let reply = Reply::NoValidVersion(copy_of(self.alloc, blocked.as_slice())?);
                Ok((Picked::NoneFits(blocked), Some(reply)))
            }
        }
    }

    /// The choice of a version of a key.
    fn choice(&self, attempt: &Attempt, key: &Key) -> Result<Choice, Memory>
        requires node { attempt.now.node ≡ self.now.number }
        requires serves { IsTrue (serves attempt.now.inc (node_state self.now.history)) }
        requires there { IsFalse (is_gone (attempt_state attempt.now (part self.now.history))) }
        ensures { IfOk result (λ chosen. chosen ≡ choice key.now (reads attempt.now (part self.now.history)) (known self.now.history)) }
    {
        match self.table.reads(attempt.number) {
            Some(reads) => select(self.alloc, &self.known, reads, key),
            None => Err(Memory),
        }
    }

    /// A version's value where it is kept, and else its fetch.
    fn kept_or_fetched(&self, key: &Key, id: TxnId) -> Result<(Picked, Option<Reply>), Memory>
        ensures picks { IfOk result (λ pick. pick.0 ≡ kept_or_fetched id (kept_value key.now id (cache self.now.capacity (part self.now.history)))) }
        ensures answers { IfOk result (λ pick. pick.1 ≡ answer_of pick.0) }
    {
        match self.kept(key, id)? {
            Some(value) => {
                let reply = Reply::Value(id, value.clone()?);
                Ok((Picked::Cached(id, value), Some(reply)))
            }
            None => Ok((Picked::Fetch(id), None)),
        }
    }

    /// A copy of a version's value, where it is kept.
    fn kept(&self, key: &Key, id: TxnId) -> Result<Option<Bytes>, Memory>
        ensures { IfOk result (λ kept. kept ≡ kept_value key.now id (cache self.now.capacity (part self.now.history))) }
    {
        let spot = Spot {
            key: key.clone()?,
            id,
        };
        copy_there(self.cache.peek(&spot))
    }
}

/// A copy of a value, where there is one.
fn copy_there(value: Option<&Bytes>) -> Result<Option<Bytes>, Memory>
    ensures { IfOk result (λ copy. copy ≡ option_copied value.entry) }
{
    match value {
        Some(value) => Ok(Some(value.clone()?)),
        None => Ok(None),
    }
}

/// A get of the attempt's own last put.
fn own_picked(value: &Bytes) -> Result<(Picked, Option<Reply>), Memory>
    ensures picks { IfOk result (λ pick. pick.0 ≡ picked.Own value.now) }
    ensures answers { IfOk result (λ pick. pick.1 ≡ answer_of pick.0) }
{
    let reply = Reply::Own(value.clone()?);
    Ok((Picked::Own(value.clone()?), Some(reply)))
}

/// The known commits.
impl Ledger {
    /// One more than the greatest time of a known commit that wrote one of these keys, as far as a time goes, or 0.
    pub fn floor(&self, keys: &[Key]) -> u64
        ensures { result ≡ floor_of keys.now (known self.now.history) }
    {
        floor_of(&self.known, keys)
    }

    /// Whether the known commits supersede a commit.
    pub fn covered(&self, commit: &Commit) -> bool
        ensures { result ≡ is_superseded commit.now (known self.now.history) }
    {
        self.known.covered(commit)
    }

    /// Whether an id is held: it is known, or an attempt commits under it or is in doubt about it.
    pub fn holds(&self, id: TxnId) -> bool
        ensures { result ≡ in_service (holds_id id) (service self.now.history) }
    {
        either(is_known(&self.known, id), is_fixed(&self.table, &id))
    }
}

/// Whether one of two is true.
fn either(one: bool, other: bool) -> bool
    ensures { result ≡ (one || other) }
{
    one || other
}

/// Whether a commit of an id is known.
fn is_known(known: &Meta, id: TxnId) -> bool
    ensures { result ≡ has_id id known.now }
{
    known.keys_of(id).is_some()
}

/// Whether the attempt of an id's UUID commits under the id, or is in doubt about it.
fn is_fixed(table: &TxnTable, id: &TxnId) -> bool
    ensures { result ≡ has_fixed id.now (row_of_uuid id.now.uuid table.now.rows) }
{
    fixes(&table.find(id.uuid), id)
}

/// Whether an attempt that was found commits under an id, or is in doubt about it.
fn fixes(found: &Option<(u64, State)>, id: &TxnId) -> bool
    ensures { result ≡ fixed_in id.now found.now }
{
    match found {
        Some((_, State::Committing(fixed))) => id == fixed,
        Some((_, State::Doubt(fixed))) => id == fixed,
        _ => false,
    }
}

/// One more than the greatest time of a commit that wrote one of these keys, as far as a time goes, or 0.
fn floor_of(known: &Meta, keys: &[Key]) -> u64
    ensures { result ≡ floor_of keys.now known.now }
{
    let mut floor = 0;
    for key in keys {
        floor = higher(floor, known.latest(key));
    }
    floor
}

/// The greater of a floor and one more than the time of an id, if there is one, as far as a time goes.
fn higher(floor: u64, newest: Option<TxnId>) -> u64
    ensures { result ≡ max floor (within_times (option_map_or (λ id. id.time + 1) newest 0)) }
{
    match newest {
        Some(id) => floor.max(id.time.saturating_add(1)),
        None => floor,
    }
}
