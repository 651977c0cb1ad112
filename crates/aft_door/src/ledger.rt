//! The door's history, with what is found of it without reading it.

ghost use Rattle.std.specs.Prelude.{◌≡◌, ◌≢◌, ◌+◌, if◌then◌else◌, ◌++◌, ◌∷◌, ◌<◌, ◌≤◌, ◌==◌, ◌&&◌, ℕ, List, [], Some, None, IsTrue, false, OnOk, length, nat_le, option_map, slice_get, true, vec_capacity, vec_len};
ghost use Rattle.std.specs.List.{list_any};
ghost use Rattle.aft_model.specs.Bytes.{HasBytes, acts_bytes};
ghost use Rattle.aft_model.specs.Readings.{marker_name, record_name};
ghost use Rattle.aft_model.specs.Claims.{claim_place, forgotten, given_up, holder, holdout, holds, tries_delete};
ghost use Rattle.aft_model.specs.Cut.{put_since, tries_put};
ghost use Rattle.aft_model.specs.DoorKnowledge.{is_open};
ghost use Rattle.aft_model.specs.LegalDoor.{Legal, may_follow};
ghost use Rattle.aft_model.specs.Membership.{fenced, incarnation, is_up, next_inc, up_now};
ghost use Rattle.aft_door.specs.Entries.{called, came_up, claimed, door_opened, entry, gave_up, numbers, released, was_fenced, who_calls};
ghost use Rattle.aft_door.specs.Index.{IsPlaced, NotesFenced, claimant_in};
ghost use Rattle.aft_door.specs.Least.{LeastKept, keeps, lesser_pair};
ghost use Rattle.std.specs.Map.{lookup};
ghost use Rattle.indexmap.specs.IndexMap.{spare};
ghost use Rattle.aft_door.specs.Ledger.{Standing};
ghost use Rattle.aft_door.specs.Refusals.{is_past};

use crate::index::{Claimed, GivenUp};
use aft_id::{Bytes, List, Memory, Text, TxnId, uuid_bytes};
use aft_keeper::{KeeperAnswer, KeeperCall};
use aft_model::{By, Caller, DoorAct, DoorEntry};
use indexmap::{IndexMap, IndexSet};
use std::alloc::Global;
use std::marker::Model;
use uuid::Uuid;

/// The door's history, which is legal, with maps that agree with it. Contracts see the history, and whether there is room
/// for one more entry of any kind. Room for a fence of each incarnation that is up, and for a release of each claim, is
/// always there besides.
#[derive(Drop)]
pub(crate) struct Ledger {
    history: Vec<DoorEntry>,
    ups: IndexMap<u32, u32>,
    fenced: IndexMap<u32, u32>,
    claims: IndexMap<Uuid, Claimed>,
    forgotten: IndexSet<Uuid>,
    puts: IndexMap<Uuid, u64>,
    given: IndexSet<GivenUp>,
}

impl Model for Ledger {
    ghost use Rattle.std.specs.Prelude.{◌+◌, ◌&&◌, nat_lt, length, true, vec_capacity, vec_len};
    ghost use Rattle.indexmap.specs.IndexMap.{spare};
    ghost use Rattle.indexmap.specs.IndexSet.{spare as set_spare};
    ghost use Rattle.aft_door.specs.Ledger.{LedgerView, IsLedger};

    ghost Value = { LedgerView };

    ghost view = { λ l. record {
      history = l.history.items;
      has_room = nat_lt (length l.ups.entries + length l.claims.entries + length l.history.items + 1) (vec_capacity l.history)
          && nat_lt (length l.ups.entries) (spare l.fenced)
          && nat_lt 0 (spare l.ups) && nat_lt 0 (spare l.claims) && nat_lt 0 (spare l.puts)
          && nat_lt 0 (set_spare l.forgotten) && nat_lt 0 (set_spare l.given);
    } };

    ghost invariant = { λ l. IsLedger l.history.items l.ups.entries l.fenced.entries l.claims.entries l.forgotten.keys l.puts.entries l.given.keys (vec_capacity l.history) (spare l.fenced) };
}

impl Ledger {
    /// An empty history. Takes no memory.
    pub(crate) fn new(alloc: Global) -> Ledger
        ensures { result.history ≡ [] }
    {
        Ledger {
            history: Vec::new(alloc),
            ups: IndexMap::new(alloc),
            fenced: IndexMap::new(alloc),
            claims: IndexMap::new(alloc),
            forgotten: IndexSet::new(alloc),
            puts: IndexMap::new(alloc),
            given: IndexSet::new(alloc),
        }
    }

    /// The history. Takes no memory.
    pub(crate) fn into_history(self) -> List<DoorEntry>
        ensures history { result ≡ self.history }
        ensures legal { Legal result }
        ensures bytes { HasBytes result }
    {
        let Ledger {
            history,
            ups: _,
            fenced: _,
            claims: _,
            forgotten: _,
            puts: _,
            given: _,
        } = self;
        List::from_vec(history)
    }

    /// What is true of the history.
    pub(crate) fn law(&self)
        ensures legal { Legal self.now.history }
        ensures bytes { HasBytes self.now.history }
        ensures standing { Standing self.now.history }
    {
        let _ = &self.history;
    }

    /// Makes room for one more entry of any kind.
    pub(crate) fn make_room(&mut self) -> Result<(), Memory>
        ensures history { self.new.history ≡ self.old.history }
        ensures room { OnOk result (self.new.has_room ≡ true) }
    {
        // An entry may owe another: an up its fence, and a claim its release.
        let owed = self.ups.len() + self.claims.len();
        let Some(needed) = owed.checked_add(2) else {
            return Err(Memory);
        };
        self.history.reserve(needed)?;
        self.fenced.reserve(self.ups.len() + 1)?;
        self.ups.reserve(1)?;
        self.claims.reserve(1)?;
        self.puts.reserve(1)?;
        self.forgotten.reserve(1)?;
        self.given.reserve(1)?;
        Ok(())
    }
}

/// What the history says, found without reading it.
impl Ledger {
    /// How many entries the history has.
    pub(crate) fn len(&self) -> u64
        ensures { result ≡ length self.now.history }
    {
        count(&self.history)
    }

    /// The incarnation of a node that is up, if one is.
    pub(crate) fn up_now(&self, node: u32) -> Option<u32>
        ensures { result ≡ up_now node self.now.history }
    {
        match self.ups.get(&node) {
            Some(inc) => Some(*inc),
            None if node == 0 => Some(1),
            None => None,
        }
    }

    /// Whether an incarnation is up.
    pub(crate) fn is_up(&self, node: u32, inc: u32) -> bool
        ensures { result ≡ is_up (incarnation node inc) self.now.history }
    {
        self.law();
        self.up_now(node) == Some(inc)
    }

    /// Whether an incarnation of this number or a greater one was fenced.
    pub(crate) fn was_fenced(&self, node: u32, inc: u32) -> bool
        ensures { result ≡ is_past node inc self.now.history }
    {
        match self.fenced.get(&node) {
            Some(greatest) => inc <= *greatest,
            None => false,
        }
    }

    /// The incarnation that a node may come up as.
    pub(crate) fn next_inc(&self, node: u32) -> u32
        ensures { result ≡ next_inc node self.now.history }
    {
        match self.fenced.get(&node) {
            Some(greatest) => {
                let greatest = *greatest;
                greatest.saturating_add(1)
            }
            None => 1,
        }
    }

    /// Whose claim of a UUID stands and is up, with the place of that claim.
    fn held(&self, uuid: &Uuid) -> Option<Claimed>
        ensures holder { holder uuid.now self.now.history ≡ claimant_in result }
        ensures place { IsPlaced uuid.now self.now.history result }
    {
        let claimed = *self.claims.get(uuid)?;
        if !self.is_up(claimed.node, claimed.inc) {
            return None;
        }
        Some(claimed)
    }

    /// Who holds a UUID, if anybody does.
    pub(crate) fn holder(&self, uuid: &Uuid) -> Option<(u32, u32)>
        ensures { result ≡ option_map numbers (holder uuid.now self.now.history) }
    {
        let held = self.held(uuid)?;
        Some((held.node, held.inc))
    }

    /// The place of the claim by which a UUID is held, if anybody holds it.
    pub(crate) fn claim_place(&self, uuid: &Uuid) -> Option<u64>
        ensures { result ≡ claim_place uuid.now self.now.history }
    {
        let held = self.held(uuid)?;
        Some(held.place)
    }

    /// Whether a UUID is forgotten.
    pub(crate) fn is_forgotten(&self, uuid: &Uuid) -> bool
        ensures { result ≡ forgotten uuid.now self.now.history }
    {
        uuid_bytes(uuid);
        self.forgotten.contains(uuid)
    }

    /// Whether a record of a UUID was put behind a place.
    pub(crate) fn put_since(&self, uuid: &Uuid, place: u64) -> bool
        ensures { result ≡ put_since uuid.now place self.now.history }
    {
        uuid_bytes(uuid);
        match self.puts.get(uuid) {
            Some(last) => place < *last,
            None => false,
        }
    }

    /// Whether an incarnation has given the commit of an id up.
    fn has_given(&self, node: u32, inc: u32, id: &TxnId) -> bool
        ensures { result ≡ given_up (incarnation node inc) id.now self.now.history }
    {
        self.given.contains(&GivenUp { node, inc, id: *id })
    }
}

/// Who holds a commit.
impl Ledger {
    /// The incarnation of the least node that is up and has not given an id up, if there is one.
    pub(crate) fn holdout(&self, id: &TxnId) -> Option<(u32, u32)>
        ensures { result ≡ option_map numbers (holdout id.now self.now.history) }
    {
        least_kept(&self.ups, &self.given, id)
    }
}

/// The least node of those that are up, and have not given an id up.
fn least_kept(ups: &IndexMap<u32, u32>, given: &IndexSet<GivenUp>, id: &TxnId) -> Option<(u32, u32)>
    ensures { LeastKept (keeps id.now given.now.keys) ups.now.entries ups.now.entries result }
{
    let mut least = None;
    for place in 0..ups.len() {
        least = next_least(given, id, least, entry_at(ups, place));
    }
    least
}

/// The least so far with one more, unless that is the office or has given the id up.
fn next_least(
    given: &IndexSet<GivenUp>,
    id: &TxnId,
    least: Option<(u32, u32)>,
    up: (u32, u32),
) -> Option<(u32, u32)>
    ensures { result ≡ (if keeps id.now given.now.keys (incarnation up.0 up.1) then lesser_pair least up else least) }
{
    let (node, inc) = up;
    let own = GivenUp { node, inc, id: *id };
    if node == 0 || given.contains(&own) {
        return least;
    }
    lesser(least, up)
}

/// The entry at a place.
fn entry_at(ups: &IndexMap<u32, u32>, place: usize) -> (u32, u32)
    requires { place < length ups.now.entries }
    ensures entry { slice_get ups.now.entries place ≡ Some result }
    ensures found { lookup (λ key. result.0 == key) ups.now.entries ≡ Some result.1 }
{
    match ups.get_index(place) {
        Some((node, inc)) => (*node, *inc),
        None => unreachable!(),
    }
}

/// The one of the lesser node.
fn lesser(least: Option<(u32, u32)>, other: (u32, u32)) -> Option<(u32, u32)>
    ensures { result ≡ lesser_pair least other }
{
    match least {
        Some(least) if least.0 <= other.0 => Some(least),
        _ => Some(other),
    }
}

/// Entries. Each is one that may come after the history.
impl Ledger {
    /// A call of the store that puts no record and deletes no marker.
    pub(crate) fn add_call(&mut self, who: Caller, call: KeeperCall, answer: KeeperAnswer)
        requires room { self.old.has_room ≡ true }
        requires legal { IsTrue (may_follow self.old.history (called who call answer)) }
        requires bytes { IsTrue (acts_bytes (called who call answer).act) }
        requires no_marker { (uuid : List ℕ) → tries_delete (marker_name uuid) (called who call answer).act ≡ false }
        requires no_record { (uuid : List ℕ) → tries_put (record_name uuid) (called who call answer).act ≡ false }
        ensures { self.new.history ≡ self.old.history ++ called who call answer ∷ [] }
    {
        let (node, inc) = (who.node, who.inc);
        let act = DoorAct::Call {
            node,
            inc,
            call,
            answer,
        };
        add(&mut self.history, DoorEntry { by: who.by, act });
    }

    /// A put of a record of this UUID.
    pub(crate) fn add_record_put(
        &mut self,
        who: Caller,
        uuid: Uuid,
        name: Text,
        bytes: Bytes,
        answer: KeeperAnswer,
    )
        requires room { self.old.has_room ≡ true }
        requires legal { IsTrue (may_follow self.old.history (called who (KeeperCall.Put name bytes) answer)) }
        requires bytes { IsTrue (acts_bytes (called who (KeeperCall.Put name bytes) answer).act) }
        requires name { name ≡ record_name uuid }
        ensures { self.new.history ≡ self.old.history ++ called who (KeeperCall.Put name bytes) answer ∷ [] }
    {
        uuid_bytes(&uuid);
        let put = self.puts.insert(uuid, count(&self.history));
        prove!(put.is_ok());
        let _ = put;
        let (node, inc) = (who.node, who.inc);
        let call = KeeperCall::Put(name, bytes);
        let act = DoorAct::Call {
            node,
            inc,
            call,
            answer,
        };
        add(&mut self.history, DoorEntry { by: who.by, act });
    }

    /// A delete of the marker of this UUID.
    pub(crate) fn add_marker_delete(
        &mut self,
        who: Caller,
        uuid: Uuid,
        name: Text,
        answer: KeeperAnswer,
    )
        requires room { self.old.has_room ≡ true }
        requires legal { IsTrue (may_follow self.old.history (called who (KeeperCall.Delete name) answer)) }
        requires bytes { IsTrue (acts_bytes (called who (KeeperCall.Delete name) answer).act) }
        requires name { name ≡ marker_name uuid }
        ensures { self.new.history ≡ self.old.history ++ called who (KeeperCall.Delete name) answer ∷ [] }
    {
        uuid_bytes(&uuid);
        let forgotten = self.forgotten.insert(uuid);
        prove!(forgotten.is_ok());
        let _ = forgotten;
        let (node, inc) = (who.node, who.inc);
        let call = KeeperCall::Delete(name);
        let act = DoorAct::Call {
            node,
            inc,
            call,
            answer,
        };
        add(&mut self.history, DoorEntry { by: who.by, act });
    }

    /// The opening ends.
    pub(crate) fn add_opened(&mut self, by: By)
        requires room { self.old.has_room ≡ true }
        requires legal { IsTrue (may_follow self.old.history (door_opened by)) }
        ensures { self.new.history ≡ self.old.history ++ door_opened by ∷ [] }
    {
        let act = DoorAct::Opened;
        add(&mut self.history, DoorEntry { by, act });
    }

    /// An incarnation comes up.
    pub(crate) fn add_up(&mut self, by: By, node: u32, inc: u32)
        requires room { self.old.has_room ≡ true }
        requires open { IsTrue (is_open self.old.history) }
        requires alone { up_now node self.old.history ≡ None }
        requires newer { is_past node inc self.old.history ≡ false }
        ensures { self.new.history ≡ self.old.history ++ came_up by node inc ∷ [] }
    {
        let up = self.ups.insert(node, inc);
        prove!(up.is_ok());
        let _ = up;
        let act = DoorAct::Up { node, inc };
        add(&mut self.history, DoorEntry { by, act });
    }

    /// An incarnation that is up is fenced. Takes no memory.
    pub(crate) fn add_fence(&mut self, by: By, node: u32, inc: u32)
        requires node { node ≢ 0 }
        requires up { up_now node self.old.history ≡ Some inc }
        ensures { self.new.history ≡ self.old.history ++ was_fenced by node inc ∷ [] }
    {
        let up = self.ups.swap_remove(&node);
        prove!(up.is_some());
        let _ = up;
        note_fenced(&mut self.fenced, node, inc);
        let act = DoorAct::Fence { node, inc };
        add(&mut self.history, DoorEntry { by, act });
    }

    /// An incarnation claims a UUID.
    pub(crate) fn add_claim(&mut self, who: Caller, uuid: Uuid)
        requires room { self.old.has_room ≡ true }
        requires legal { IsTrue (may_follow self.old.history (claimed who uuid)) }
        ensures { self.new.history ≡ self.old.history ++ claimed who uuid ∷ [] }
    {
        uuid_bytes(&uuid);
        let (node, inc) = (who.node, who.inc);
        let place = count(&self.history);
        let claim = self.claims.insert(uuid, Claimed { node, inc, place });
        prove!(claim.is_ok());
        let _ = claim;
        let act = DoorAct::Claim { uuid, node, inc };
        add(&mut self.history, DoorEntry { by: who.by, act });
    }

    /// An incarnation that holds a UUID lets it go. Takes no memory.
    pub(crate) fn add_release(&mut self, who: Caller, uuid: Uuid)
        requires up { IsTrue (is_up (who_calls who) self.old.history) }
        requires held { IsTrue (holds (who_calls who) uuid self.old.history) }
        ensures { self.new.history ≡ self.old.history ++ released who uuid ∷ [] }
    {
        uuid_bytes(&uuid);
        let claim = self.claims.swap_remove(&uuid);
        prove!(claim.is_some());
        let _ = claim;
        let (node, inc) = (who.node, who.inc);
        let act = DoorAct::Release { uuid, node, inc };
        add(&mut self.history, DoorEntry { by: who.by, act });
    }

    /// An incarnation gives the commit of an id up.
    pub(crate) fn add_give_up(&mut self, who: Caller, id: TxnId)
        requires room { self.old.has_room ≡ true }
        requires legal { IsTrue (may_follow self.old.history (gave_up who id)) }
        ensures { self.new.history ≡ self.old.history ++ gave_up who id ∷ [] }
    {
        uuid_bytes(&id.uuid);
        let (node, inc) = (who.node, who.inc);
        let given = self.given.insert(GivenUp { node, inc, id });
        prove!(given.is_ok());
        let _ = given;
        let act = DoorAct::GiveUp { node, inc, id };
        add(&mut self.history, DoorEntry { by: who.by, act });
    }
}

/// Notes that an incarnation of a node was fenced, for which there is room.
fn note_fenced(fenced: &mut IndexMap<u32, u32>, node: u32, inc: u32)
    requires { 0 < spare fenced.old }
    ensures updates { NotesFenced fenced.old.entries node inc fenced.new.entries }
    ensures room { spare fenced.old ≤ spare fenced.new + 1 }
{
    let greatest = match fenced.get(&node) {
        Some(greatest) => (*greatest).max(inc),
        None => inc,
    };
    let noted = fenced.insert(node, greatest);
    prove!(noted.is_ok());
    let _ = noted;
}

/// How many entries there are.
fn count(history: &Vec<DoorEntry>) -> u64
    ensures { result ≡ length history.now.items }
{
    history.len() as u64
}

/// Adds an entry, for which there is room.
fn add(history: &mut Vec<DoorEntry>, entry: DoorEntry)
    requires { vec_len history.old < vec_capacity history.old }
    ensures items { history.new.items ≡ history.old.items ++ entry ∷ [] }
    ensures capacity { vec_capacity history.old ≤ vec_capacity history.new }
{
    let added = history.push(entry);
    prove!(added.is_ok());
    let _ = added;
}
