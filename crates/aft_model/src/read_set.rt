//! What a transaction has read.

ghost use Rattle.std.specs.Prelude.{◌≡◌, ◌||◌, ℕ, List, [], ◌∷◌, ◌++◌, None, Some, if◌then◌else◌, OnOk, OnErr};
ghost use Rattle.std.specs.Str.{bytes_eq};
ghost use Rattle.aft_id.specs.TxnId.{same_id};
ghost use Rattle.aft_id.specs.declared.txn_id.TxnId.{TxnId as Id};
ghost use Rattle.aft_model.specs.ReadSet.{read_at, has_read, id_of, is_seen, HasEachKeyOnce};

use aft_id::{Memory, TxnId};
use aft_records::Key;
use std::alloc::Global;
use std::collections::{BTreeMap, BTreeSet};
use std::marker::Model;

/// A key, and the id at which it was read: the zero id where it was absent.
#[derive(Debug, Drop)]
pub struct ReadPair {
    pub key: Key,
    pub id: TxnId,
}

/// The id at which each key was read.
type Ids = BTreeMap<Key, TxnId>;

/// Keys and the ids at which they were read, each key once, in order of reading.
#[derive(Debug, Drop)]
pub struct ReadSet {
    pairs: Vec<ReadPair>,
    /// The id at which each key was read.
    ids: Ids,
    /// The ids at which some key was read.
    seen: BTreeSet<TxnId>,
}

impl Model for ReadSet {
    ghost use Rattle.std.specs.Prelude as prelude;
    ghost use Rattle.aft_model.specs.declared.read_set.ReadPair.{ReadPair};
    ghost use Rattle.aft_model.specs.ReadSet.{IsIndexed};

    ghost Value = { prelude.List ReadPair };

    ghost view = { λ reads. reads.pairs.items };

    ghost invariant = { λ reads. IsIndexed reads.pairs.items reads.ids.entries reads.seen.keys };
}

impl ReadSet {
    /// The set of a transaction that has read nothing. Takes no memory.
    pub fn new(alloc: Global) -> ReadSet
        ensures { result ≡ [] }
    {
        ReadSet {
            pairs: Vec::new(alloc),
            ids: BTreeMap::new(alloc),
            seen: BTreeSet::new(alloc),
        }
    }

    /// At which id the key was read, or `None` where it wasn't. Takes no memory.
    pub fn at(&self, key: &Key) -> Option<TxnId>
        ensures value { result ≡ read_at key.now self.now }
        ensures each_once { HasEachKeyOnce self.now }
    {
        self.ids.get(key).copied()
    }

    /// Whether some key was read at an id. Takes no memory.
    pub fn has_read(&self, id: &TxnId) -> bool
        ensures { result ≡ has_read id.now self.now }
    {
        self.seen.contains(id)
    }

    /// The pairs, in order of reading. Takes no memory.
    pub fn pairs(&self) -> &[ReadPair]
        ensures value { result.now ≡ self.now }
        ensures each_once { HasEachKeyOnce result.now }
    {
        self.pairs.as_slice()
    }

    /// Notes that a key was read. `Memory` leaves the set as it was.
    pub fn add(&mut self, key: Key, id: TxnId) -> Result<(), Memory>
        requires { read_at key self.old ≡ None }
        ensures ok { OnOk result (self.new ≡ self.old ++ record { key = key; id = id } ∷ []) }
        ensures err { OnErr result (self.new ≡ self.old) }
    {
        self.pairs.reserve(1)?;
        note(&mut self.ids, &mut self.seen, &key, &id)?;
        self.pairs.push_reserved(ReadPair { key, id });
        Ok(())
    }
}

/// Notes in an index that a key was read. Where memory runs out nothing changes.
fn note(ids: &mut Ids, seen: &mut BTreeSet<TxnId>, key: &Key, id: &TxnId) -> Result<(), Memory>
    requires { id_of key.now ids.old.entries ≡ None }
    ensures keys { OnOk result ((k : List ℕ) → id_of k ids.new.entries ≡ (if bytes_eq k key.now then Some id.now else id_of k ids.old.entries)) }
    ensures ids { OnOk result ((v : Id) → is_seen v seen.new.keys ≡ (is_seen v seen.old.keys || same_id v id.now)) }
    ensures same_keys { OnErr result ((k : List ℕ) → id_of k ids.new.entries ≡ id_of k ids.old.entries) }
    ensures same_ids { OnErr result ((v : Id) → is_seen v seen.new.keys ≡ is_seen v seen.old.keys) }
{
    ids.insert(key.clone()?, *id)?;
    match seen.insert(*id) {
        Ok(_) => Ok(()),
        Err(_) => {
            ids.remove(key);
            Err(Memory)
        }
    }
}
