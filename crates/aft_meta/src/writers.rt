//! Who wrote each key.

ghost use Rattle.std.specs.Prelude.{◌≡◌, ◌&&◌, ◌||◌, ℕ, List, None, not, filter, IsTrue, IsFalse, OnOk, OnErr};
ghost use Rattle.std.specs.List.{list_any};
ghost use Rattle.std.specs.BTreeMap.{get};
ghost use Rattle.std.specs.Cmp.Lexicographic.{slice_cmp};
ghost use Rattle.std.specs.Ordering.{nat_cmp};
ghost use Rattle.std.specs.Str.{bytes_eq};
ghost use Rattle.aft_id.specs.TxnId.{id_lt, same_id};
ghost use Rattle.aft_id.specs.declared.txn_id.TxnId.{TxnId};
ghost use Rattle.aft_records.specs.Commits.{greatest};
ghost use Rattle.aft_meta.specs.Index.{exceeds, ids_under, overtaken_by, stands_under};

use crate::ids::Ids;
use aft_id::{Memory, TxnId};
use aft_records::Key;
use std::alloc::Global;
use std::collections::BTreeMap;

/// The ids of known commits by the key that they wrote.
pub(crate) type Writers = BTreeMap<Key, Ids>;

/// The greatest id under a key.
pub(crate) fn newest(writers: &Writers, key: &Key) -> Option<TxnId>
    ensures { result ≡ greatest (ids_under key.now writers.now.entries) }
{
    match writers.get(key) {
        Some(ids) => ids.last(),
        None => None,
    }
}

/// The greatest id under a key that is below another one.
pub(crate) fn newest_below(writers: &Writers, key: &Key, id: &TxnId) -> Option<TxnId>
    ensures { result ≡ greatest (filter (λ version. id_lt version id.now) (ids_under key.now writers.now.entries)) }
{
    match writers.get(key) {
        Some(ids) => ids.below(id),
        None => None,
    }
}

/// Whether a key has a known writer above an id.
pub(crate) fn is_exceeded(writers: &Writers, key: &Key, id: &TxnId) -> bool
    ensures { result ≡ exceeds id.now (greatest (ids_under key.now writers.now.entries)) }
{
    match newest(writers, key) {
        Some(greatest) => id.is_before(&greatest),
        None => false,
    }
}

/// The id under a key that came before this one, where this one is the greatest.
pub(crate) fn overtaken(writers: &Writers, key: &Key, id: &TxnId) -> Option<TxnId>
    ensures { result ≡ overtaken_by id.now (ids_under key.now writers.now.entries) }
{
    match newest(writers, key) {
        Some(greatest) if *id == greatest => newest_below(writers, key, id),
        _ => None,
    }
}

/// Puts an id under some keys. Where memory runs out nothing changes.
pub(crate) fn add_under(
    writers: &mut Writers,
    alloc: Global,
    keys: &[Key],
    id: &TxnId,
) -> Result<(), Memory>
    requires { (k : List ℕ) (v : TxnId) → IsTrue (same_id v id.now) → IsFalse (stands_under k v writers.old.entries) }
    ensures ok { OnOk result ((k : List ℕ) (v : TxnId) → stands_under k v writers.new.entries ≡ (stands_under k v writers.old.entries || (list_any (bytes_eq k) keys.now && same_id v id.now))) }
    ensures err { OnErr result ((k : List ℕ) (v : TxnId) → stands_under k v writers.new.entries ≡ stands_under k v writers.old.entries) }
{
    match add_each(writers, alloc, keys, id) {
        Ok(()) => Ok(()),
        Err(Memory) => {
            take_under(writers, keys, id);
            Err(Memory)
        }
    }
}

/// Puts an id under some keys, as far as memory lasts.
fn add_each(writers: &mut Writers, alloc: Global, keys: &[Key], id: &TxnId) -> Result<(), Memory>
    ensures ok { OnOk result ((k : List ℕ) (v : TxnId) → stands_under k v writers.new.entries ≡ (stands_under k v writers.old.entries || (list_any (bytes_eq k) keys.now && same_id v id.now))) }
    ensures err { OnErr result ((k : List ℕ) (v : TxnId) → (stands_under k v writers.new.entries || (list_any (bytes_eq k) keys.now && same_id v id.now)) ≡ (stands_under k v writers.old.entries || (list_any (bytes_eq k) keys.now && same_id v id.now))) }
{
    for key in keys {
        if let Err(Memory) = add(writers, alloc, key, id) {
            return Err(Memory);
        }
    }
    Ok(())
}

/// Takes an id away from under some keys.
pub(crate) fn take_under(writers: &mut Writers, keys: &[Key], id: &TxnId)
    ensures { (k : List ℕ) (v : TxnId) → stands_under k v writers.new.entries ≡ (stands_under k v writers.old.entries && not (list_any (bytes_eq k) keys.now && same_id v id.now)) }
{
    for key in keys {
        take(writers, key, id);
    }
}

/// Puts an id under a key. Where memory runs out no id changes its place.
fn add(writers: &mut Writers, alloc: Global, key: &Key, id: &TxnId) -> Result<(), Memory>
    ensures ok { OnOk result ((k : List ℕ) (v : TxnId) → stands_under k v writers.new.entries ≡ (stands_under k v writers.old.entries || (bytes_eq k key.now && same_id v id.now))) }
    ensures err { OnErr result ((k : List ℕ) (v : TxnId) → stands_under k v writers.new.entries ≡ stands_under k v writers.old.entries) }
{
    match writers.get_mut(key) {
        Some(ids) => match ids.add(id) {
            Ok(()) => Ok(()),
            Err(Memory) => Err(Memory),
        },
        None => add_first(writers, alloc, key, id),
    }
}

/// Puts an id under a key that has none. Where memory runs out nothing changes.
fn add_first(writers: &mut Writers, alloc: Global, key: &Key, id: &TxnId) -> Result<(), Memory>
    requires { get (slice_cmp nat_cmp) writers.old key.now ≡ None }
    ensures ok { OnOk result ((k : List ℕ) (v : TxnId) → stands_under k v writers.new.entries ≡ (stands_under k v writers.old.entries || (bytes_eq k key.now && same_id v id.now))) }
    ensures err { OnErr result (writers.new.entries ≡ writers.old.entries) }
{
    let mut ids = Ids::new(alloc);
    ids.add(id)?;
    writers.insert(key.clone()?, ids)?;
    Ok(())
}

/// Takes an id away from under a key.
fn take(writers: &mut Writers, key: &Key, id: &TxnId)
    ensures { (k : List ℕ) (v : TxnId) → stands_under k v writers.new.entries ≡ (stands_under k v writers.old.entries && not (bytes_eq k key.now && same_id v id.now)) }
{
    if let Some(ids) = writers.get_mut(key) {
        ids.take(id);
        if ids.is_empty() {
            writers.remove(key);
        }
    }
}
