//! The greatest id of each key, among commits whose records were shown.

ghost use Rattle.std.specs.Prelude.{◌≡◌, ◌&&◌, ◌||◌, ℕ, IfOk, List, OnOk};
ghost use Rattle.std.specs.List.{list_all, list_any};
ghost use Rattle.std.specs.Str.{bytes_eq};
ghost use Rattle.aft_id.specs.TxnId.{id_lt};
ghost use Rattle.aft_id.specs.declared.txn_id.TxnId as ids;
ghost use Rattle.aft_model.specs.Sound.{recorded};
ghost use Rattle.aft_records.specs.Superseded.{is_superseded, wrote};
ghost use Rattle.aft_audit.specs.Newest.{IsNewestOf, Raises, is_newer};

use crate::reading::record_in;
use aft_id::{Memory, TxnId};
use aft_keeper::Pair;
use aft_records::{Commit, Key};
use std::alloc::Global;
use std::collections::BTreeMap;

/// The greatest id of each key.
pub(crate) type Newest = BTreeMap<Key, TxnId>;

/// The greatest id of each key of the records among pairs.
pub(crate) fn newest_of(alloc: Global, pairs: &[Pair]) -> Result<Newest, Memory>
    ensures { IfOk result (λ newest. IsNewestOf (recorded pairs.now) newest.entries) }
{
    let mut newest = BTreeMap::new(alloc);
    for pair in pairs {
        if let Some(commit) = record_in(alloc, pair.name.as_str(), pair.bytes.as_slice())? {
            raise_each(&mut newest, &commit)?;
        }
    }
    Ok(newest)
}

/// Notes the id of a commit for each of its keys.
fn raise_each(newest: &mut Newest, commit: &Commit) -> Result<(), Memory>
    ensures { OnOk result ((key : List ℕ) (id : ids.TxnId) → is_newer key id newest.new.entries ≡ (is_newer key id newest.old.entries || (wrote key commit.now && id_lt id commit.now.id))) }
{
    let keys = commit.keys.list();
    for key in keys {
        raise(newest, key, commit.id)?;
    }
    Ok(())
}

/// Notes an id of a key.
fn raise(newest: &mut Newest, key: &Key, id: TxnId) -> Result<(), Memory>
    ensures { OnOk result ((k : List ℕ) (v : ids.TxnId) → is_newer k v newest.new.entries ≡ (is_newer k v newest.old.entries || (bytes_eq k key.now && id_lt v id))) }
{
    let greatest = greater(newest.get(key).copied(), id);
    newest.insert(key.clone()?, greatest)?;
    Ok(())
}

/// The greater of an id and what was noted, if something was.
fn greater(noted: Option<TxnId>, id: TxnId) -> TxnId
    ensures { Raises noted id result }
{
    match noted {
        None => id,
        Some(other) => { if id.is_before(&other) { other } else { id } }
    }
}

/// Whether an id above another one is noted of a key.
fn is_newer(newest: &Newest, key: &Key, id: &TxnId) -> bool
    ensures { result ≡ is_newer key.now id.now newest.now.entries }
{
    match newest.get(key) {
        Some(other) => id.is_before(other),
        None => false,
    }
}

/// Whether ids above a commit's own are noted for each of its keys.
pub(crate) fn supersedes(newest: &Newest, commit: &Commit) -> bool
    ensures { result ≡ list_all (λ key. is_newer key commit.now.id newest.now.entries) commit.now.keys }
{
    let keys = commit.keys.list();
    for key in keys {
        if !is_newer(newest, key, &commit.id) {
            return false;
        }
    }
    true
}
