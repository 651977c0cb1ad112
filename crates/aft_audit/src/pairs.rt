//! Pairs in the order of their names, and what is found among them.

ghost use Rattle.std.specs.Prelude.{◌≡◌, ◌&&◌, Bool, IfNone, IfOk, IfSome, None, option_copied};
ghost use Rattle.std.specs.List.{list_any};
ghost use Rattle.std.specs.Cmp.Lexicographic.{slice_cmp};
ghost use Rattle.std.specs.Ordering.{nat_cmp};
ghost use Rattle.aft_id.specs.TxnId.{IsUuid};
ghost use Rattle.aft_keeper.specs.Contents.{Ascends, bytes_at};
ghost use Rattle.aft_model.specs.Readings.{is_version_at, version_name};
ghost use Rattle.aft_model.specs.Sound.{recorded};
ghost use Rattle.aft_records.specs.Commits.{has_uuid};
ghost use Rattle.aft_records.specs.declared.stored.Commit as stored;
ghost use Rattle.aft_audit.specs.Pairs.{IsNamedAt, pair_of, passes};

use crate::reading::{record_in, version_in};
use aft_id::{Bytes, Memory, TxnId, uuid_bytes};
use aft_keeper::Pair;
use aft_records::{Commit, Key, Name};
use std::alloc::Global;
use std::cmp::Ordering;
use uuid::Uuid;

/// How the name of a pair compares with another one.
fn compare(pair: &Pair, name: &str) -> Ordering
    ensures { result ≡ slice_cmp nat_cmp pair.now.name name.now }
{
    pair.name.as_str().cmp(name)
}

/// The place of a name, among pairs in order.
fn place_of(pairs: &[Pair], name: &str) -> Option<usize>
    requires { Ascends pairs.now }
    ensures found { IfSome result (IsNamedAt name.now pairs.now) }
    ensures none { IfNone result (bytes_at name.now pairs.now ≡ None) }
{
    let mut low = 0;
    let mut high = pairs.len();
    while low < high {
        let middle = low + (high - low) / 2;
        match compare(&pairs[middle], name) {
            Ordering::Equal => return Some(middle),
            Ordering::Less => low = middle + 1,
            Ordering::Greater => high = middle,
        }
    }
    None
}

/// The bytes under a name, among pairs in order.
pub(crate) fn bytes_under<'a>(pairs: &'a [Pair], name: &str) -> Option<&'a Bytes>
    requires { Ascends pairs.now }
    ensures { option_copied result ≡ bytes_at name.now pairs.now }
{
    match place_of(pairs, name) {
        Some(place) => Some(&pairs[place].bytes),
        None => None,
    }
}

/// The commit of a UUID whose record is among pairs in order.
pub(crate) fn record_of(alloc: Global, pairs: &[Pair], uuid: Uuid) -> Result<Option<Commit>, Memory>
    requires { Ascends pairs.now }
    ensures { IfOk result (λ found. (test : stored.Commit → Bool) → list_any (λ c. has_uuid uuid c && test c) (recorded pairs.now) ≡ passes test found) }
{
    uuid_bytes(&uuid);
    let name = Name::CommitOf { uuid }.write(alloc)?;
    match bytes_under(pairs, name.as_str()) {
        Some(bytes) => record_in(alloc, name.as_str(), bytes.as_slice()),
        None => Ok(None),
    }
}

/// Whether a version of a key and id is among pairs in order, under this name of it.
pub(crate) fn has_version(
    alloc: Global,
    pairs: &[Pair],
    name: &str,
    key: &Key,
    id: &TxnId,
) -> Result<bool, Memory>
    requires order { Ascends pairs.now }
    requires name { name.now ≡ version_name key.now id.now }
    ensures { IfOk result (λ there. there ≡ list_any (is_version_at key.now id.now) pairs.now) }
{
    match bytes_under(pairs, name) {
        Some(bytes) => is_version(alloc, name, bytes.as_slice(), key, id),
        None => Ok(false),
    }
}

/// Whether bytes are the version of a key and id, where they stand under its name.
fn is_version(
    alloc: Global,
    name: &str,
    bytes: &[u8],
    key: &Key,
    id: &TxnId,
) -> Result<bool, Memory>
    ensures { IfOk result (λ is. is ≡ is_version_at key.now id.now (pair_of name.now bytes.now)) }
{
    match version_in(alloc, name, bytes)? {
        Some(version) => Ok(*key == version.key && *id == version.id),
        None => Ok(false),
    }
}
