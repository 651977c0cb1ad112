//! The first pair that offends.

ghost use Rattle.std.specs.Prelude.{◌≡◌, ◌&&◌, IfOk, None, Some, filter, is_none, map, not};
ghost use Rattle.std.specs.List.{flat_map, fold, list_any};
ghost use Rattle.aft_records.specs.Commits.{has_uuid, same_commit};
ghost use Rattle.aft_keeper.specs.Contents.{Ascends};
ghost use Rattle.aft_model.specs.Sound.{first_offender, is_sound, lesser, marker_offends, missing_versions, pair_offends, recorded};
ghost use Rattle.aft_audit.specs.Newest.{IsNewestOf};

use crate::newest::{Newest, newest_of, supersedes};
use crate::pairs::{has_version, record_of};
use crate::reading::{marker_in, record_in};
use aft_id::{List, Memory, Text, TxnId};
use aft_keeper::Pair;
use aft_records::{Commit, Marker, Name};
use std::alloc::Global;
use uuid::Uuid;

/// The name of the first pair that offends, in byte order, of pairs in order of their names: `None` exactly where the pairs are
/// sound. A record or a marker offends that has no reading under its name; so does a full marker whose commit differs from the record of
/// its UUID or isn't superseded by the records, a short one whose UUID has a record, and each version of a record that is absent or
/// has no reading under its name.
pub fn offender(alloc: Global, pairs: &List<Pair>) -> Result<Option<Text>, Memory>
    requires { Ascends pairs.now }
    ensures first { IfOk result (λ name. name ≡ first_offender pairs.now) }
    ensures sound { IfOk result (λ name. is_none name ≡ is_sound pairs.now) }
{
    let pairs = pairs.as_slice();
    let newest = newest_of(alloc, pairs)?;
    let least = least_pair(alloc, pairs, &newest)?;
    least_version(alloc, pairs, least)
}

/// The least name of the pairs that offend beside the records, but for versions.
fn least_pair(alloc: Global, pairs: &[Pair], newest: &Newest) -> Result<Option<Text>, Memory>
    requires order { Ascends pairs.now }
    requires newest { IsNewestOf (recorded pairs.now) newest.now.entries }
    ensures { IfOk result (λ least. least ≡ fold lesser None (map (λ pair. pair.name) (filter (pair_offends (recorded pairs.now)) pairs.now))) }
{
    let mut least = None;
    for pair in pairs {
        if offends(alloc, pairs, newest, pair)? {
            let name = pair.name.clone()?;
            least = Some(lesser(least, name));
        }
    }
    Ok(least)
}

/// The lesser of two names, if there are two.
fn lesser(least: Option<Text>, name: Text) -> Text
    ensures { Some result ≡ lesser least name }
{
    match least {
        Some(least) if name.as_str() >= least.as_str() => least,
        _ => name,
    }
}

/// Whether a pair offends beside the records of pairs.
fn offends(alloc: Global, pairs: &[Pair], newest: &Newest, pair: &Pair) -> Result<bool, Memory>
    requires order { Ascends pairs.now }
    requires newest { IsNewestOf (recorded pairs.now) newest.now.entries }
    ensures { IfOk result (λ offends. offends ≡ pair_offends (recorded pairs.now) pair.now) }
{
    let name = pair.name.as_str();
    let bytes = pair.bytes.as_slice();
    if name.starts_with("c/") {
        return Ok(record_in(alloc, name, bytes)?.is_none());
    }
    if name.starts_with("r/") {
        return match marker_in(alloc, name, bytes)? {
            Some(marker) => contradicts(alloc, pairs, newest, &marker),
            None => Ok(true),
        };
    }
    Ok(false)
}

/// Whether a marker offends beside the records of pairs.
fn contradicts(
    alloc: Global,
    pairs: &[Pair],
    newest: &Newest,
    marker: &Marker,
) -> Result<bool, Memory>
    requires order { Ascends pairs.now }
    requires newest { IsNewestOf (recorded pairs.now) newest.now.entries }
    ensures { IfOk result (λ offends. offends ≡ marker_offends (recorded pairs.now) marker.now) }
{
    match marker {
        Marker::Full(commit) => {
            Ok(differs(alloc, pairs, commit)? || !supersedes(newest, commit))
        }
        Marker::Done(id) => has_record(alloc, pairs, uuid_of(id)),
    }
}

/// Whether the record of a commit's UUID, among pairs, is of another commit.
fn differs(alloc: Global, pairs: &[Pair], commit: &Commit) -> Result<bool, Memory>
    requires { Ascends pairs.now }
    ensures { IfOk result (λ differs. differs ≡ list_any (λ other. has_uuid commit.now.id.uuid other && not (same_commit commit.now other)) (recorded pairs.now)) }
{
    match record_of(alloc, pairs, uuid_of(&commit.id))? {
        Some(other) => Ok(!is_same(commit, &other)),
        None => Ok(false),
    }
}

/// Whether two commits are the same.
fn is_same(commit: &Commit, other: &Commit) -> bool
    ensures { result ≡ same_commit commit.now other.now }
{
    *commit == *other
}

/// Whether a UUID has a record among pairs.
fn has_record(alloc: Global, pairs: &[Pair], uuid: Uuid) -> Result<bool, Memory>
    requires { Ascends pairs.now }
    ensures { IfOk result (λ there. there ≡ list_any (has_uuid uuid) (recorded pairs.now)) }
{
    Ok(record_of(alloc, pairs, uuid)?.is_some())
}

/// The UUID of an id.
fn uuid_of(id: &TxnId) -> Uuid
    ensures { result ≡ id.now.uuid }
{
    id.uuid
}

/// The least name so far, and of the versions of the records of pairs that are missing.
fn least_version(alloc: Global, pairs: &[Pair], least: Option<Text>) -> Result<Option<Text>, Memory>
    requires { Ascends pairs.now }
    ensures { IfOk result (λ all. all ≡ fold lesser least (flat_map (missing_versions pairs.now) (recorded pairs.now))) }
{
    let mut least = least;
    for pair in pairs {
        if let Some(commit) = record_in(alloc, pair.name.as_str(), pair.bytes.as_slice())? {
            least = least_missing(alloc, pairs, &commit, least)?;
        }
    }
    Ok(least)
}

/// The least name so far, and of the versions of a commit that are missing.
fn least_missing(
    alloc: Global,
    pairs: &[Pair],
    commit: &Commit,
    least: Option<Text>,
) -> Result<Option<Text>, Memory>
    requires { Ascends pairs.now }
    ensures { IfOk result (λ all. all ≡ fold lesser least (missing_versions pairs.now commit.now)) }
{
    let mut least = least;
    let keys = commit.keys.list();
    for key in keys {
        let name = Name::VersionOf {
            key: key.clone()?,
            id: commit.id,
        }
        .write(alloc)?;
        if !has_version(alloc, pairs, name.as_str(), key, &commit.id)? {
            least = Some(lesser(least, name));
        }
    }
    Ok(least)
}
