//! What the bytes of a pair read to, under the pair's name.

ghost use Rattle.std.specs.Prelude.{if◌then◌else◌, ◌≡◌, IfOk, IfSome, None, Ok, Result, Some};
ghost use Rattle.aft_model.specs.Readings.{id_of_marker, markers_in, records_in, versions_in, written_in};
ghost use Rattle.std.specs.Str.{bytes_eq};
ghost use Rattle.aft_records.specs.Names.{name_text};
ghost use Rattle.aft_records.specs.Stored.{IsCommit};
ghost use Rattle.aft_records.specs.Gives.{Gives};
ghost use Rattle.aft_records.specs.declared.fault.RecordFault as faults;
ghost use Rattle.aft_audit.specs.Pairs.{Reads, as_list, pair_of};

use aft_id::{Memory, TxnId};
use aft_records::{Commit, Marker, Name, Record, RecordFault, Version};
use std::alloc::Global;
use uuid::Uuid;

/// What was read, `None` where it has no reading.
fn readable<T: Drop>(read: Result<T, RecordFault>) -> Result<Option<T>, Memory>
    ensures { (wanted : Result T faults.RecordFault) → Gives (λ x. x) read wanted → IfOk result (Reads wanted) }
{
    match read {
        Ok(value) => Ok(Some(value)),
        Err(RecordFault::Memory) => Err(Memory),
        Err(_) => Ok(None),
    }
}

/// A value, where a text spells its name.
fn if_spelled<T: Drop>(alloc: Global, text: &str, name: Name, value: T) -> Result<Option<T>, Memory>
    ensures { IfOk result (λ found. found ≡ (if bytes_eq text.now (name_text name) then Some value else None)) }
{
    let own = name.write(alloc)?;
    if *text != *own.as_str() {
        return Ok(None);
    }
    Ok(Some(value))
}

/// The commit whose record bytes are, in either format, where they stand under its name, and else `None`.
pub fn record_in(alloc: Global, name: &str, bytes: &[u8]) -> Result<Option<Commit>, Memory>
    ensures read { IfOk result (λ found. as_list found ≡ records_in (pair_of name.now bytes.now)) }
    ensures limits { IfOk result (λ found. IfSome found IsCommit) }
{
    match readable(Commit::decode(alloc, bytes))? {
        None => Ok(None),
        Some(commit) => {
            let uuid = uuid_of(&commit);
            if_spelled(alloc, name, Name::CommitOf { uuid }, commit)
        }
    }
}

/// The UUID of a commit.
fn uuid_of(commit: &Commit) -> Uuid
    ensures { result ≡ commit.now.id.uuid }
{
    commit.id.uuid
}

/// The marker that bytes are, where they stand under its name.
pub(crate) fn marker_in(alloc: Global, name: &str, bytes: &[u8]) -> Result<Option<Marker>, Memory>
    ensures { IfOk result (λ found. as_list found ≡ markers_in (pair_of name.now bytes.now)) }
{
    match readable(Marker::decode(alloc, bytes))? {
        None => Ok(None),
        Some(marker) => {
            let uuid = id_of(&marker).uuid;
            if_spelled(alloc, name, Name::RetiredOf { uuid }, marker)
        }
    }
}

/// The id of a marker.
fn id_of(marker: &Marker) -> TxnId
    ensures { result ≡ id_of_marker marker.now }
{
    match marker {
        Marker::Full(commit) => commit.id,
        Marker::Done(id) => *id,
    }
}

/// The version that bytes are, where they stand under its name.
pub(crate) fn version_in(alloc: Global, name: &str, bytes: &[u8]) -> Result<Option<Version>, Memory>
    ensures { IfOk result (λ found. as_list found ≡ versions_in (pair_of name.now bytes.now)) }
{
    match readable(Version::decode(alloc, bytes))? {
        None => Ok(None),
        Some(version) => {
            let key = version.key.clone()?;
            let id = version.id;
            if_spelled(alloc, name, Name::VersionOf { key, id }, version)
        }
    }
}

/// The record of the second format that bytes are, where they stand under its name.
pub(crate) fn written_in(alloc: Global, name: &str, bytes: &[u8]) -> Result<Option<Record>, Memory>
    ensures { IfOk result (λ found. as_list found ≡ written_in (pair_of name.now bytes.now)) }
{
    match readable(Record::decode(alloc, bytes))? {
        None => Ok(None),
        Some(whole) => {
            let uuid = uuid_of(&whole.commit);
            if_spelled(alloc, name, Name::CommitOf { uuid }, whole)
        }
    }
}
