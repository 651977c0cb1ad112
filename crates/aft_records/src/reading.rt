//! Stored values from bytes.

ghost use Rattle.std.specs.Prelude.{◌≡◌, ◌<◌, ◌≤◌, ◌^◌, length, IfOk, IsTrue, OnOk, Ok};
ghost use Rattle.aft_fields.specs.Order.{ascend};
ghost use Rattle.aft_records.specs.Gives.{Gives};
ghost use Rattle.aft_records.specs.Limits.{is_time, is_origin};
ghost use Rattle.aft_records.specs.Rows.{record_row, version_row, marker_row};
ghost use Rattle.aft_records.specs.Records.{IsRecordOf, IsSpelledRecordOf};
ghost use Rattle.aft_records.specs.Stored.{IsCommit, IsRecord, IsVersion, IsMarker};
ghost use Rattle.aft_records.specs.Reading.{is_tagged, checked_time, checked_origin, checked_reads, checked_commit, commit_in, checked_record, record_in, checked_version, version_in, done_in, first_commit_of, record_of, second_commit_of, commit_of, version_of, full_of, done_of, marker_of};

use crate::cells::Cells;
use crate::fault::RecordFault;
use crate::key::{Key, is_key};
use crate::keys::Keys;
use crate::read_id::ids_from;
use crate::stored::{Commit, Marker, Origin, Record, Version};
use crate::tables::{COMMITS, DONES, FULLS, RECORDS, VERSIONS};
use aft_fields::Raw;
use aft_id::{Bytes, List, TxnId};
use std::alloc::Global;

/// The first time that is past its limit, in milliseconds.
const TIME_END: u64 = 1 << 48;

/// The most bytes of a stored value.
const MAX_VALUE_BYTES: usize = 4096;

/// The greatest number of a node.
const MAX_NODE: u64 = 8;

/// The first number of an incarnation that is past its limit.
const INCARNATION_END: u64 = 1 << 32;

/// The most reads of a record.
const MAX_READS: usize = 8;

/// Whether a time is within its limit.
pub(crate) fn is_time(time: u64) -> bool
    ensures { result ≡ is_time time }
{
    1 <= time && time < TIME_END
}

/// `BadTime` where a time is not within its limit.
fn check_time(time: u64) -> Result<(), RecordFault>
    ensures { Gives (λ x. x) result (checked_time time) }
{
    if !is_time(time) {
        return Err(RecordFault::BadTime);
    }
    Ok(())
}

/// A commit within its limits.
#[tactic(auto, unfolding(crate::specs::Reading::checked_commit))]
fn checked_commit(alloc: Global, id: TxnId, keys: Vec<Raw>) -> Result<Commit, RecordFault>
    requires { IsTrue (ascend keys.items) }
    ensures { Gives (λ x. x) result (checked_commit id keys.items) }
{
    check_time(id.time)?;
    let keys = Keys::of(alloc, keys)?;
    Ok(Commit { id, keys })
}

/// A commit by its cells.
#[tactic(auto, unfolding(crate::specs::Reading::commit_in))]
fn commit_in(alloc: Global, cells: Cells) -> Result<Commit, RecordFault>
    ensures { Gives (λ x. x) result (commit_in cells) }
{
    let (id, cells) = cells.id()?;
    let (keys, _) = cells.texts()?;
    checked_commit(alloc, id, keys)
}

/// Whether a record may come from this node and incarnation with so many reads.
fn is_origin(node: u64, inc: u64, reads: usize) -> bool
    ensures { result ≡ is_origin node inc reads }
{
    let owned = if node == 0 {
        inc == 0 && reads == 0
    } else {
        1 <= inc
    };
    node <= MAX_NODE && inc < INCARNATION_END && owned
}

/// `BadOrigin` where a record may not come from there.
fn check_origin(node: u64, inc: u64, reads: usize) -> Result<(), RecordFault>
    ensures origin { Gives (λ x. x) result (checked_origin node inc reads) }
    ensures node { OnOk result (node ≤ 8) }
    ensures incarnation { OnOk result (inc < 2 ^ 32) }
{
    if !is_origin(node, inc, reads) {
        return Err(RecordFault::BadOrigin);
    }
    Ok(())
}

/// The reads of a record by their texts, `BadReads` where they are none.
fn checked_reads(alloc: Global, texts: &[Raw]) -> Result<Vec<TxnId>, RecordFault>
    ensures { Gives (λ ids. ids.items) result (checked_reads texts.now) }
{
    if texts.len() > MAX_READS {
        return Err(RecordFault::BadReads);
    }
    ids_from(alloc, texts)
}

/// A record within its limits.
#[tactic(auto, unfolding(crate::specs::Reading::checked_record))]
fn checked_record(
    alloc: Global,
    commit: (TxnId, Vec<Raw>),
    node: u64,
    inc: u64,
    reads: &[Raw],
) -> Result<Record, RecordFault>
    requires { IsTrue (ascend commit.1.items) }
    ensures { Gives (λ x. x) result (checked_record commit.0 commit.1.items node inc reads.now) }
{
    let commit = checked_commit(alloc, commit.0, commit.1)?;
    check_origin(node, inc, reads.len())?;
    let reads = List::from_vec(checked_reads(alloc, reads)?);
    let origin = Origin {
        node: node as u32,
        inc: inc as u32,
        reads,
    };
    Ok(Record { commit, origin })
}

/// A record of the second format by its cells.
#[tactic(auto, unfolding(crate::specs::Reading::record_in))]
fn record_in(alloc: Global, cells: Cells) -> Result<Record, RecordFault>
    ensures { Gives (λ x. x) result (record_in cells) }
{
    let (id, cells) = cells.id()?;
    let (keys, cells) = cells.texts()?;
    let (node, cells) = cells.number()?;
    let (inc, cells) = cells.number()?;
    let (reads, _) = cells.texts()?;
    checked_record(alloc, (id, keys), node, inc, reads.as_slice())
}

/// A version within its limits.
#[tactic(auto, unfolding(crate::specs::Reading::checked_version))]
fn checked_version(id: TxnId, key: Raw, value: Raw) -> Result<Version, RecordFault>
    ensures { Gives (λ x. x) result (checked_version id key value) }
{
    check_time(id.time)?;
    if !is_key(key.as_slice()) {
        return Err(RecordFault::BadKey { index: 0 });
    }
    if value.as_slice().len() > MAX_VALUE_BYTES {
        return Err(RecordFault::LongValue);
    }
    let key = Key::of(Bytes::from_vec(key.into_vec()));
    let value = Bytes::from_vec(value.into_vec());
    Ok(Version { id, key, value })
}

/// A version by its cells.
#[tactic(auto, unfolding(crate::specs::Reading::version_in))]
fn version_in(cells: Cells) -> Result<Version, RecordFault>
    ensures { Gives (λ x. x) result (version_in cells) }
{
    let (id, cells) = cells.id()?;
    let (key, cells) = cells.text()?;
    let (value, _) = cells.bytes()?;
    checked_version(id, key, value)
}

/// A short marker by its cells.
#[tactic(auto, unfolding(crate::specs::Reading::done_in))]
fn done_in(cells: Cells) -> Result<Marker, RecordFault>
    ensures { Gives (λ x. x) result (done_in cells) }
{
    let (id, _) = cells.id()?;
    check_time(id.time)?;
    Ok(Marker::Done(id))
}

/// A commit's record of the first format, whole.
#[tactic(auto, unfolding(crate::specs::Reading::first_commit_of))]
fn first_commit_from(alloc: Global, bytes: &[u8]) -> Result<Commit, RecordFault>
    ensures { Gives (λ read. read) result (first_commit_of bytes.now) }
{
    let cells = Cells::of(alloc, &COMMITS, bytes)?;
    commit_in(alloc, cells)
}

/// A record of the second format, whole.
#[tactic(auto, unfolding(crate::specs::Reading::record_of))]
fn record_from(alloc: Global, bytes: &[u8]) -> Result<Record, RecordFault>
    ensures { Gives (λ read. read) result (record_of bytes.now) }
{
    let cells = Cells::of(alloc, &RECORDS, bytes)?;
    record_in(alloc, cells)
}

/// The commit of a record of the second format.
#[tactic(auto, unfolding(crate::specs::Reading::second_commit_of))]
fn second_commit_from(alloc: Global, bytes: &[u8]) -> Result<Commit, RecordFault>
    ensures { Gives (λ read. read) result (second_commit_of bytes.now) }
{
    let whole = record_from(alloc, bytes)?;
    Ok(whole.commit)
}

/// A commit's record, whole, in either format.
#[tactic(auto, unfolding(crate::specs::Reading::commit_of))]
fn commit_from(alloc: Global, bytes: &[u8]) -> Result<Commit, RecordFault>
    ensures { Gives (λ read. read) result (commit_of bytes.now) }
{
    if bytes.starts_with(&RECORDS.tag) {
        return second_commit_from(alloc, bytes);
    }
    first_commit_from(alloc, bytes)
}

/// A version, whole.
#[tactic(auto, unfolding(crate::specs::Reading::version_of))]
fn version_from(alloc: Global, bytes: &[u8]) -> Result<Version, RecordFault>
    ensures { Gives (λ read. read) result (version_of bytes.now) }
{
    let cells = Cells::of(alloc, &VERSIONS, bytes)?;
    version_in(cells)
}

/// A full marker, whole.
#[tactic(auto, unfolding(crate::specs::Reading::full_of))]
fn full_from(alloc: Global, bytes: &[u8]) -> Result<Marker, RecordFault>
    ensures { Gives (λ read. read) result (full_of bytes.now) }
{
    let cells = Cells::of(alloc, &FULLS, bytes)?;
    let commit = commit_in(alloc, cells)?;
    Ok(Marker::Full(commit))
}

/// A short marker, whole.
#[tactic(auto, unfolding(crate::specs::Reading::done_of))]
fn done_from(alloc: Global, bytes: &[u8]) -> Result<Marker, RecordFault>
    ensures { Gives (λ read. read) result (done_of bytes.now) }
{
    let cells = Cells::of(alloc, &DONES, bytes)?;
    done_in(cells)
}

/// A marker, whole.
#[tactic(auto, unfolding(crate::specs::Reading::marker_of))]
fn marker_from(alloc: Global, bytes: &[u8]) -> Result<Marker, RecordFault>
    ensures { Gives (λ read. read) result (marker_of bytes.now) }
{
    if bytes.starts_with(&DONES.tag) {
        return done_from(alloc, bytes);
    }
    full_from(alloc, bytes)
}

impl Commit {
    /// The commit whose record these bytes are, in either format, or the first fault: in the layout from left
    /// to right, and then `BadTime`, `BadKeys` or `BadKey`, and in the second format `BadOrigin` or `BadReads`.
    pub fn decode(alloc: Global, bytes: &[u8]) -> Result<Commit, RecordFault>
        // What is read keeps the limits, and the bytes are a record of it.
        ensures found { IfOk result (λ commit. IsCommit commit × IsRecordOf bytes.now commit) }
        // Such bytes are one of its spellings.
        ensures spelled { IfOk result (IsSpelledRecordOf bytes.now) }
        // What is spelled so, and within the limits, is read, unless memory runs out.
        ensures only { (commit : Commit) → IsCommit commit → IsSpelledRecordOf bytes.now commit → Gives (λ read. read) result (Ok commit) }
        // Which fault it is.
        ensures exact { Gives (λ read. read) result (commit_of bytes.now) }
    {
        commit_from(alloc, bytes)
    }
}

impl Record {
    /// The record of the second format that these bytes are, or the first fault: in the layout from left to
    /// right, and then `BadTime`, `BadKeys`, `BadKey`, `BadOrigin` or `BadReads`.
    pub fn decode(alloc: Global, bytes: &[u8]) -> Result<Record, RecordFault>
        // What is read is spelled so, and within the limits.
        ensures found { IfOk result (λ whole. IsRecord whole × (bytes.now ≡ record_row whole)) }
        // What is spelled so, and within the limits, is read, unless memory runs out.
        ensures only { (whole : Record) → IsRecord whole → bytes.now ≡ record_row whole → Gives (λ read. read) result (Ok whole) }
        // Which fault it is.
        ensures exact { Gives (λ read. read) result (record_of bytes.now) }
    {
        record_from(alloc, bytes)
    }
}

impl Version {
    /// The version that these bytes are, or the first fault: in the layout from left to right, and then
    /// `BadTime`, `BadKey` with index 0, or `LongValue`.
    pub fn decode(alloc: Global, bytes: &[u8]) -> Result<Version, RecordFault>
        // What is read is spelled so, and within the limits.
        ensures found { IfOk result (λ version. IsVersion version × (bytes.now ≡ version_row version)) }
        // What is spelled so, and within the limits, is read, unless memory runs out.
        ensures only { (version : Version) → IsVersion version → bytes.now ≡ version_row version → Gives (λ read. read) result (Ok version) }
        // Which fault it is.
        ensures exact { Gives (λ read. read) result (version_of bytes.now) }
    {
        version_from(alloc, bytes)
    }
}

impl Marker {
    /// The marker that these bytes are, or the first fault: in the layout from left to right, with `Tag`
    /// where neither tag stands there, and then `BadTime`, `BadKeys` or `BadKey`.
    pub fn decode(alloc: Global, bytes: &[u8]) -> Result<Marker, RecordFault>
        // What is read is spelled so, and within the limits.
        ensures found { IfOk result (λ marker. IsMarker marker × (bytes.now ≡ marker_row marker)) }
        // What is spelled so, and within the limits, is read, unless memory runs out.
        ensures only { (marker : Marker) → IsMarker marker → bytes.now ≡ marker_row marker → Gives (λ read. read) result (Ok marker) }
        // Which fault it is.
        ensures exact { Gives (λ read. read) result (marker_of bytes.now) }
    {
        marker_from(alloc, bytes)
    }
}
