//! Stored values as bytes.

ghost use Rattle.std.specs.Prelude.{◌≡◌, ◌<◌, ◌≤◌, ◌^◌, ◌++◌, length, map, OnOk, IfOk, IsTrue};
ghost use Rattle.aft_fields.specs.declared.table.Cell.TheVariants.{U64, U128, Texts};
ghost use Rattle.aft_fields.specs.Spelling.{cell_bytes};
ghost use Rattle.aft_id.specs.TxnId.{IsUuid, uuid_number};
ghost use Rattle.aft_records.specs.Limits.{IsTime, AreKeys, is_origin};
ghost use Rattle.aft_records.specs.Names.{id_digits};
ghost use Rattle.aft_records.specs.Records.{IsRecordOf};
ghost use Rattle.aft_records.specs.Rows.{commit_row, record_row, version_row, marker_row};
ghost use Rattle.aft_records.specs.Stored.{AreReads};

use crate::keys::Keys;
use crate::read_id::id_text;
use crate::stored::{Commit, Marker, Origin, Record, Version};
use crate::tables::{COMMITS, DONES, FULLS, RECORDS, VERSIONS};
use aft_fields::Writer;
use aft_id::{Bytes, Memory, TxnId, uuid_bytes};
use std::alloc::{AllocError, Global};

/// Writes the cells of an id.
fn put_id(out: &mut Writer, id: &TxnId) -> Result<(), AllocError>
    ensures { OnOk result (out.new ≡ out.old ++ cell_bytes (U64 id.now.time) ++ cell_bytes (U128 (uuid_number id.now.uuid))) }
{
    out.put_u64(id.time)?;
    out.put_u128(id.uuid.as_u128())
}

/// Writes keys as one cell.
fn put_keys(out: &mut Writer, keys: &Keys) -> Result<(), AllocError>
    ensures { OnOk result (out.new ≡ out.old ++ cell_bytes (Texts keys.now)) }
{
    let keys = keys.list();
    out.put_count(keys.len() as u32)?;
    for key in keys {
        out.put_bytes(key.bytes())?;
    }
    Ok(())
}

/// Writes the cells of a commit.
fn put_commit(out: &mut Writer, commit: &Commit) -> Result<(), AllocError>
    ensures { OnOk result (out.new ≡ out.old ++ cell_bytes (U64 commit.now.id.time) ++ cell_bytes (U128 (uuid_number commit.now.id.uuid)) ++ cell_bytes (Texts commit.now.keys)) }
{
    put_id(out, &commit.id)?;
    put_keys(out, &commit.keys)
}

/// Writes reads as one cell.
fn put_reads(out: &mut Writer, alloc: Global, reads: &[TxnId]) -> Result<(), AllocError>
    requires { length reads.now ≤ 8 }
    ensures { OnOk result (out.new ≡ out.old ++ cell_bytes (Texts (map id_digits reads.now))) }
{
    out.put_count(reads.len() as u32)?;
    for id in reads {
        let text = id_text(alloc, id)?;
        out.put_bytes(text.as_bytes())?;
    }
    Ok(())
}

/// What the type of a commit tells a proof of it.
fn limits(commit: &Commit)
    ensures time { commit.now.id.time < 2 ^ 64 }
    ensures uuid { IsUuid commit.now.id.uuid }
    ensures keys { AreKeys commit.now.keys }
{
    let _time = commit.id.time;
    uuid_bytes(&commit.id.uuid);
    commit.keys.list();
}

/// What was written.
fn finished(out: Writer) -> Bytes
    ensures { result ≡ out }
{
    Bytes::from_vec(out.into_raw().into_vec())
}

/// Writes the cells of an origin.
fn put_origin(out: &mut Writer, alloc: Global, origin: &Origin) -> Result<(), AllocError>
    requires { length origin.now.reads ≤ 8 }
    ensures { OnOk result (out.new ≡ out.old ++ cell_bytes (U64 origin.now.node) ++ cell_bytes (U64 origin.now.inc) ++ cell_bytes (Texts (map id_digits origin.now.reads))) }
{
    out.put_u64(origin.node as u64)?;
    out.put_u64(origin.inc as u64)?;
    put_reads(out, alloc, origin.reads.as_slice())
}

/// A commit in the first format.
fn commit_bytes(alloc: Global, commit: &Commit) -> Result<Bytes, Memory>
    ensures { IfOk result (λ bytes. bytes ≡ commit_row commit.now) }
{
    let mut out = Writer::new(alloc, &COMMITS.tag)?;
    put_commit(&mut out, commit)?;
    Ok(finished(out))
}

impl Commit {
    /// The record of the commit in the first format, as stored.
    pub fn encode(&self, alloc: Global) -> Result<Bytes, Memory>
        ensures spelling { IfOk result (λ bytes. bytes ≡ commit_row self.now) }
        ensures is_record { IfOk result (λ bytes. IsTime self.now.id.time → IsRecordOf bytes self.now) }
    {
        limits(self);
        commit_bytes(alloc, self)
    }
}

impl Record {
    /// The record in the second format, as stored.
    pub fn encode(&self, alloc: Global) -> Result<Bytes, Memory>
        requires origin { IsTrue (is_origin self.now.origin.node self.now.origin.inc (length self.now.origin.reads)) }
        requires reads { AreReads self.now.origin.reads }
        ensures { IfOk result (λ bytes. bytes ≡ record_row self.now) }
    {
        let mut out = Writer::new(alloc, &RECORDS.tag)?;
        put_commit(&mut out, &self.commit)?;
        put_origin(&mut out, alloc, &self.origin)?;
        Ok(finished(out))
    }
}

impl Version {
    /// The version, as stored.
    pub fn encode(&self, alloc: Global) -> Result<Bytes, Memory>
        requires { length self.now.value ≤ 4096 }
        ensures { IfOk result (λ bytes. bytes ≡ version_row self.now) }
    {
        let mut out = Writer::new(alloc, &VERSIONS.tag)?;
        put_id(&mut out, &self.id)?;
        out.put_bytes(self.key.bytes())?;
        out.put_bytes(self.value.as_slice())?;
        Ok(finished(out))
    }
}

impl Marker {
    /// The marker, as stored.
    pub fn encode(&self, alloc: Global) -> Result<Bytes, Memory>
        ensures { IfOk result (λ bytes. bytes ≡ marker_row self.now) }
    {
        match self {
            Marker::Full(commit) => {
                let mut out = Writer::new(alloc, &FULLS.tag)?;
                put_commit(&mut out, commit)?;
                Ok(finished(out))
            }
            Marker::Done(id) => {
                let mut out = Writer::new(alloc, &DONES.tag)?;
                put_id(&mut out, id)?;
                Ok(finished(out))
            }
        }
    }
}
