//! What the door puts into the store, each by its rule.

ghost use Rattle.std.specs.Prelude.{◌≡◌, ◌≢◌, ◌<◌, ◌≤◌, ◌^◌, ◌||◌, ℕ, IfErr, IfOk, IsErrOf, IsTrue, List, None, length};
ghost use Rattle.aft_keeper.specs.Cause.{HasCause};
ghost use Rattle.aft_keeper.specs.declared.keeper.KeeperCall.TheVariants as calls;
ghost use Rattle.std.specs.List.{list_all};
ghost use Rattle.aft_model.specs.Bytes.{is_uuid};
ghost use Rattle.aft_door.specs.Calls.{Asks, told_done, upgraded};
ghost use Rattle.aft_door.specs.Entries.{who_calls};
ghost use Rattle.aft_door.specs.Refusals.{RefusedOrFailed, if_fenced, if_held_out, if_not_holder, or_then};
ghost use Rattle.aft_model.specs.DoorKnowledge.{is_open, is_untouched, knows_stored, knows_superseded, knows_unused, knows_versions_gone, shows_first_format};
ghost use Rattle.aft_model.specs.Membership.{incarnation, the_office};
ghost use Rattle.aft_model.specs.Readings.{id_of_marker, marker_name, record_name, version_name};
ghost use Rattle.aft_records.specs.Limits.{IsKey, AreKeys, IsTime, is_origin};
ghost use Rattle.aft_records.specs.Names.{name_text};
ghost use Rattle.aft_records.specs.Rows.{marker_row, record_row, version_row};
ghost use Rattle.aft_records.specs.Stored.{AreReads, IsWritableCommit, IsWritableId, IsWritableRecord, IsWritableVersion};

use crate::door::Door;
use crate::fault::DoorFault;
use aft_id::{Bytes, List, Text, TxnId, uuid_bytes};
use aft_keeper::Keeper;
use aft_model::Caller;
use aft_records::{Commit, Key, Marker, Name, Origin, Record, Version};
use std::alloc::Global;
use uuid::Uuid;

impl<K: Keeper> Door<K> {
    /// Puts a version, for the caller's incarnation, which has claimed its UUID and then found neither a record nor a marker of
    /// it.
    ///
    /// `Fenced` comes exactly where the caller's incarnation isn't up, then `NotHolder` exactly where it doesn't hold the UUID,
    /// then `Memory`, and `Failed` exactly where the store failed. After a refusal but `Failed` the door is as before.
    pub fn put_version(&mut self, who: Caller, version: &Version) -> Result<(), DoorFault>
        requires open { IsTrue (is_open self.old.history) }
        requires unused { IsTrue (knows_unused (who_calls who) version.now.id.uuid self.old.history) }
        requires timely { IsTime version.now.id.time }
        requires short { length version.now.value ≤ 4096 }
        ensures refused { RefusedOrFailed (or_then (if_fenced who self.old.history) (if_not_holder who version.now.id.uuid self.old.history)) result }
        ensures asks { Asks self.old who (calls.Put (version_name version.now.key version.now.id) (version_row version.now)) (told_done result) self.new }
        ensures cause { HasCause (IsErrOf result DoorFault.Failed) self.old.faults self.new.faults }
    {
        self.ledger.test_up(who)?;
        self.ledger.test_holder(who, &version.id.uuid)?;
        version_fits(version);
        let name = version_text(self.alloc, &version.key, version.id)?;
        let bytes = version.encode(self.alloc)?;
        self.put(who, name, bytes)
    }

    /// Puts the record of a commit, for the caller's incarnation of a node, which it names as its origin. The caller has claimed
    /// the UUID, then found neither a record nor a marker of it, and then each of its puts of the commit's versions was
    /// acknowledged.
    ///
    /// `Fenced` comes exactly where the caller's incarnation isn't up, then `NotHolder` exactly where it doesn't hold the UUID,
    /// then `Memory`, and `Failed` exactly where the store failed. After a refusal but `Failed` the door is as before.
    pub fn put_record(&mut self, who: Caller, written: &Record) -> Result<(), DoorFault>
        requires open { IsTrue (is_open self.old.history) }
        requires node { who.node ≢ 0 }
        requires own { incarnation written.now.origin.node written.now.origin.inc ≡ who_calls who }
        requires stored { IsTrue (knows_stored (who_calls who) written.now.commit self.old.history) }
        requires timely { IsTime written.now.commit.id.time }
        requires origin { IsTrue (is_origin written.now.origin.node written.now.origin.inc (length written.now.origin.reads)) }
        requires reads { AreReads written.now.origin.reads }
        ensures refused { RefusedOrFailed (or_then (if_fenced who self.old.history) (if_not_holder who written.now.commit.id.uuid self.old.history)) result }
        ensures asks { Asks self.old who (calls.Put (record_name written.now.commit.id.uuid) (record_row written.now)) (told_done result) self.new }
        ensures cause { HasCause (IsErrOf result DoorFault.Failed) self.old.faults self.new.faults }
    {
        self.ledger.test_up(who)?;
        self.ledger.test_holder(who, &written.commit.id.uuid)?;
        record_fits(written);
        let uuid = written.commit.id.uuid;
        let name = record_text(self.alloc, uuid)?;
        let bytes = written.encode(self.alloc)?;
        self.put_under(who, written.commit.id.uuid, name, bytes)
    }

    /// Puts the full marker of a commit, for the office. The commit is committed, and committed commits supersede it.
    ///
    /// `Fenced` comes exactly where the caller isn't up, then `Holdout` exactly where an incarnation of a node that is up has not
    /// given the commit up, with that of the least node, then `Memory`, and `Failed` exactly where the store failed. After a
    /// refusal but `Failed` the door is as before.
    pub fn put_marker(&mut self, who: Caller, commit: &Commit) -> Result<(), DoorFault>
        requires open { IsTrue (is_open self.old.history) }
        requires office { who_calls who ≡ the_office }
        requires superseded { IsTrue (knows_superseded commit.now self.old.history) }
        ensures refused { RefusedOrFailed (or_then (if_fenced who self.old.history) (if_held_out commit.now.id self.old.history)) result }
        ensures asks { Asks self.old who (calls.Put (marker_name commit.now.id.uuid) (marker_row (Marker.Full commit.now))) (told_done result) self.new }
        ensures cause { HasCause (IsErrOf result DoorFault.Failed) self.old.faults self.new.faults }
    {
        self.ledger.law();
        self.ledger.test_up(who)?;
        self.ledger.test_given(&commit.id)?;
        commit_fits(commit);
        let name = marker_text(self.alloc, commit.id.uuid)?;
        let bytes = full_marker(self.alloc, commit)?;
        self.put(who, name, bytes)
    }

    /// Puts the short marker of an id, for the office. Its commit was marked, and then each of its versions deleted and that
    /// acknowledged.
    ///
    /// `Fenced` comes exactly where the caller isn't up, then `Memory`, and `Failed` exactly where the store failed. After a refusal
    /// but `Failed` the door is as before.
    pub fn put_done(&mut self, who: Caller, id: TxnId) -> Result<(), DoorFault>
        requires open { IsTrue (is_open self.old.history) }
        requires office { who_calls who ≡ the_office }
        requires gone { IsTrue (knows_versions_gone id self.old.history) }
        ensures refused { RefusedOrFailed (if_fenced who self.old.history) result }
        ensures asks { Asks self.old who (calls.Put (marker_name id.uuid) (marker_row (Marker.Done id))) (told_done result) self.new }
        ensures cause { HasCause (IsErrOf result DoorFault.Failed) self.old.faults self.new.faults }
    {
        self.ledger.law();
        self.ledger.test_up(who)?;
        id_fits(&id);
        let name = marker_text(self.alloc, id.uuid)?;
        let bytes = short_marker(self.alloc, id)?;
        self.put(who, name, bytes)
    }

    /// Puts the record of a commit in the second format, for the office, in place of one of the first format that was shown.
    /// Nobody but the office has come up, and nothing was deleted.
    ///
    /// `Failed` comes exactly where the store failed, and besides it only `Memory`, behind which the door is as before.
    pub fn put_upgrade(&mut self, who: Caller, commit: &Commit) -> Result<(), DoorFault>
        requires office { who_calls who ≡ the_office }
        requires old { IsTrue (shows_first_format commit.now self.old.history) }
        requires untouched { IsTrue (is_untouched self.old.history) }
        ensures refused { RefusedOrFailed None result }
        ensures asks { Asks self.old who (calls.Put (record_name commit.now.id.uuid) (record_row (upgraded commit.now))) (told_done result) self.new }
        ensures cause { HasCause (IsErrOf result DoorFault.Failed) self.old.faults self.new.faults }
    {
        self.ledger.law();
        commit_fits(commit);
        let name = record_text(self.alloc, commit.id.uuid)?;
        let bytes = upgraded_record(self.alloc, commit)?;
        self.put_under(who, commit.id.uuid, name, bytes)
    }
}

/// The full marker of a commit, as stored.
fn full_marker(alloc: Global, commit: &Commit) -> Result<Bytes, DoorFault>
    ensures ok { IfOk result (λ bytes. bytes ≡ marker_row (Marker.Full commit.now)) }
    ensures err { IfErr result (λ fault. fault ≡ DoorFault.Memory) }
{
    let marker = Marker::Full(commit.clone()?);
    Ok(marker.encode(alloc)?)
}

/// The short marker of an id, as stored.
fn short_marker(alloc: Global, id: TxnId) -> Result<Bytes, DoorFault>
    ensures ok { IfOk result (λ bytes. bytes ≡ marker_row (Marker.Done id)) }
    ensures err { IfErr result (λ fault. fault ≡ DoorFault.Memory) }
{
    let marker = Marker::Done(id);
    Ok(marker.encode(alloc)?)
}

/// The record of the second format that the office puts for a commit, as stored.
fn upgraded_record(alloc: Global, commit: &Commit) -> Result<Bytes, DoorFault>
    ensures ok { IfOk result (λ bytes. bytes ≡ record_row (upgraded commit.now)) }
    ensures err { IfErr result (λ fault. fault ≡ DoorFault.Memory) }
{
    let commit = commit.clone()?;
    let reads = List::from_vec(Vec::new(alloc));
    let origin = Origin {
        node: 0,
        inc: 0,
        reads,
    };
    let written = Record { commit, origin };
    Ok(written.encode(alloc)?)
}

/// The name of a version.
pub(crate) fn version_text(alloc: Global, key: &Key, id: TxnId) -> Result<Text, DoorFault>
    ensures ok { IfOk result (λ text. text ≡ version_name key.now id) }
    ensures err { IfErr result (λ fault. fault ≡ DoorFault.Memory) }
{
    let key = key.clone()?;
    let name = Name::VersionOf { key, id };
    Ok(name.write(alloc)?)
}

/// The name of the record of a UUID.
pub(crate) fn record_text(alloc: Global, uuid: Uuid) -> Result<Text, DoorFault>
    ensures ok { IfOk result (λ text. text ≡ record_name uuid) }
    ensures err { IfErr result (λ fault. fault ≡ DoorFault.Memory) }
{
    let name = Name::CommitOf { uuid };
    Ok(name.write(alloc)?)
}

/// The name of the marker of a UUID.
pub(crate) fn marker_text(alloc: Global, uuid: Uuid) -> Result<Text, DoorFault>
    ensures ok { IfOk result (λ text. text ≡ marker_name uuid) }
    ensures err { IfErr result (λ fault. fault ≡ DoorFault.Memory) }
{
    let name = Name::RetiredOf { uuid };
    Ok(name.write(alloc)?)
}

/// What the type of an id tells a proof of it.
pub(crate) fn id_fits(id: &TxnId)
    ensures { IsWritableId id.now }
{
    let _time = id.time;
    uuid_bytes(&id.uuid);
}

/// What the type of a commit tells a proof of it.
fn commit_fits(commit: &Commit)
    ensures { IsWritableCommit commit.now }
{
    id_fits(&commit.id);
    commit.keys.list();
}

/// What the type of a version tells a proof of it.
fn version_fits(version: &Version)
    requires { length version.now.value ≤ 4096 }
    ensures { IsWritableVersion version.now }
{
    id_fits(&version.id);
    version.key.bytes();
}

/// What the type of a record tells a proof of it.
fn record_fits(written: &Record)
    requires origin { IsTrue (is_origin written.now.origin.node written.now.origin.inc (length written.now.origin.reads)) }
    requires reads { AreReads written.now.origin.reads }
    ensures { IsWritableRecord written.now }
{
    commit_fits(&written.commit);
    reads_fit(written.origin.reads.as_slice());
}

/// What the type of ids tells a proof of their UUIDs.
fn reads_fit(reads: &[TxnId])
    ensures { IsTrue (list_all (λ id. is_uuid id.uuid) reads.now) }
{
    for id in reads {
        uuid_fits(&id.uuid);
    }
}

/// A UUID is sixteen bytes.
fn uuid_fits(uuid: &Uuid)
    ensures { IsTrue (is_uuid uuid.now) }
{
    uuid_bytes(uuid);
}
