//! What the door deletes from the store, each by its rule.

ghost use Rattle.std.specs.Prelude.{◌≡◌, IsErrOf, IsTrue, None};
ghost use Rattle.aft_keeper.specs.Cause.{HasCause};
ghost use Rattle.aft_keeper.specs.declared.keeper.KeeperCall.TheVariants as calls;
ghost use Rattle.aft_door.specs.Calls.{Asks, told_done};
ghost use Rattle.aft_door.specs.Entries.{who_calls};
ghost use Rattle.aft_door.specs.Refusals.{RefusedOrFailed, if_fenced, if_not_by_claim, if_not_holder, or_then};
ghost use Rattle.aft_model.specs.DoorKnowledge.{is_open, knows_marked, knows_orphan, knows_record_gone, knows_short_of};
ghost use Rattle.aft_model.specs.Membership.{the_office};
ghost use Rattle.aft_model.specs.Readings.{marker_name, record_name, version_name};
ghost use Rattle.aft_records.specs.Limits.{IsTime};

use crate::door::Door;
use crate::door::puts::{id_fits, marker_text, record_text, version_text};
use crate::fault::DoorFault;
use aft_id::{TxnId, uuid_bytes};
use aft_keeper::Keeper;
use aft_model::Caller;
use aft_records::Key;
use uuid::Uuid;

impl<K: Keeper> Door<K> {
    /// Deletes the record of a UUID, for the office. A commit of the UUID is marked.
    ///
    /// `Fenced` comes exactly where the caller isn't up, then `Memory`, and `Failed` exactly where the store failed. After a refusal
    /// but `Failed` the door is as before.
    pub fn delete_record(&mut self, who: Caller, uuid: Uuid) -> Result<(), DoorFault>
        requires open { IsTrue (is_open self.old.history) }
        requires office { who_calls who ≡ the_office }
        requires marked { IsTrue (knows_marked uuid self.old.history) }
        ensures refused { RefusedOrFailed (if_fenced who self.old.history) result }
        ensures asks { Asks self.old who (calls.Delete (record_name uuid)) (told_done result) self.new }
        ensures cause { HasCause (IsErrOf result DoorFault.Failed) self.old.faults self.new.faults }
    {
        self.ledger.test_up(who)?;
        uuid_bytes(&uuid);
        let name = record_text(self.alloc, uuid)?;
        self.delete(who, name)
    }

    /// Deletes a version, for the office. A commit of its id is marked, and then its record was deleted, and that acknowledged, or
    /// shown absent.
    ///
    /// `Fenced` comes exactly where the caller isn't up, then `Memory`, and `Failed` exactly where the store failed. After a refusal
    /// but `Failed` the door is as before.
    pub fn delete_version(&mut self, who: Caller, key: &Key, id: TxnId) -> Result<(), DoorFault>
        requires open { IsTrue (is_open self.old.history) }
        requires office { who_calls who ≡ the_office }
        requires gone { IsTrue (knows_record_gone id self.old.history) }
        ensures refused { RefusedOrFailed (if_fenced who self.old.history) result }
        ensures asks { Asks self.old who (calls.Delete (version_name key.now id)) (told_done result) self.new }
        ensures cause { HasCause (IsErrOf result DoorFault.Failed) self.old.faults self.new.faults }
    {
        self.ledger.law();
        self.ledger.test_up(who)?;
        id_fits(&id);
        key.bytes();
        let name = version_text(self.alloc, key, id)?;
        self.delete(who, name)
    }

    /// Deletes a version of an id that nobody has, for the office. Behind the place of its claim of the UUID it has found no record
    /// of the id, and then no marker.
    ///
    /// `NotHolder` comes exactly where the caller doesn't hold the UUID by the claim of this place, then `Memory`, and `Failed`
    /// exactly where the store failed. After a refusal but `Failed` the door is as before.
    pub fn delete_orphan(
        &mut self,
        who: Caller,
        key: &Key,
        id: TxnId,
        claimed: u64,
    ) -> Result<(), DoorFault>
        requires open { IsTrue (is_open self.old.history) }
        requires office { who_calls who ≡ the_office }
        requires orphan { IsTrue (knows_orphan id claimed self.old.history) }
        requires timely { IsTime id.time }
        ensures refused { RefusedOrFailed (if_not_by_claim who id.uuid claimed self.old.history) result }
        ensures asks { Asks self.old who (calls.Delete (version_name key.now id)) (told_done result) self.new }
        ensures cause { HasCause (IsErrOf result DoorFault.Failed) self.old.faults self.new.faults }
    {
        self.ledger.test_claim(who, &id.uuid, claimed)?;
        id_fits(&id);
        key.bytes();
        let name = version_text(self.alloc, key, id)?;
        self.delete(who, name)
    }

    /// Deletes the short marker of an id, for the caller's incarnation, which has claimed its UUID and then found it. The UUID is
    /// forgotten once the store was asked, whatever it answers.
    ///
    /// `Fenced` comes exactly where the caller's incarnation isn't up, then `NotHolder` exactly where it doesn't hold the UUID,
    /// then `Memory`, and `Failed` exactly where the store failed. After a refusal but `Failed` the door is as before.
    pub fn forget(&mut self, who: Caller, id: TxnId) -> Result<(), DoorFault>
        requires open { IsTrue (is_open self.old.history) }
        requires short { IsTrue (knows_short_of (who_calls who) id self.old.history) }
        ensures refused { RefusedOrFailed (or_then (if_fenced who self.old.history) (if_not_holder who id.uuid self.old.history)) result }
        ensures asks { Asks self.old who (calls.Delete (marker_name id.uuid)) (told_done result) self.new }
        ensures cause { HasCause (IsErrOf result DoorFault.Failed) self.old.faults self.new.faults }
    {
        self.ledger.test_up(who)?;
        self.ledger.test_holder(who, &id.uuid)?;
        uuid_bytes(&id.uuid);
        let name = marker_text(self.alloc, id.uuid)?;
        self.delete_under(who, id.uuid, name)
    }
}
