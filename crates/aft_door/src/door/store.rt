//! The ways to ask the store: each call has its entry, with the store's answer.

ghost use Rattle.std.specs.Prelude.{◌≡◌, ◌≢◌, ℕ, [], IfErr, IfOk, IsErrOf, IsTrue, List, None, Some, false};
ghost use Rattle.std.specs.Str.{bytes_eq};
ghost use Rattle.aft_keeper.specs.Cause.{HasCause};
ghost use Rattle.aft_door.specs.Calls.{Asks, Shows, may_ask, told_done, told_found, told_page};
ghost use Rattle.aft_door.specs.Entries.{who_calls};
ghost use Rattle.aft_door.specs.Refusals.{RefusedOrFailed, if_fenced};
ghost use Rattle.aft_model.specs.DoorKnowledge.{is_open};
ghost use Rattle.aft_model.specs.DoorRules.{may_call};
ghost use Rattle.aft_model.specs.Membership.{is_up};
ghost use Rattle.aft_model.specs.Readings.{marker_name, record_name};
ghost use Rattle.aft_records.specs.Names.{name_text};

use crate::door::Door;
use crate::door::told::{done_told, found_told, page_told};
use crate::fault::DoorFault;
use aft_id::{Bytes, List, Text};
use aft_keeper::{Keeper, KeeperCall, Pair};
use aft_model::Caller;
use aft_records::Name;
use std::alloc::Global;
use uuid::Uuid;

impl<K: Keeper> Door<K> {
    /// The bytes under a name, or `None` where there are none.
    ///
    /// `Fenced` comes exactly where the caller's incarnation isn't up, then `Memory`, and `Failed` exactly where the store failed.
    /// Memory may run out behind what was found too: then the call has its entry, and its answer isn't told. After any other
    /// refusal but `Failed` the door is as before.
    pub fn get(&mut self, who: Caller, name: &Name) -> Result<Option<Bytes>, DoorFault>
        requires { IsTrue (may_ask who (KeeperCall.Get (name_text name.now)) self.old.history) }
        ensures refused { RefusedOrFailed (if_fenced who self.old.history) result }
        ensures shows { Shows told_found self.old who (KeeperCall.Get (name_text name.now)) result self.new }
        ensures cause { HasCause (IsErrOf result DoorFault.Failed) self.old.faults self.new.faults }
    {
        self.ledger.test_up(who)?;
        let name = name.write(self.alloc)?;
        self.ledger.make_room()?;
        let (answer, told) = found_told(self.keeper.get(name.as_str()))?;
        self.ledger.add_get(who, name, answer);
        told
    }

    /// The first pairs, at most `limit`, whose names begin with `prefix` and are greater than `after`, ascending by name.
    ///
    /// `Fenced` comes exactly where the caller's incarnation isn't up, then `Memory`, and `Failed` exactly where the store failed.
    /// Memory may run out behind what was listed too: then the call has its entry, and its answer isn't told. After any other
    /// refusal but `Failed` the door is as before.
    pub fn scan(
        &mut self,
        who: Caller,
        prefix: &str,
        after: &str,
        limit: u32,
    ) -> Result<List<Pair>, DoorFault>
        requires { IsTrue (may_ask who (KeeperCall.Scan prefix.now after.now limit) self.old.history) }
        ensures refused { RefusedOrFailed (if_fenced who self.old.history) result }
        ensures shows { Shows told_page self.old who (KeeperCall.Scan prefix.now after.now limit) result self.new }
        ensures cause { HasCause (IsErrOf result DoorFault.Failed) self.old.faults self.new.faults }
    {
        self.ledger.test_up(who)?;
        let scanned = text_of(self.alloc, prefix)?;
        let from = text_of(self.alloc, after)?;
        self.ledger.make_room()?;
        let page = self.keeper.scan(prefix, after, limit);
        let (answer, told) = page_told(self.alloc, page)?;
        self.ledger.add_scan(who, scanned, from, limit, answer);
        told
    }

    /// Puts what is no record, by its rule.
    pub(crate) fn put(&mut self, who: Caller, name: Text, bytes: Bytes) -> Result<(), DoorFault>
        requires named { name ≢ [] }
        requires open { IsTrue (is_open self.old.history) }
        requires up { IsTrue (is_up (who_calls who) self.old.history) }
        requires may { IsTrue (may_call self.old.history (who_calls who) (KeeperCall.Put name bytes)) }
        requires no_record { (uuid : List ℕ) → bytes_eq (record_name uuid) name ≡ false }
        ensures refused { RefusedOrFailed None result }
        ensures asks { Asks self.old who (KeeperCall.Put name bytes) (told_done result) self.new }
        ensures cause { HasCause (IsErrOf result DoorFault.Failed) self.old.faults self.new.faults }
    {
        self.ledger.make_room()?;
        let (answer, told) = done_told(self.keeper.put(name.as_str(), bytes.as_slice()))?;
        self.ledger.add_put(who, name, bytes, answer);
        told
    }

    /// Puts a record of a UUID, by its rule.
    pub(crate) fn put_under(
        &mut self,
        who: Caller,
        uuid: Uuid,
        name: Text,
        bytes: Bytes,
    ) -> Result<(), DoorFault>
        requires named { name ≢ [] }
        requires open { IsTrue (is_open self.old.history) }
        requires up { IsTrue (is_up (who_calls who) self.old.history) }
        requires may { IsTrue (may_call self.old.history (who_calls who) (KeeperCall.Put name bytes)) }
        requires name { name ≡ record_name uuid }
        ensures refused { RefusedOrFailed None result }
        ensures asks { Asks self.old who (KeeperCall.Put name bytes) (told_done result) self.new }
        ensures cause { HasCause (IsErrOf result DoorFault.Failed) self.old.faults self.new.faults }
    {
        self.ledger.make_room()?;
        let (answer, told) = done_told(self.keeper.put(name.as_str(), bytes.as_slice()))?;
        self.ledger.add_record(who, uuid, name, bytes, answer);
        told
    }

    /// Deletes what is no marker, by its rule.
    pub(crate) fn delete(&mut self, who: Caller, name: Text) -> Result<(), DoorFault>
        requires open { IsTrue (is_open self.old.history) }
        requires up { IsTrue (is_up (who_calls who) self.old.history) }
        requires may { IsTrue (may_call self.old.history (who_calls who) (KeeperCall.Delete name)) }
        requires no_marker { (uuid : List ℕ) → bytes_eq (marker_name uuid) name ≡ false }
        ensures refused { RefusedOrFailed None result }
        ensures asks { Asks self.old who (KeeperCall.Delete name) (told_done result) self.new }
        ensures cause { HasCause (IsErrOf result DoorFault.Failed) self.old.faults self.new.faults }
    {
        self.ledger.make_room()?;
        let (answer, told) = done_told(self.keeper.delete(name.as_str()))?;
        self.ledger.add_delete(who, name, answer);
        told
    }

    /// Deletes the marker of a UUID, by its rule.
    pub(crate) fn delete_under(
        &mut self,
        who: Caller,
        uuid: Uuid,
        name: Text,
    ) -> Result<(), DoorFault>
        requires open { IsTrue (is_open self.old.history) }
        requires up { IsTrue (is_up (who_calls who) self.old.history) }
        requires may { IsTrue (may_call self.old.history (who_calls who) (KeeperCall.Delete name)) }
        requires name { name ≡ marker_name uuid }
        ensures refused { RefusedOrFailed None result }
        ensures asks { Asks self.old who (KeeperCall.Delete name) (told_done result) self.new }
        ensures cause { HasCause (IsErrOf result DoorFault.Failed) self.old.faults self.new.faults }
    {
        self.ledger.make_room()?;
        let (answer, told) = done_told(self.keeper.delete(name.as_str()))?;
        self.ledger.add_forget(who, uuid, name, answer);
        told
    }
}

/// A copy of a text.
fn text_of(alloc: Global, text: &str) -> Result<Text, DoorFault>
    ensures ok { IfOk result (λ copy. copy ≡ text.now) }
    ensures err { IfErr result (λ fault. fault ≡ DoorFault.Memory) }
{
    Ok(Text::from_string(String::from_str(alloc, text)?))
}
