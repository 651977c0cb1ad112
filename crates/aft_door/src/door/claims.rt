//! Who is up, who holds which UUID, and what was given up: the calls of the door that make no call of the store.

ghost use Rattle.std.specs.Prelude.{◌≡◌, ◌≢◌, ◌||◌, ℕ, None, Some, IfNone, IfSome, IsFalse, IsTrue, OnErr, OnOk};
ghost use Rattle.aft_door.specs.Calls.{with_entry};
ghost use Rattle.aft_door.specs.Entries.{came_up, claimed, door_opened, gave_up, released, was_fenced, who_calls};
ghost use Rattle.aft_door.specs.Refusals.{RefusedBy, RefusedOnlyBy, if_busy, if_fenced, if_forgotten, if_not_holder, if_past, or_then};
ghost use Rattle.aft_model.specs.Claims.{holds};
ghost use Rattle.aft_model.specs.DoorKnowledge.{is_open};
ghost use Rattle.aft_model.specs.Membership.{up_now};
ghost use Rattle.aft_model.specs.Opening.{may_open};

use crate::door::Door;
use crate::fault::DoorFault;
use aft_id::TxnId;
use aft_keeper::Keeper;
use aft_model::{By, Caller};
use uuid::Uuid;

impl<K: Keeper> Door<K> {
    /// Ends the opening. The caller has read all records, all markers and each version of each record, and found them sound.
    /// After `Memory`, which alone refuses it, the door is as before.
    pub fn opened(&mut self, by: By) -> Result<(), DoorFault>
        requires closed { IsFalse (is_open self.old.history) }
        requires sound { IsTrue (may_open self.old.history (door_opened by)) }
        ensures refused { RefusedBy None result }
        ensures ok { OnOk result (self.new ≡ with_entry self.old (door_opened by)) }
        ensures err { OnErr result (self.new ≡ self.old) }
    {
        self.ledger.make_room()?;
        self.ledger.add_opened(by);
        Ok(())
    }

    /// Lets an incarnation of a node come up, of which no other one is up. One that is up already stays so, which is `Ok`,
    /// takes no memory and makes no entry.
    ///
    /// `Fenced` comes exactly where an incarnation of this number or a greater one of the node was fenced, and then
    /// `Memory`. After a refusal the door is as before.
    pub fn up(&mut self, node: u32, inc: u32, by: By) -> Result<(), DoorFault>
        requires open { IsTrue (is_open self.old.history) }
        requires alone { IfSome (up_now node self.old.history) (λ other. other ≡ inc) }
        ensures refused { RefusedBy (if_past node inc self.old.history) result }
        ensures again { up_now node self.old.history ≡ Some inc → (result ≡ Ok tt) × (self.new ≡ self.old) }
        ensures ok { OnOk result (up_now node self.old.history ≡ None → self.new ≡ with_entry self.old (came_up by node inc)) }
        ensures err { OnErr result (self.new ≡ self.old) }
    {
        self.ledger.law();
        if self.ledger.up_now(node).is_some() {
            return Ok(());
        }
        self.ledger.test_new(node, inc)?;
        self.ledger.make_room()?;
        self.ledger.add_up(by, node, inc);
        Ok(())
    }

    /// Shuts the incarnation of a node that is up out, for good, and gives it. `None` comes exactly where none is up, and
    /// makes no entry. The office is never shut out. Takes no memory.
    pub fn fence(&mut self, node: u32, by: By) -> Option<u32>
        requires { node ≢ 0 }
        ensures value { result ≡ up_now node self.old.history }
        ensures some { IfSome result (λ inc. self.new ≡ with_entry self.old (was_fenced by node inc)) }
        ensures none { IfNone result (self.new ≡ self.old) }
    {
        let inc = self.ledger.up_now(node)?;
        self.ledger.add_fence(by, node, inc);
        Some(inc)
    }

    /// Gives the caller's incarnation, which doesn't hold the UUID, the claim of it.
    ///
    /// `Fenced` comes exactly where the caller's incarnation isn't up, then `Busy` exactly where another one holds the UUID,
    /// with that one, then `Forgotten` exactly where the UUID is forgotten, and then `Memory`. After a refusal the door is
    /// as before.
    pub fn claim(&mut self, who: Caller, uuid: Uuid) -> Result<(), DoorFault>
        requires open { IsTrue (is_open self.old.history) }
        requires not_held { IsFalse (holds (who_calls who) uuid self.old.history) }
        ensures refused { RefusedBy (or_then (if_fenced who self.old.history) (or_then (if_busy uuid self.old.history) (if_forgotten uuid self.old.history))) result }
        ensures ok { OnOk result (self.new ≡ with_entry self.old (claimed who uuid)) }
        ensures err { OnErr result (self.new ≡ self.old) }
    {
        self.ledger.test_up(who)?;
        self.ledger.test_free(&uuid)?;
        self.ledger.test_not_forgotten(&uuid)?;
        self.ledger.make_room()?;
        self.ledger.add_claim(who, uuid);
        Ok(())
    }

    /// Lets the caller's claim of a UUID go. Takes no memory.
    ///
    /// `Fenced` comes exactly where the caller's incarnation isn't up, and then `NotHolder` exactly where it doesn't hold the
    /// UUID. After a refusal the door is as before.
    pub fn release(&mut self, who: Caller, uuid: Uuid) -> Result<(), DoorFault>
        ensures refused { RefusedOnlyBy (or_then (if_fenced who self.old.history) (if_not_holder who uuid self.old.history)) result }
        ensures ok { OnOk result (self.new ≡ with_entry self.old (released who uuid)) }
        ensures err { OnErr result (self.new ≡ self.old) }
    {
        self.ledger.test_up(who)?;
        self.ledger.test_holder(who, &uuid)?;
        self.ledger.add_release(who, uuid);
        Ok(())
    }

    /// Notes that the caller's incarnation has given the commit of an id up: it will never read it again.
    ///
    /// `Fenced` comes exactly where the caller's incarnation isn't up, and then `Memory`. After a refusal the door is as
    /// before.
    pub fn give_up(&mut self, who: Caller, id: TxnId) -> Result<(), DoorFault>
        requires open { IsTrue (is_open self.old.history) }
        ensures refused { RefusedBy (if_fenced who self.old.history) result }
        ensures ok { OnOk result (self.new ≡ with_entry self.old (gave_up who id)) }
        ensures err { OnErr result (self.new ≡ self.old) }
    {
        self.ledger.test_up(who)?;
        self.ledger.make_room()?;
        self.ledger.add_give_up(who, id);
        Ok(())
    }
}
