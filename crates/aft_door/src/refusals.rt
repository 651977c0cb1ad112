//! The tests that refuse a call, by the door's history.

ghost use Rattle.std.specs.Prelude.{◌≡◌};
ghost use Rattle.aft_door.specs.Refusals.{as_result, if_busy, if_fenced, if_forgotten, if_held_out, if_not_by_claim, if_not_holder, if_past};

use crate::fault::DoorFault;
use crate::ledger::Ledger;
use aft_id::TxnId;
use aft_model::Caller;
use uuid::Uuid;

/// What the door tests in a caller's turn. None takes memory.
impl Ledger {
    /// The caller's incarnation is up.
    pub(crate) fn test_up(&self, who: Caller) -> Result<(), DoorFault>
        ensures { result ≡ as_result (if_fenced who self.now.history) }
    {
        if self.is_up(who.node, who.inc) {
            Ok(())
        } else {
            Err(DoorFault::Fenced {
                node: who.node,
                inc: who.inc,
            })
        }
    }

    /// Nobody holds the UUID.
    pub(crate) fn test_free(&self, uuid: &Uuid) -> Result<(), DoorFault>
        ensures { result ≡ as_result (if_busy uuid.now self.now.history) }
    {
        match self.holder(uuid) {
            None => Ok(()),
            Some((node, inc)) => Err(DoorFault::Busy { node, inc }),
        }
    }

    /// The UUID isn't forgotten.
    pub(crate) fn test_not_forgotten(&self, uuid: &Uuid) -> Result<(), DoorFault>
        ensures { result ≡ as_result (if_forgotten uuid.now self.now.history) }
    {
        if self.is_forgotten(uuid) {
            Err(DoorFault::Forgotten)
        } else {
            Ok(())
        }
    }

    /// The caller's incarnation holds the UUID.
    pub(crate) fn test_holder(&self, who: Caller, uuid: &Uuid) -> Result<(), DoorFault>
        ensures { result ≡ as_result (if_not_holder who uuid.now self.now.history) }
    {
        if self.holder(uuid) == Some((who.node, who.inc)) {
            Ok(())
        } else {
            Err(DoorFault::NotHolder)
        }
    }

    /// No incarnation of this number or a greater one of the node was fenced.
    pub(crate) fn test_new(&self, node: u32, inc: u32) -> Result<(), DoorFault>
        ensures { result ≡ as_result (if_past node inc self.now.history) }
    {
        if self.was_fenced(node, inc) {
            Err(DoorFault::Fenced { node, inc })
        } else {
            Ok(())
        }
    }

    /// Each incarnation of a node that is up has given the id up. It is asked of each node that is up.
    pub(crate) fn test_given(&self, id: &TxnId) -> Result<(), DoorFault>
        ensures { result ≡ as_result (if_held_out id.now self.now.history) }
    {
        match self.holdout(id) {
            None => Ok(()),
            Some((node, inc)) => Err(DoorFault::Holdout { node, inc }),
        }
    }

    /// The caller's incarnation holds the UUID, by the claim of this place.
    pub(crate) fn test_claim(&self, who: Caller, uuid: &Uuid, place: u64) -> Result<(), DoorFault>
        ensures { result ≡ as_result (if_not_by_claim who uuid.now place self.now.history) }
    {
        if self.claim_place(uuid) == Some(place) {
            self.test_holder(who, uuid)
        } else {
            Err(DoorFault::NotHolder)
        }
    }
}
