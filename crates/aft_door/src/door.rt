//! The door.

ghost use Rattle.std.specs.Prelude.{◌≡◌, IfSome, IsTrue, []};
ghost use Rattle.aft_door.specs.Calls.{ContentsAlong, logged_along};
ghost use Rattle.aft_keeper.specs.Contents.{IsContents};
ghost use Rattle.aft_model.specs.Bytes.{HasBytes};
ghost use Rattle.aft_model.specs.Honest.{Honest};
ghost use Rattle.aft_model.specs.LegalDoor.{Legal};
ghost use Rattle.aft_model.specs.Membership.{is_up, the_office};

mod claims;
mod deletes;
mod puts;
mod questions;
mod store;
mod told;

use crate::ledger::Ledger;
use aft_id::List;
use aft_keeper::Keeper;
use aft_model::DoorEntry;
use std::alloc::Global;
use std::marker::Model;
use std::snapshot::Snapshot;

/// The one way to a store: who is up, who holds which UUID, which commits were given up, and the one history of all that was
/// asked of the store.
///
/// Contracts see its history, which is always legal and made of bytes, and what the store tells. The store itself is private.
#[derive(Drop)]
pub struct Door<K: Keeper> {
    keeper: K,
    ledger: Ledger,
    /// The store as it was at first, for contracts alone.
    first: Snapshot<K>,
    alloc: Global,
}

impl<K: Keeper> Model for Door<K> {
    ghost use Rattle.aft_door.specs.Calls.{DoorView, GoesOn};

    ghost Value = { DoorView };

    ghost view = { λ d. record {
      history = d.ledger.history;
      contents = K.contents d.keeper;
      log = K.log d.keeper;
      first_contents = K.contents d.first.value;
      first_log = K.log d.first.value;
      faults = K.faults d.keeper;
    } };

    ghost invariant = { λ d. GoesOn (record {
      history = d.ledger.history;
      contents = K.contents d.keeper;
      log = K.log d.keeper;
      first_contents = K.contents d.first.value;
      first_log = K.log d.first.value;
      faults = K.faults d.keeper;
    }) };
}

impl<K: Keeper> Door<K> {
    /// A door over a store, with nothing asked yet. Takes no memory.
    pub fn new(alloc: Global, keeper: K) -> Door<K>
        ensures history { result.history ≡ [] }
        ensures contents { result.contents ≡ K.contents keeper }
        ensures log { result.log ≡ K.log keeper }
        ensures first_contents { result.first_contents ≡ K.contents keeper }
        ensures first_log { result.first_log ≡ K.log keeper }
        ensures faults { result.faults ≡ K.faults keeper }
    {
        let first = Snapshot::of(&keeper);
        Door {
            keeper,
            ledger: Ledger::new(alloc),
            first,
            alloc,
        }
    }

    /// The store and the history. Takes no memory.
    pub fn close(self) -> (K, List<DoorEntry>)
        ensures history { result.1 ≡ self.history }
        ensures contents { K.contents result.0 ≡ self.contents }
        ensures log { K.log result.0 ≡ self.log }
        ensures faults { K.faults result.0 ≡ self.faults }
        ensures legal { Legal result.1 }
        ensures bytes { HasBytes result.1 }
    {
        let Door {
            keeper,
            ledger,
            first: _,
            alloc: _,
        } = self;
        (keeper, ledger.into_history())
    }

    /// A law: the history of each door is legal and made of bytes, and the office is always up in it.
    pub fn law_legal(door: &Door<K>)
        ensures legal { Legal door.now.history }
        ensures bytes { HasBytes door.now.history }
        ensures office { IsTrue (is_up the_office door.now.history) }
    {
        door.ledger.law();
    }

    /// A law: what the store tells goes along with the history, from what it told when the door was made. Its contents are in order,
    /// and its log has the history's calls behind what stood there. Where it tells its contents, the history is honest.
    pub fn law_goes_along(door: &Door<K>)
        ensures contents { ContentsAlong door.now.first_contents door.now.history door.now.contents }
        ensures in_order { IfSome door.now.contents IsContents }
        ensures log { door.now.log ≡ logged_along door.now.first_log door.now.history }
        ensures honest { IfSome door.now.contents (λ pairs. Honest door.now.history) }
    {
        let _ = &door.keeper;
    }
}
