//! What the door answers of its history. These calls take no memory, add no entry, and read no entry either.

ghost use Rattle.std.specs.Prelude.{◌≡◌, length, option_map};
ghost use Rattle.aft_door.specs.Entries.{numbers};
ghost use Rattle.aft_model.specs.Claims.{claim_place, forgotten, holder};
ghost use Rattle.aft_model.specs.Cut.{put_since};
ghost use Rattle.aft_model.specs.Membership.{next_inc, up_now};

use crate::door::Door;
use aft_keeper::Keeper;
use uuid::Uuid;

impl<K: Keeper> Door<K> {
    /// How many entries the history has.
    pub fn len(&self) -> u64
        ensures { result ≡ length self.now.history }
    {
        self.ledger.len()
    }

    /// The node and the incarnation that hold a UUID, if any do.
    pub fn holder(&self, uuid: Uuid) -> Option<(u32, u32)>
        ensures { result ≡ option_map numbers (holder uuid self.now.history) }
    {
        self.ledger.holder(&uuid)
    }

    /// The incarnation of a node that is up, if one is. The office is node 0, and always up in incarnation 1.
    pub fn up_now(&self, node: u32) -> Option<u32>
        ensures { result ≡ up_now node self.now.history }
    {
        self.ledger.up_now(node)
    }

    /// The place in the history, counted from 0, of the claim by which a UUID is held, if anybody holds it.
    pub fn claim_place(&self, uuid: Uuid) -> Option<u64>
        ensures { result ≡ claim_place uuid self.now.history }
    {
        self.ledger.claim_place(&uuid)
    }

    /// The incarnation that a node may come up as: one more than the greatest that was fenced, 1 where none was, and at most
    /// 2^32 - 1.
    pub fn next_inc(&self, node: u32) -> u32
        ensures { result ≡ next_inc node self.now.history }
    {
        self.ledger.next_inc(node)
    }

    /// Whether a record of a UUID was put behind a place of the history, whatever was answered.
    pub fn put_since(&self, uuid: Uuid, place: u64) -> bool
        ensures { result ≡ put_since uuid place self.now.history }
    {
        self.ledger.put_since(&uuid, place)
    }

    /// Whether a UUID is forgotten: its marker was deleted, or that was tried.
    pub fn forgotten(&self, uuid: Uuid) -> bool
        ensures { result ≡ forgotten uuid self.now.history }
    {
        self.ledger.is_forgotten(&uuid)
    }
}
