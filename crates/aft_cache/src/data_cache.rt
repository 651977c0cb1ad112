//! A cache of values.

ghost use Rattle.std.specs.Prelude.{◌≡◌, ◌≤◌, [], IfOk, OnOk, OnErr, option_copied};
ghost use Rattle.std.specs.Borrow.{sem};
ghost use Rattle.aft_records.specs.Kept.{kept_value, with_front};
ghost use Rattle.aft_cache.specs.Values.{with_used};

use crate::spot::Spot;
use aft_id::{Bytes, Memory, TxnId};
use aft_records::Key;
use lru::LruCache;
use std::alloc::Global;
use std::marker::Model;
use std::num::NonZeroUsize;

/// Values of versions, as many as its capacity at most. Contracts see the capacity, and the values in the order of
/// their last use, the last used in front.
#[derive(Drop)]
pub struct DataCache {
    values: LruCache<Spot, Bytes>,
}

impl Model for DataCache {
    ghost use Rattle.std.specs.Prelude.{map};
    ghost use Rattle.aft_cache.specs.Values.{Values, kept_at};

    ghost Value = { Values };

    ghost view = { λ cache. record { capacity = cache.values.cap; kept = map kept_at cache.values.entries } };
}

impl DataCache {
    ghost use Rattle.aft_cache.specs.Lends.{ends_used};

    /// An empty cache for 1 to 4,096 values.
    pub fn new(alloc: Global, capacity: u32) -> Result<DataCache, Memory>
        requires least { 1 ≤ capacity }
        requires most { capacity ≤ 4096 }
        ensures { IfOk result (λ cache. cache ≡ record { capacity = capacity; kept = [] }) }
    {
        let capacity = NonZeroUsize::new(capacity as usize).unwrap();
        Ok(DataCache {
            values: LruCache::new(alloc, capacity)?,
        })
    }

    /// The value that is kept under a key and id, lent. It comes to the front. Takes no memory.
    pub fn look(&mut self, at: &Spot) -> Option<&Bytes>
        ensures* used { sem 𝓛 (ends_used self.entry at.now) }
        ensures value { option_copied result ≡ kept_value at.now.key at.now.id self.old.kept }
    {
        // The call tells the proof that no spot is there twice.
        let _held = self.values.len();
        self.values.get(at)
    }

    /// The value that is kept under a key and id, lent. The order stays. Takes no memory.
    pub fn peek(&self, at: &Spot) -> Option<&Bytes>
        ensures { option_copied result ≡ kept_value at.now.key at.now.id self.now.kept }
    {
        self.values.peek(at)
    }

    /// Puts a value in front, in place of the one of its key and id. Where there was none and the cache was full,
    /// the last one goes. `Memory` leaves the cache as it was.
    pub fn keep(&mut self, key: Key, id: TxnId, value: Bytes) -> Result<(), Memory>
        ensures ok { OnOk result (self.new ≡ record self.old { kept = with_front self.old.capacity (record { key = key; id = id; value = value }) self.old.kept }) }
        ensures err { OnErr result (self.new ≡ self.old) }
    {
        // The call tells the proof that no spot is there twice.
        let _held = self.values.len();
        self.values.put(Spot { key, id }, value)?;
        Ok(())
    }

    /// Drops all values. Takes no memory.
    pub fn clear(&mut self)
        ensures { self.new ≡ record self.old { kept = [] } }
    {
        self.values.clear();
    }
}
