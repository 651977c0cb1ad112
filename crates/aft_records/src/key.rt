//! Keys.

ghost use Rattle.std.specs.Prelude.{◌≡◌, ◌↔◌, ◌⊎◌, IfOk, IfErr, IsTrue};
ghost use Rattle.std.specs.Cmp.{partial_order_from_own_ties};
ghost use Rattle.std.specs.Cmp.Rules.{comparing};
ghost use Rattle.std.proofs.Common.{rules, refl};
ghost use Rattle.std.specs.Cmp.Lexicographic.{pointwise, slice_cmp, nat_list_eq_equiv, nat_list_cmp_total, texts_ties, texts_po};
ghost use Rattle.std.specs.Ordering.{nat_cmp};
ghost use Rattle.std.specs.Prelude.{nat_eq, Some};
ghost use Rattle.std.specs.Cmp;
ghost use Rattle.std.specs.List.{list_all};
ghost use Rattle.aft_records.specs.Limits.{is_key_byte, is_key, IsKey};

use crate::fault::RecordFault;
use aft_id::Bytes;
use std::alloc::{AllocError, Global};
use std::cmp::Ordering;
use std::marker::Model;

/// The most bytes of a key.
const MAX_KEY_BYTES: usize = 64;

/// What a value stands under: 1 to 64 bytes, each 33 to 126. Keys are ordered by their bytes.
#[derive(Debug, Drop)]
pub struct Key {
    bytes: Bytes,
}

impl Model for Key {
    ghost use Rattle.std.specs.Prelude as prelude;
    ghost use Rattle.aft_records.specs.Limits.{IsKey};

    ghost Value = { prelude.List prelude.ℕ };

    ghost view = { λ key. key.bytes };

    ghost invariant = { λ key. IsKey key.bytes };
}

/// Whether each of these bytes may stand in a key.
fn are_key_bytes(bytes: &[u8]) -> bool
    ensures { result ≡ list_all is_key_byte bytes.now }
{
    bytes.iter().all(|b| matches!(b, b'!'..=b'~'))
}

/// Whether these bytes are a key's.
pub(crate) fn is_key(bytes: &[u8]) -> bool
    ensures { result ≡ is_key bytes.now }
{
    !bytes.is_empty() && bytes.len() <= MAX_KEY_BYTES && are_key_bytes(bytes)
}

impl Key {
    /// The key of these bytes. `BadKey` with index 0 comes exactly where they are not 1 to 64 bytes of
    /// 33 to 126.
    pub fn new(alloc: Global, bytes: &[u8]) -> Result<Key, RecordFault>
        ensures ok { IfOk result (λ key. (key ≡ bytes.now) × IsKey bytes.now) }
        ensures refused { (result ≡ Err (RecordFault.BadKey 0)) ↔ ¬ (IsKey bytes.now) }
        ensures other { IfErr result (λ e. (e ≡ RecordFault.BadKey 0) ⊎ ((e ≡ RecordFault.Memory) × IsKey bytes.now)) }
    {
        if !is_key(bytes) {
            return Err(RecordFault::BadKey { index: 0 });
        }
        let bytes = Bytes::from_vec(Vec::from_slice(alloc, bytes)?);
        Ok(Key { bytes })
    }

    /// The key of bytes that are a key's.
    pub(crate) fn of(bytes: Bytes) -> Key
        requires { IsTrue (is_key bytes) }
        ensures { result ≡ bytes }
    {
        Key { bytes }
    }

    /// The bytes, lent. Takes no memory.
    pub fn bytes(&self) -> &[u8]
        ensures value { result.now ≡ self.now }
        ensures limits { IsKey result.now }
    {
        self.bytes.as_slice()
    }
}

impl Clone for Key {
    ghost is_clone = { λ key copy. copy ≡ key };

    fn clone(&self) -> Result<Key, AllocError> {
        let bytes = self.bytes.clone()?;
        Ok(Key { bytes })
    }
}

impl PartialEq for Key {
    ghost eq = { pointwise nat_eq };

    ghost laws = { Cmp.partial_equiv_from_equiv nat_list_eq_equiv };

    fn eq(&self, other: &Key) -> bool {
        self.bytes() == other.bytes()
    }
}

impl Eq for Key {
    ghost laws = { nat_list_eq_equiv };
}

impl PartialOrd for Key {
    ghost partial_cmp = { λ x y. Some (slice_cmp nat_cmp x y) };

    ghost laws = { texts_po };

    fn partial_cmp(&self, other: &Key) -> Option<Ordering> {
        Some(self.cmp(other))
    }
}

impl Ord for Key {
    ghost cmp = { slice_cmp nat_cmp };

    ghost total = { nat_list_cmp_total };

    ghost matches_partial_cmp = { λ x y. refl };

    ghost matches_eq = { texts_ties };

    fn cmp(&self, other: &Key) -> Ordering {
        self.bytes().cmp(other.bytes())
    }
}
