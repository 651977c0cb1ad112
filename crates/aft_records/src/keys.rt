//! Write sets.

ghost use Rattle.std.specs.Prelude.{◌≡◌, ◌↔◌, ◌<◌, ◌≤◌, ◌+◌, ◌⊎◌, length, IfOk, IfErr, IsTrue, IsFalse, nat_eq};
ghost use Rattle.std.specs.List.{list_all};
ghost use Rattle.std.specs.Option.{option_copied};
ghost use Rattle.std.specs.Cmp.Lexicographic.{pointwise, nat_list_eq_equiv, lists_equiv};
ghost use Rattle.std.specs.Cmp;
ghost use Rattle.aft_records.specs.Gives.{Gives};
ghost use Rattle.aft_records.specs.Reading.{checked_keys, checked_set};
ghost use Rattle.aft_fields.specs.Order.{follows, ascend};
ghost use Rattle.aft_records.specs.Limits.{is_key, AreKeys};

use crate::fault::RecordFault;
use crate::key::{Key, is_key};
use aft_fields::{FieldFault, Raw};
use aft_id::{Bytes, List};
use std::alloc::{AllocError, Global};
use std::marker::Model;

/// The most keys of a write set.
const MAX_KEYS: usize = 32;

/// The keys that a transaction wrote: 1 to 32, ascending strictly.
#[derive(Debug, Drop)]
pub struct Keys {
    keys: List<Key>,
}

impl Model for Keys {
    ghost use Rattle.std.specs.Prelude as prelude;
    ghost use Rattle.aft_records.specs.Limits.{AreKeys};

    ghost Value = { prelude.List (prelude.List prelude.ℕ) };

    ghost view = { λ set. set.keys };

    ghost invariant = { λ set. AreKeys set.keys };
}

/// Whether a text may follow the one before it, if any: it is greater in byte order.
fn follows(before: Option<&[u8]>, text: &[u8]) -> bool
    ensures { result ≡ follows (option_copied before.entry) text.now }
{
    match before {
        Some(before) => before.cmp(text).is_lt(),
        None => true,
    }
}

/// Whether keys ascend strictly.
fn ascend(keys: &[Key]) -> bool
    ensures value { result ≡ ascend keys.now }
    ensures each { IsTrue result → IsTrue (list_all is_key keys.now) }
{
    let mut before = None;
    for key in keys {
        let bytes = key.bytes();
        if !follows(before, bytes) {
            return false;
        }
        before = Some(bytes);
    }
    true
}

/// Whether texts are keys: `BadKey` with the index of the first that is not.
fn check_keys(texts: &[Raw]) -> Result<(), RecordFault>
    requires { length texts.now ≤ 32 }
    ensures { Gives (λ x. x) result (checked_keys 0 texts.now) }
{
    for (index, text) in texts.iter().enumerate() {
        if !is_key(text.as_slice()) {
            return Err(RecordFault::BadKey {
                index: index as u32,
            });
        }
    }
    Ok(())
}

/// These texts as keys.
fn keys_from(alloc: Global, texts: Vec<Raw>) -> Result<Vec<Key>, AllocError>
    requires { IsTrue (list_all is_key texts.items) }
    ensures { IfOk result (λ keys. keys.items ≡ texts.items) }
{
    let mut keys = Vec::new(alloc);
    for text in texts {
        keys.push(Key::of(Bytes::from_vec(text.into_vec())))?;
    }
    Ok(keys)
}

impl Keys {
    /// The write set of texts that ascend: `BadKeys` where there are none or more than 32, and then
    /// `BadKey` with the index of the first that is no key.
    #[tactic(auto, unfolding(crate::specs::Reading::checked_set))]
    pub(crate) fn of(alloc: Global, texts: Vec<Raw>) -> Result<Keys, RecordFault>
        requires { IsTrue (ascend texts.items) }
        ensures { Gives (λ x. x) result (checked_set texts.items) }
    {
        if texts.is_empty() || texts.len() > MAX_KEYS {
            return Err(RecordFault::BadKeys);
        }
        check_keys(texts.as_slice())?;
        let keys = List::from_vec(keys_from(alloc, texts)?);
        Ok(Keys { keys })
    }

    /// The write set of these keys. `BadKeys` comes exactly where there are none or more than 32, and
    /// otherwise `Unsorted` of field 0 exactly where they do not ascend strictly. Takes no memory.
    pub fn new(keys: List<Key>) -> Result<Keys, RecordFault>
        ensures ok { IfOk result (λ set. (set ≡ keys) × AreKeys keys) }
        ensures count { (result ≡ Err RecordFault.BadKeys) ↔ ((length keys ≡ 0) ⊎ (32 < length keys)) }
        ensures unsorted { (result ≡ Err (RecordFault.Field (FieldFault.Unsorted 0))) ↔ ((1 ≤ length keys) × (length keys ≤ 32) × IsFalse (ascend keys)) }
        ensures other { IfErr result (λ e. (e ≡ RecordFault.BadKeys) ⊎ (e ≡ RecordFault.Field (FieldFault.Unsorted 0))) }
    {
        let list = keys.as_slice();
        if list.is_empty() || list.len() > MAX_KEYS {
            return Err(RecordFault::BadKeys);
        }
        if !ascend(list) {
            return Err(RecordFault::Field(FieldFault::Unsorted { field: 0 }));
        }
        Ok(Keys { keys })
    }

    /// The keys in ascending order, lent. Takes no memory.
    pub fn list(&self) -> &[Key]
        ensures value { result.now ≡ self.now }
        ensures limits { AreKeys result.now }
    {
        self.keys.as_slice()
    }
}

impl Clone for Keys {
    ghost is_clone = { λ set copy. copy ≡ set };

    fn clone(&self) -> Result<Keys, AllocError> {
        let keys = self.keys.clone()?;
        Ok(Keys { keys })
    }
}

impl PartialEq for Keys {
    ghost eq = { pointwise (pointwise nat_eq) };

    ghost laws = { Cmp.partial_equiv_from_equiv (lists_equiv nat_list_eq_equiv) };

    fn eq(&self, other: &Keys) -> bool {
        self.list() == other.list()
    }
}

impl Eq for Keys {
    ghost laws = { lists_equiv nat_list_eq_equiv };
}
