//! What an attempt has buffered.

ghost use Rattle.std.specs.Prelude.{◌≡◌, MatchResult, OnErr, OnOk, map, option_copied};
ghost use Rattle.aft_model.specs.Attempts.{buffered, with_write};
ghost use Rattle.aft_txn.specs.Buffer.{Inserts, Replaces, as_write};

use aft_id::Bytes;
use aft_records::Key;
use std::alloc::{AllocError, AllocFailed};
use std::cmp::Ordering;

/// A buffered write.
#[derive(Debug, PartialEq, Eq, Drop)]
pub struct Write {
    pub key: Key,
    pub value: Bytes,
}

impl Clone for Write {
    ghost is_clone = { λ write copy. copy ≡ write };

    fn clone(&self) -> Result<Write, AllocError> {
        Ok(Write {
            key: self.key.clone()?,
            value: self.value.clone()?,
        })
    }
}

/// The value of a key, lent.
pub(crate) fn value_of<'a>(writes: &'a [Write], key: &Key) -> Option<&'a Bytes>
    ensures { option_copied result ≡ buffered key.now (map as_write writes.now) }
{
    for write in writes {
        if *key == write.key {
            return Some(&write.value);
        }
    }
    None
}

/// The place of a key, or else that at which it would stand.
fn place_of(writes: &[Write], key: &Key) -> Result<usize, usize>
    ensures { MatchResult result (λ at. Replaces writes.now key.now at) (λ at. Inserts writes.now key.now at) }
{
    for (at, write) in writes.iter().enumerate() {
        match key.cmp(&write.key) {
            Ordering::Greater => {}
            Ordering::Equal => return Ok(at),
            Ordering::Less => return Err(at),
        }
    }
    Err(writes.len())
}

/// Puts a value under its key, in key order, in place of the one that was there. Where memory is wanting nothing
/// changes.
pub(crate) fn put(writes: &mut Vec<Write>, key: Key, value: Bytes) -> Result<(), AllocFailed<Write>>
    ensures ok { OnOk result (map as_write writes.new.items ≡ with_write (record { key = key; value = value }) (map as_write writes.old.items)) }
    ensures err { OnErr result (writes.new.items ≡ writes.old.items) }
{
    match place_of(writes.as_slice(), &key) {
        Ok(at) => {
            writes[at].value = value;
            Ok(())
        }
        Err(at) => writes.insert(at, Write { key, value }),
    }
}
