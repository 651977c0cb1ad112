//! Copies of texts, bytes and pairs.

ghost use Rattle.std.specs.Prelude.{◌≡◌, ◌<◌, ◌++◌, ◌∷◌, [], IfOk, vec_len, vec_capacity};

use crate::keeper::Pair;
use aft_id::{Bytes, List, Text};
use std::alloc::{AllocError, Global};

/// A copy of a text.
pub(crate) fn copy_text(alloc: Global, text: &str) -> Result<Text, AllocError>
    ensures { IfOk result (λ copy. copy ≡ text.now) }
{
    Ok(Text::from_string(String::from_str(alloc, text)?))
}

/// A copy of bytes.
pub(crate) fn copy_bytes(alloc: Global, bytes: &[u8]) -> Result<Bytes, AllocError>
    ensures { IfOk result (λ copy. copy ≡ bytes.now) }
{
    Ok(Bytes::from_vec(Vec::from_slice(alloc, bytes)?))
}

/// A copy of a pair.
pub(crate) fn copy_pair(alloc: Global, pair: &Pair) -> Result<Pair, AllocError>
    ensures { IfOk result (λ copy. copy ≡ pair.now) }
{
    Ok(Pair {
        name: copy_text(alloc, pair.name.as_str())?,
        bytes: copy_bytes(alloc, pair.bytes.as_slice())?,
    })
}

/// A copy of a list of pairs.
pub(crate) fn copy_pairs(alloc: Global, pairs: &[Pair]) -> Result<List<Pair>, AllocError>
    ensures { IfOk result (λ copy. copy ≡ pairs.now) }
{
    let mut copies = Vec::with_capacity(alloc, pairs.len())?;
    for pair in pairs {
        copies.push(copy_pair(alloc, pair)?)?;
    }
    Ok(List::from_vec(copies))
}

/// Adds a value at the end, where there is room for it. Takes no memory.
pub(crate) fn push_within<T: Drop>(items: &mut Vec<T>, item: T)
    requires { vec_len items.old < vec_capacity items.old }
    ensures { items.new.items ≡ items.old.items ++ item ∷ [] }
{
    match items.push(item) {
        Ok(()) => {}
        Err(_) => unreachable!(),
    }
}
