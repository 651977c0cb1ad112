//! What a word stands for: a number, a UUID, a key, a value.

ghost use Rattle.std.specs.Prelude.{◌≡◌, ◌≤◌, IfOk, IfSome, length};
ghost use Rattle.std.specs.Str.{IsAscii};
ghost use Rattle.hex.specs.Hex.{decode_of};
ghost use Rattle.aft_script.specs.Gives.{Gives};
ghost use Rattle.aft_script.specs.Runnable.{IsNode};
ghost use Rattle.aft_script.specs.Values.{client_of, key_of, node_of, not_too_long, number_to, of_digits, uuid_of, value_of};

use crate::fault::{LineFault, Refusal};
use aft_id::{Bytes, parse_uuid};
use aft_records::{Key, RecordFault};
use hex::FromHexError;
use std::alloc::Global;
use uuid::Uuid;

/// The greatest number of a client.
pub(crate) const MAX_CLIENT: u32 = 64;
/// The most bytes of a value.
const MAX_VALUE_BYTES: usize = 4096;

/// A client: 1 to 64.
pub(crate) fn client_of(word: &[u8]) -> Result<u32, LineFault>
    ensures value { result ≡ client_of word.now }
    ensures within { IfOk result (λ client. (1 ≤ client) × (client ≤ 64)) }
{
    number_to(word, MAX_CLIENT).ok_or(LineFault::BadClient)
}

/// A node: 1 to the number of nodes.
pub(crate) fn node_of(nodes: u32, word: &[u8]) -> Result<u32, LineFault>
    ensures value { result ≡ node_of nodes word.now }
    ensures within { IfOk result (IsNode nodes) }
{
    number_to(word, nodes).ok_or(LineFault::BadNode)
}

/// The number of 1 to the given one that a word is the decimal digits of, without sign or leading zero.
pub(crate) fn number_to(word: &[u8], most: u32) -> Option<u32>
    ensures value { result ≡ number_to most word.now }
    ensures within { IfSome result (λ number. (1 ≤ number) × (number ≤ most)) }
{
    if word.is_empty() || word[0] < b'1' {
        return None;
    }
    let Ok(text) = std::str::from_utf8(word) else {
        return None;
    };
    let Ok(number) = text.parse::<u32>() else {
        return None;
    };
    if number <= most { Some(number) } else { None }
}

/// The UUID that a word names, in any form.
pub(crate) fn uuid_of(word: &[u8]) -> Result<Uuid, LineFault>
    requires { IsAscii word.now }
    ensures { result ≡ uuid_of word.now }
{
    match parse_uuid(ascii_text(word)) {
        Ok(uuid) => Ok(uuid),
        Err(_) => Err(LineFault::BadUuid),
    }
}

/// A word as a text.
pub(crate) fn ascii_text(word: &[u8]) -> &str
    requires { IsAscii word.now }
    ensures { result.now ≡ word.now }
{
    match std::str::from_utf8(word) {
        Ok(text) => text,
        Err(_) => unreachable!(),
    }
}

/// A key, taken literally.
pub(crate) fn key_of(alloc: Global, word: &[u8]) -> Result<Key, Refusal>
    ensures { Gives result (key_of word.now) }
{
    match Key::new(alloc, word) {
        Ok(key) => Ok(key),
        Err(RecordFault::Memory) => Err(Refusal::Memory),
        Err(_) => Err(Refusal::Fault(LineFault::BadKey)),
    }
}

/// A value: the bytes of the word, or behind a leading `#` those of its hexadecimal digits.
pub(crate) fn value_of(alloc: Global, word: &[u8]) -> Result<Bytes, Refusal>
    ensures value { Gives result (value_of word.now) }
    ensures short { IfOk result (λ value. length value ≤ 4096) }
{
    match word.strip_prefix(b"#".as_slice()) {
        Some(digits) => not_too_long(decoded(alloc, digits)?),
        None => copied(alloc, word),
    }
}

/// A value, if it isn't too long.
fn not_too_long(value: Bytes) -> Result<Bytes, Refusal>
    ensures value { Gives result (not_too_long value) }
    ensures short { IfOk result (λ bytes. length bytes ≤ 4096) }
{
    if value.as_slice().len() > MAX_VALUE_BYTES {
        return Err(Refusal::Fault(LineFault::LongValue));
    }
    Ok(value)
}

/// The bytes of a word as a value, if it isn't too long.
fn copied(alloc: Global, word: &[u8]) -> Result<Bytes, Refusal>
    ensures value { Gives result (not_too_long word.now) }
    ensures short { IfOk result (λ bytes. length bytes ≤ 4096) }
{
    if word.len() > MAX_VALUE_BYTES {
        return Err(Refusal::Fault(LineFault::LongValue));
    }
    let bytes = Vec::from_slice(alloc, word)?;
    Ok(Bytes::from_vec(bytes))
}

/// The bytes of hexadecimal digits.
fn decoded(alloc: Global, digits: &[u8]) -> Result<Bytes, Refusal>
    ensures { Gives result (of_digits (decode_of digits.now)) }
{
    match hex::decode(alloc, digits) {
        Ok(bytes) => Ok(Bytes::from_vec(bytes)),
        Err(FromHexError::OutOfMemory) => Err(Refusal::Memory),
        Err(_) => Err(Refusal::Fault(LineFault::BadValue)),
    }
}
