//! What a word of a reply stands for: a number, an id, a key, a value.

ghost use Rattle.std.specs.Prelude.{◌≡◌, ◌<◌, ◌^◌, IfOk, IfSome};
ghost use Rattle.std.specs.List.{list_all};
ghost use Rattle.hex.specs.Hex.{decode_of};
ghost use Rattle.aft_id.specs.TxnId.{IsUuid};
ghost use Rattle.aft_records.specs.Limits.{IsKey};
ghost use Rattle.aft_reply.specs.Gives.{Gives};
ghost use Rattle.aft_reply.specs.Limits.{IsName, IsReplyId, IsValue};
ghost use Rattle.aft_reply.specs.Reading.{count_of, id_of, id_written, key_of, name_of, node_of, of_digits, uuid_of, value_of};

use crate::fault::ReplyFault;
use crate::words::are_graphic;
use aft_id::{Bytes, Text, TxnId, uuid_bytes};
use aft_records::{Key, RecordFault};
use hex::FromHexError;
use std::alloc::Global;
use uuid::Uuid;

/// A UUID, in any of its forms.
pub(crate) fn uuid_of(word: &str) -> Result<Uuid, ReplyFault>
    ensures value { result ≡ uuid_of word.now }
    ensures fits { IfOk result IsUuid }
{
    match Uuid::try_parse(word) {
        Ok(uuid) => {
            // The call tells the proof that `uuid` has the bytes of a UUID.
            uuid_bytes(&uuid);
            Ok(uuid)
        }
        Err(_) => Err(ReplyFault::BadReply),
    }
}

/// An id: `0` for the zero id alone, and else the text of an id with a time of 1 or more.
pub(crate) fn id_of(word: &str) -> Result<TxnId, ReplyFault>
    ensures value { result ≡ id_of word.now }
    ensures fits { IfOk result IsReplyId }
{
    if word == "0" {
        return Ok(TxnId::zero());
    }
    match id_written(word) {
        Some(id) if id.time > 0 => Ok(id),
        _ => Err(ReplyFault::BadReply),
    }
}

/// The id whose text a word is.
fn id_written(word: &str) -> Option<TxnId>
    ensures value { result ≡ id_written word.now }
    ensures uuid { IfSome result (λ id. IsUuid id.uuid) }
    ensures early { IfSome result (λ id. id.time < 2 ^ 48) }
{
    TxnId::read(word).ok()
}

/// A number below 2^64.
pub(crate) fn count_of(word: &str) -> Result<u64, ReplyFault>
    ensures { result ≡ count_of word.now }
{
    match word.parse::<u64>() {
        Ok(count) => Ok(count),
        Err(_) => Err(ReplyFault::BadReply),
    }
}

/// A node or an incarnation.
pub(crate) fn node_of(word: &str) -> Result<u32, ReplyFault>
    ensures { result ≡ node_of word.now }
{
    let number = count_of(word)?;
    match u32::try_from(number) {
        Ok(number) => Ok(number),
        Err(_) => Err(ReplyFault::BadReply),
    }
}

/// A key.
pub(crate) fn key_of(alloc: Global, word: &[u8]) -> Result<Key, ReplyFault>
    ensures value { Gives result (key_of word.now) }
    ensures fits { IfOk result IsKey }
{
    match Key::new(alloc, word) {
        Ok(key) => Ok(key),
        Err(RecordFault::Memory) => Err(ReplyFault::Memory),
        Err(_) => Err(ReplyFault::BadReply),
    }
}

/// The name of something damaged.
pub(crate) fn name_of(alloc: Global, word: &str) -> Result<Text, ReplyFault>
    ensures value { Gives result (name_of word.now) }
    ensures fits { IfOk result IsName }
{
    if word.is_empty() || !are_graphic(word.as_bytes()) {
        return Err(ReplyFault::BadReply);
    }
    let name = String::from_str(alloc, word)?;
    Ok(Text::from_string(name))
}

/// A value: behind a leading `#` the bytes of its hexadecimal digits, and else its own.
pub(crate) fn value_of(alloc: Global, word: &[u8]) -> Result<Bytes, ReplyFault>
    ensures value { Gives result (value_of word.now) }
    ensures fits { IfOk result IsValue }
{
    let value = bytes_of(alloc, word)?;
    fits(value.as_slice());
    Ok(value)
}

/// The bytes of a value.
fn bytes_of(alloc: Global, word: &[u8]) -> Result<Bytes, ReplyFault>
    ensures { Gives result (value_of word.now) }
{
    match word.strip_prefix(b"#".as_slice()) {
        Some(digits) => decoded(alloc, digits),
        None => Ok(Bytes::from_vec(Vec::from_slice(alloc, word)?)),
    }
}

// Each byte of a slice is in its type's range.
fn fits(bytes: &[u8])
    ensures { IsValue bytes.now }
{}

/// The bytes of hexadecimal digits.
fn decoded(alloc: Global, digits: &[u8]) -> Result<Bytes, ReplyFault>
    ensures { Gives result (of_digits (decode_of digits.now)) }
{
    match hex::decode(alloc, digits) {
        Ok(bytes) => Ok(Bytes::from_vec(bytes)),
        Err(FromHexError::OutOfMemory) => Err(ReplyFault::Memory),
        Err(_) => Err(ReplyFault::BadReply),
    }
}
