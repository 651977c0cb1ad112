//! The words of replies: UUIDs, ids and values.

ghost use Rattle.std.specs.Prelude.{◌≡◌, ◌++◌, IfOk, IsTrue, codes};
ghost use Rattle.std.specs.String.{string_bytes};
ghost use Rattle.std.specs.List.{list_all};
ghost use Rattle.hex.specs.Hex.{encode_lower};
ghost use Rattle.aft_records.specs.Limits.{is_key_byte};
ghost use Rattle.aft_model.specs.ReplyText.{id_word, uuid_word, value_word};

use aft_id::{Memory, TxnId};
use aft_records::Key;
use std::alloc::Global;
use uuid::Uuid;

/// A UUID as a word.
pub(crate) fn uuid_word(alloc: Global, uuid: &Uuid) -> Result<String, Memory>
    ensures { IfOk result (λ word. string_bytes word ≡ uuid_word uuid.now) }
{
    let word = format!(in alloc; "{uuid}")?;
    Ok(word)
}

/// An id as a word: `0` for the zero id.
pub(crate) fn id_word(alloc: Global, id: &TxnId) -> Result<String, Memory>
    ensures { IfOk result (λ word. string_bytes word ≡ id_word id.now) }
{
    if *id == TxnId::zero() {
        return Ok(String::from_str(alloc, "0")?);
    }
    id.write(alloc)
}

/// A key as a word, which it is as it stands.
pub(crate) fn key_word(alloc: Global, key: &Key) -> Result<String, Memory>
    ensures { IfOk result (λ word. string_bytes word ≡ key.now) }
{
    let word = String::from_str(alloc, graphic_text(key.bytes()))?;
    Ok(word)
}

/// A value as a word: as it is where it is plain, and else `#` and its hexadecimal digits.
pub(crate) fn value_word(alloc: Global, value: &[u8]) -> Result<String, Memory>
    ensures { IfOk result (λ word. string_bytes word ≡ value_word value.now) }
{
    if value.is_empty() || value.starts_with(b"#") || !are_graphic(value) {
        return digits_word(alloc, value);
    }
    let word = String::from_str(alloc, graphic_text(value))?;
    Ok(word)
}

/// A value as `#` and its hexadecimal digits.
fn digits_word(alloc: Global, value: &[u8]) -> Result<String, Memory>
    ensures { IfOk result (λ word. string_bytes word ≡ codes "#" ++ encode_lower value.now) }
{
    let digits = hex::encode(alloc, value)?;
    let word = format!(in alloc; "#{digits}")?;
    Ok(word)
}

/// Bytes of 33 to 126 as a text.
fn graphic_text(bytes: &[u8]) -> &str
    requires { IsTrue (list_all is_key_byte bytes.now) }
    ensures { result.now ≡ bytes.now }
{
    match std::str::from_utf8(bytes) {
        Ok(text) => text,
        Err(_) => unreachable!(),
    }
}

/// Whether each byte is 33 to 126.
pub(crate) fn are_graphic(bytes: &[u8]) -> bool
    ensures { result ≡ list_all is_key_byte bytes.now }
{
    bytes.iter().all(|b| matches!(b, b'!'..=b'~'))
}
