//! The texts of a record's reads: 16 digits of time, `-`, and 32 of UUID, in lower case.

ghost use Rattle.std.specs.Prelude.{◌≡◌, string_bytes, length, IfOk};
ghost use Rattle.aft_records.specs.Gives.{Gives};
ghost use Rattle.aft_records.specs.Names.{id_digits};
ghost use Rattle.aft_records.specs.ReadIds.{read_id_of, ids_of};
ghost use Rattle.aft_records.specs.Reading.{found_id, found_ids};

use crate::fault::RecordFault;
use crate::name::{has_upper, id_from, push_id};
use aft_fields::Raw;
use aft_id::{TxnId, uuid_bytes};
use std::alloc::{AllocError, Global};
use std::str;

/// The text of a read.
pub(crate) fn id_text(alloc: Global, id: &TxnId) -> Result<String, AllocError>
    ensures value { IfOk result (λ text. string_bytes text ≡ id_digits id.now) }
    ensures long { IfOk result (λ text. length (string_bytes text) ≡ 49) }
{
    // The call tells the proof that the UUID has the bytes of one.
    uuid_bytes(&id.uuid);
    let mut text = String::new(alloc);
    push_id(&mut text, alloc, id)?;
    Ok(text)
}

/// The id that a text is, `BadReads` where it is none.
fn id_of_text(text: &str) -> Result<TxnId, RecordFault>
    ensures { Gives (λ id. id) result (found_id (read_id_of text.now)) }
{
    if has_upper(text) {
        return Err(RecordFault::BadReads);
    }
    match id_from(text) {
        Ok(id) => Ok(id),
        Err(_) => Err(RecordFault::BadReads),
    }
}

/// The id that bytes are the text of, `BadReads` where they are none.
fn read_id(bytes: &[u8]) -> Result<TxnId, RecordFault>
    ensures { Gives (λ id. id) result (found_id (read_id_of bytes.now)) }
{
    match str::from_utf8(bytes) {
        Ok(text) => id_of_text(text),
        Err(_) => Err(RecordFault::BadReads),
    }
}

/// The ids that texts are, `BadReads` where one is none.
pub(crate) fn ids_from(alloc: Global, texts: &[Raw]) -> Result<Vec<TxnId>, RecordFault>
    ensures { Gives (λ ids. ids.items) result (found_ids (ids_of texts.now)) }
{
    let mut ids = Vec::new(alloc);
    for text in texts {
        ids.push(read_id(text.as_slice())?)?;
    }
    Ok(ids)
}
