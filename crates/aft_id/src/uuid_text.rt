//! The texts that name a UUID.

ghost use Rattle.std.specs.Prelude.{◌≡◌, ◌↔◌, None, IfOk, ok_or, nat_eq};
ghost use Rattle.std.specs.Option.{option_or};
ghost use Rattle.uuid.specs.Text.{parsed_simple, parsed_hyphenated, parsed_braced, urn_prefix};
ghost use Rattle.aft_id.specs.TxnId.{IsUuid};
ghost use Rattle.aft_id.specs.UuidText.{uuid_of_text, uuid_of_digits, after_prefix};

use crate::fault::IdFault;
use uuid::Uuid;

/// The UUID that a text names. Takes no memory.
///
/// The text has 32 hexadecimal digits; or they are hyphenated as 8-4-4-4-12, also in braces or
/// after `urn:uuid:`; or it is `@` and the UUID's number, in 1 to 39 decimal digits and below 2^128.
/// Hexadecimal digits are of either case, and `urn:uuid:` is of lower case only.
/// Any other text is `BadUuid`.
pub fn parse_uuid(text: &str) -> Result<Uuid, IdFault>
    ensures value { result ≡ ok_or (uuid_of_text text.now) IdFault.BadUuid }
    ensures read { IfOk result (λ u. uuid_of_text text.now ≡ Some u) }
    ensures bad { (result ≡ Err IdFault.BadUuid) ↔ (uuid_of_text text.now ≡ None) }
    ensures bytes { IfOk result IsUuid }
{
    let uuid = match text.strip_prefix('@') {
        Some(digits) => numbered_uuid(digits),
        None => spelled_uuid(text),
    };
    uuid.ok_or(IdFault::BadUuid)
}

// As many decimal digits as the greatest number below 2^128 has.
const MAX_DIGITS: usize = 39;

// The UUID of a number in decimal digits.
fn numbered_uuid(digits: &str) -> Option<Uuid>
    ensures { result ≡ uuid_of_digits digits.now }
{
    if digits.len() > MAX_DIGITS || digits.starts_with('+') {
        return None;
    }
    let number = digits.parse::<u128>().ok()?;
    Some(Uuid::from_u128(number))
}

// The UUID that a text spells in hexadecimal digits.
fn spelled_uuid(text: &str) -> Option<Uuid>
    ensures { result ≡ option_or (parsed_simple text.now) (option_or (parsed_hyphenated text.now) (option_or (parsed_braced text.now) (after_prefix urn_prefix parsed_hyphenated text.now))) }
{
    if text.len() == 45 && !text.starts_with("urn:uuid:") {
        return None;
    }
    Uuid::try_parse(text).ok()
}
