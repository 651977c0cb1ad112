//! Ids of transactions.

ghost use Rattle.std.specs.Prelude.{◌≡◌, ◌≢◌, ◌↔◌, ◌<◌, ◌^◌, ℕ, All, IfErr, IfOk, IfSome, IsTrue, List, Ok, Some, length, slice_index};
ghost use Rattle.std.specs.Fmt.{decimal};
ghost use Rattle.std.specs.String.{string_bytes};
ghost use Rattle.uuid.specs.Text.{hyphenated_text, lower};
ghost use Rattle.aft_id.specs.TxnId.{IsUuid, id_text};

use crate::fault::IdFault;
use crate::memory::Memory;
use std::alloc::Global;
use std::cmp::Ordering;
use uuid::Uuid;

/// The id of a transaction: when it committed, and the UUID that its client gave it.
///
/// Ids are ordered by time, and those of one time by their UUID as a 128-bit number.
#[derive(Clone, Copy, Debug, PartialEq, Eq, PartialOrd, Ord, Hash)]
pub struct TxnId {
    /// Milliseconds since the start of 1970. A stored id has 1 to 2^48 - 1.
    pub time: u64,
    /// What the client named the transaction by.
    pub uuid: Uuid,
}

impl TxnId {
    ghost use Rattle.aft_id.specs.TxnId.{zero_id, id_cmp, id_lt};

    /// The id at which an absent key is read: time 0 and the nil UUID. No id is below it.
    pub fn zero() -> TxnId
        ensures { result ≡ zero_id }
    {
        TxnId {
            time: 0,
            uuid: Uuid::nil(),
        }
    }

    /// How this id stands to another: by time, and at one time by their UUIDs' numbers.
    pub fn compare(&self, other: &TxnId) -> Ordering
        ensures { result ≡ id_cmp self.now other.now }
    {
        self.time.cmp(&other.time).then(self.uuid.cmp(&other.uuid))
    }

    /// Whether this id is below another, as `<` is.
    pub fn is_before(&self, other: &TxnId) -> bool
        ensures { result ≡ id_lt self.now other.now }
    {
        self.compare(other).is_lt()
    }

    /// The text of this id: its time in decimal digits, `-`, and its UUID hyphenated in lower case.
    ///
    /// `Memory` comes only where memory ran out.
    pub fn write(&self, alloc: Global) -> Result<String, Memory>
        ensures { IfOk result (λ text. string_bytes text ≡ id_text self.now) }
    {
        let text = format!(in alloc; "{}-{}", self.time, self.uuid)?;
        Ok(text)
    }

    /// The id of a text that `write` gives for an id whose time is below 2^48. Takes no memory.
    ///
    /// Any other text is `BadId`: a time with a leading zero or a UUID in another form too.
    pub fn read(text: &str) -> Result<TxnId, IdFault>
        ensures text { IfOk result (λ id. text.now ≡ id_text id) }
        ensures time { IfOk result (λ id. id.time < 2 ^ 48) }
        ensures bytes { IfOk result (λ id. IsUuid id.uuid) }
        ensures reads { (id : TxnId) → IsUuid id.uuid → id.time < 2 ^ 48 → text.now ≡ id_text id → result ≡ Ok id }
        ensures bad { IfErr result (λ e. e ≡ IdFault.BadId) }
    {
        read_id(text).ok_or(IdFault::BadId)
    }
}

/// The sixteen bytes of a UUID. The call tells a proof that they are sixteen, and below 256 each.
pub fn uuid_bytes(uuid: &Uuid) -> &[u8]
    ensures value { result.now ≡ uuid.now }
    ensures bytes { IsUuid uuid.now }
{
    let bytes = uuid.as_bytes();
    fits(bytes.as_slice());
    sixteen(bytes)
}

// The bytes of an array are as many as its type says.
fn sixteen(bytes: &[u8; 16]) -> &[u8]
    ensures value { result.now ≡ bytes.now }
    ensures long { length bytes.now ≡ 16 }
{
    bytes.as_slice()
}

// Each byte of a slice is in its type's range.
fn fits(bytes: &[u8])
    ensures { All (λ b. b < 256) bytes.now }
{}

// The id that a text is the text of, where its time is below 2^48.
fn read_id(text: &str) -> Option<TxnId>
    ensures text { IfSome result (λ id. text.now ≡ id_text id) }
    ensures small { IfSome result (λ id. id.time < 2 ^ 48) }
    ensures bytes { IfSome result (λ id. IsUuid id.uuid) }
    ensures reads { (id : TxnId) → IsUuid id.uuid → id.time < 2 ^ 48 → text.now ≡ id_text id → result ≡ Some id }
{
    let (time, uuid) = text.split_once('-')?;
    let time = read_time(time)?;
    let uuid = read_hyphenated(uuid)?;
    Some(TxnId { time, uuid })
}

// The time below 2^48 that a text is the decimal digits of.
fn read_time(text: &str) -> Option<u64>
    ensures text { IfSome result (λ time. text.now ≡ decimal time) }
    ensures small { IfSome result (λ time. time < 2 ^ 48) }
    ensures reads { (time : ℕ) → time < 2 ^ 48 → text.now ≡ decimal time → result ≡ Some time }
{
    if !is_plain(text.as_bytes()) {
        return None;
    }
    let time = text.parse::<u64>().ok()?;
    if time < 1 << 48 { Some(time) } else { None }
}

// Whether a text has no plus in front, and no zero in front of more.
fn is_plain(text: &[u8]) -> bool
    ensures { IsTrue result ↔ ((slice_index text.now 0 ≢ 43) × (slice_index text.now 0 ≡ 48 → length text.now ≡ 1)) }
{
    !matches!(text, [b'+', ..] | [b'0', _, ..])
}

// The UUID that a text is the hyphenated form of, in lower case.
fn read_hyphenated(text: &str) -> Option<Uuid>
    ensures text { IfSome result (λ u. text.now ≡ hyphenated_text lower u) }
    ensures bytes { IfSome result IsUuid }
    ensures reads { (u : List ℕ) → IsUuid u → text.now ≡ hyphenated_text lower u → result ≡ Some u }
{
    let uuid = Uuid::try_parse(text).ok()?;
    // The call tells the proof that `uuid` has the bytes of a UUID.
    uuid_bytes(&uuid);
    let mut buffer = Uuid::encode_buffer();
    let written = uuid.hyphenated().encode_lower(&mut buffer);
    if *written == *text { Some(uuid) } else { None }
}
