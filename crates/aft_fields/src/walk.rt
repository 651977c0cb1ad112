//! A reader that walks over the bytes of a row.

ghost use Rattle.std.specs.Prelude.{◌≡◌, ◌+◌, length};
ghost use Rattle.std.specs.Int.{w32, w64, w128};
ghost use Rattle.std.specs.Str.{is_utf8};
ghost use Rattle.aft_fields.specs.Gives.{Gives};
ghost use Rattle.aft_fields.specs.Place.{start};
ghost use Rattle.aft_fields.specs.Reading.{part_at, number_at, bytes_at, text_at, tag_at, end_at};

use crate::fault::FieldFault;
use std::marker::Model;
use std::str;

/// The bytes of a row that are left, and the offset at which they begin.
#[derive(Drop)]
pub(crate) struct Walk<'a> {
    rest: &'a [u8],
    at: u64,
}

impl<'a> Model for Walk<'a> {
    ghost use Rattle.std.specs.Prelude.{◌+◌, ◌<◌, ◌^◌, length};
    ghost use Rattle.aft_fields.specs.Place.{Place};

    ghost Value = { Place };

    ghost view = { λ walk. record { at = walk.at; bytes = walk.rest.now } };

    ghost invariant = { λ walk. walk.at + length walk.rest.now < 2 ^ 64 };
}

/// Whether these bytes are a text.
fn is_utf8(bytes: &[u8]) -> bool
    ensures { result ≡ is_utf8 bytes.now }
{
    str::from_utf8(bytes).is_ok()
}

impl<'a> Walk<'a> {
    /// At the start of a row.
    pub(crate) fn start(bytes: &'a [u8]) -> Walk<'a>
        ensures { result ≡ start bytes.now }
    {
        Walk { rest: bytes, at: 0 }
    }

    /// The next n bytes.
    fn part(self, n: usize) -> Result<(&'a [u8], Walk<'a>), FieldFault>
        ensures { Gives (λ x. (x.0.now, x.1)) result (part_at n self.entry) }
    {
        if self.rest.len() < n {
            return Err(FieldFault::Short { at: self.at });
        }
        let (front, rest) = self.rest.split_at(n);
        let at = self.at + n as u64;
        Ok((front, Walk { rest, at }))
    }

    /// The next N bytes.
    fn array<const N: usize>(self) -> Result<([u8; N], Walk<'a>), FieldFault>
        ensures { Gives (λ x. x) result (part_at N self.entry) }
    {
        match self.rest.split_first_chunk::<N>() {
            Some((front, rest)) => {
                let at = self.at + N as u64;
                Ok((*front, Walk { rest, at }))
            }
            None => Err(FieldFault::Short { at: self.at }),
        }
    }

    /// A number of 64 bits.
    #[tactic(auto, unfolding(crate::specs::Reading::number_at))]
    pub(crate) fn u64(self) -> Result<(u64, Walk<'a>), FieldFault>
        ensures { Gives (λ x. x) result (number_at w64 self.entry) }
    {
        let (bytes, walk) = self.array::<8>()?;
        Ok((u64::from_be_bytes(bytes), walk))
    }

    /// A number of 128 bits.
    #[tactic(auto, unfolding(crate::specs::Reading::number_at))]
    pub(crate) fn u128(self) -> Result<(u128, Walk<'a>), FieldFault>
        ensures { Gives (λ x. x) result (number_at w128 self.entry) }
    {
        let (bytes, walk) = self.array::<16>()?;
        Ok((u128::from_be_bytes(bytes), walk))
    }

    /// A length or a count.
    #[tactic(auto, unfolding(crate::specs::Reading::number_at))]
    pub(crate) fn u32(self) -> Result<(u32, Walk<'a>), FieldFault>
        ensures { Gives (λ x. x) result (number_at w32 self.entry) }
    {
        let (bytes, walk) = self.array::<4>()?;
        Ok((u32::from_be_bytes(bytes), walk))
    }

    /// Bytes behind their length.
    #[tactic(auto, unfolding(crate::specs::Reading::bytes_at))]
    pub(crate) fn bytes(self) -> Result<(&'a [u8], Walk<'a>), FieldFault>
        ensures { Gives (λ x. (x.0.now, x.1)) result (bytes_at self.entry) }
    {
        let (length, walk) = self.u32()?;
        walk.part(length as usize)
    }

    /// A text of this field.
    #[tactic(auto, unfolding(crate::specs::Reading::text_at))]
    pub(crate) fn text(self, field: u32) -> Result<(&'a [u8], Walk<'a>), FieldFault>
        ensures { Gives (λ x. (x.0.now, x.1)) result (text_at field self.entry) }
    {
        let (text, walk) = self.bytes()?;
        if !is_utf8(text) {
            return Err(FieldFault::NotUtf8 { field });
        }
        Ok((text, walk))
    }

    /// The place after this tag.
    #[tactic(auto, unfolding(crate::specs::Reading::tag_at))]
    pub(crate) fn tag(self, tag: [u8; 3]) -> Result<Walk<'a>, FieldFault>
        ensures { Gives (λ x. x) result (tag_at tag self.entry) }
    {
        let (found, walk) = self.array::<3>()?;
        if found != tag {
            return Err(FieldFault::Tag);
        }
        Ok(walk)
    }

    /// The end of the row.
    pub(crate) fn end(&self) -> Result<(), FieldFault>
        ensures { Gives (λ x. x) result (end_at self.now) }
    {
        if !self.rest.is_empty() {
            return Err(FieldFault::Spare { at: self.at });
        }
        Ok(())
    }
}
