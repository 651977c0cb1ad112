//! The names that stored values stand under.

ghost use Rattle.std.specs.Prelude.{◌≡◌, ◌<◌, ◌++◌, string_bytes, OnOk, IfOk, IfErr};
ghost use Rattle.hex.specs.Hex.{encode_lower};
ghost use Rattle.std.specs.Prelude.{option_map};
ghost use Rattle.std.specs.List.{list_any};
ghost use Rattle.aft_records.specs.Names.{id_digits, name_text};
ghost use Rattle.aft_records.specs.NameReading.{GivesName, split_once, is_upper, decoded, key_of, time_of, uuid_of, id_of, version_name, commit_name, retired_name, kind_name, name_of};
ghost use Rattle.aft_records.specs.Stored.{IsName};

use crate::fault::NameFault;
use crate::key::{Key, is_key};
use crate::reading::is_time;
use aft_id::{Bytes, Memory, Text, TxnId};
use hex::{FromHex, FromHexError};
use std::alloc::{AllocError, Global};
use uuid::Uuid;

/// What a stored value stands under.
#[derive(Debug, PartialEq, Eq, Drop)]
pub enum Name {
    /// The version of this key that the transaction of this id wrote.
    VersionOf { key: Key, id: TxnId },
    /// The record of the commit of this UUID.
    CommitOf { uuid: Uuid },
    /// The marker of the commit of this UUID.
    RetiredOf { uuid: Uuid },
}

impl Clone for Name {
    ghost is_clone = { λ name copy. copy ≡ name };

    fn clone(&self) -> Result<Name, AllocError> {
        match self {
            Name::VersionOf { key, id } => Ok(Name::VersionOf {
                key: key.clone()?,
                id: *id,
            }),
            Name::CommitOf { uuid } => Ok(Name::CommitOf { uuid: *uuid }),
            Name::RetiredOf { uuid } => Ok(Name::RetiredOf { uuid: *uuid }),
        }
    }
}

/// Writes bytes as lower case digits.
fn push_digits(text: &mut String, alloc: Global, bytes: &[u8]) -> Result<(), AllocError>
    ensures { OnOk result (string_bytes text.new ≡ string_bytes text.old ++ encode_lower bytes.now) }
{
    let digits = hex::encode(alloc, bytes)?;
    text.push_str(digits.as_str())
}

/// Writes the time and the UUID of an id.
pub(crate) fn push_id(text: &mut String, alloc: Global, id: &TxnId) -> Result<(), AllocError>
    ensures { OnOk result (string_bytes text.new ≡ string_bytes text.old ++ id_digits id.now) }
{
    push_digits(text, alloc, &id.time.to_be_bytes())?;
    text.push_str("-")?;
    push_digits(text, alloc, id.uuid.as_bytes())
}

impl Name {
    /// The text of the name.
    pub fn write(&self, alloc: Global) -> Result<Text, Memory>
        ensures { IfOk result (λ text. text ≡ name_text self.now) }
    {
        let mut text = String::new(alloc);
        match self {
            Name::VersionOf { key, id } => {
                text.push_str("v/")?;
                push_digits(&mut text, alloc, key.bytes())?;
                text.push_str("/")?;
                push_id(&mut text, alloc, id)?;
            }
            Name::CommitOf { uuid } => {
                text.push_str("c/")?;
                push_digits(&mut text, alloc, uuid.as_bytes())?;
            }
            Name::RetiredOf { uuid } => {
                text.push_str("r/")?;
                push_digits(&mut text, alloc, uuid.as_bytes())?;
            }
        }
        Ok(Text::from_string(text))
    }
}

/// What stands before the first such character, and what stands after it.
fn split(text: &str, separator: char) -> Result<(&str, &str), NameFault>
    requires { separator < 128 }
    ensures found { GivesName (λ parts. (parts.0.now, parts.1.now)) result (split_once separator text.now) }
    ensures refused { IfErr result (λ e. e ≡ NameFault.BadName) }
{
    match text.split_once(separator) {
        Some((before, after)) => Ok((before, after)),
        None => Err(NameFault::BadName),
    }
}

/// Whether a text has an upper case letter.
pub(crate) fn has_upper(text: &str) -> bool
    ensures { result ≡ list_any is_upper text.now }
{
    text.as_bytes().iter().any(|b| matches!(b, b'A'..=b'Z'))
}

/// A UUID by its thirty-two digits.
fn uuid_from(digits: &str) -> Result<Uuid, NameFault>
    ensures found { GivesName (λ uuid. uuid) result (uuid_of digits.now) }
    ensures refused { IfErr result (λ e. e ≡ NameFault.BadName) }
{
    match <[u8; 16]>::from_hex(digits) {
        Ok(bytes) => Ok(Uuid::from_bytes(bytes)),
        Err(_) => Err(NameFault::BadName),
    }
}

/// A time by its sixteen digits.
#[tactic(auto, unfolding(crate::specs::NameReading::time_of))]
fn time_from(digits: &str) -> Result<u64, NameFault>
    ensures found { GivesName (λ time. time) result (time_of digits.now) }
    ensures refused { IfErr result (λ e. e ≡ NameFault.BadName) }
{
    let Ok(bytes) = <[u8; 8]>::from_hex(digits) else {
        return Err(NameFault::BadName);
    };
    let time = u64::from_be_bytes(bytes);
    if !is_time(time) {
        return Err(NameFault::BadName);
    }
    Ok(time)
}

/// An id by its digits.
#[tactic(auto, unfolding(crate::specs::NameReading::id_of))]
pub(crate) fn id_from(text: &str) -> Result<TxnId, NameFault>
    ensures found { GivesName (λ id. id) result (id_of text.now) }
    ensures refused { IfErr result (λ e. e ≡ NameFault.BadName) }
{
    let (time, uuid) = split(text, '-')?;
    let time = time_from(time)?;
    let uuid = uuid_from(uuid)?;
    Ok(TxnId { time, uuid })
}

/// A key by its digits.
#[tactic(auto, unfolding(crate::specs::NameReading::key_of))]
fn key_from(alloc: Global, digits: &str) -> Result<Key, NameFault>
    ensures { GivesName (λ key. key) result (key_of digits.now) }
{
    match hex::decode(alloc, digits) {
        Ok(bytes) => {
            if !is_key(&bytes) {
                return Err(NameFault::BadName);
            }
            Ok(Key::of(Bytes::from_vec(bytes)))
        }
        Err(FromHexError::OutOfMemory) => Err(NameFault::Memory),
        Err(_) => Err(NameFault::BadName),
    }
}

/// A version's name, behind its first slash.
#[tactic(auto, unfolding(crate::specs::NameReading::version_name))]
fn version_from(alloc: Global, text: &str) -> Result<Name, NameFault>
    ensures { GivesName (λ name. name) result (version_name text.now) }
{
    let (key, id) = split(text, '/')?;
    let key = key_from(alloc, key)?;
    let id = id_from(id)?;
    Ok(Name::VersionOf { key, id })
}

/// A record's name, behind its slash.
#[tactic(auto, unfolding(crate::specs::NameReading::commit_name))]
fn commit_from(text: &str) -> Result<Name, NameFault>
    ensures { GivesName (λ name. name) result (commit_name text.now) }
{
    let uuid = uuid_from(text)?;
    Ok(Name::CommitOf { uuid })
}

/// A marker's name, behind its slash.
#[tactic(auto, unfolding(crate::specs::NameReading::retired_name))]
fn retired_from(text: &str) -> Result<Name, NameFault>
    ensures { GivesName (λ name. name) result (retired_name text.now) }
{
    let uuid = uuid_from(text)?;
    Ok(Name::RetiredOf { uuid })
}

/// A name of this kind, by what stands behind its first slash.
#[tactic(auto, unfolding(crate::specs::NameReading::kind_name))]
fn kind_from(alloc: Global, kind: &str, rest: &str) -> Result<Name, NameFault>
    ensures { GivesName (λ name. name) result (kind_name kind.now rest.now) }
{
    if kind == "v" {
        return version_from(alloc, rest);
    }
    if kind == "c" {
        return commit_from(rest);
    }
    if kind == "r" {
        return retired_from(rest);
    }
    Err(NameFault::BadName)
}

/// The name that a text is.
#[tactic(auto, unfolding(crate::specs::NameReading::name_of))]
fn name_from(alloc: Global, text: &str) -> Result<Name, NameFault>
    ensures { GivesName (λ name. name) result (name_of text.now) }
{
    if has_upper(text) {
        return Err(NameFault::BadName);
    }
    let (kind, rest) = split(text, '/')?;
    kind_from(alloc, kind, rest)
}

impl Name {
    /// The name that a text spells. `BadName` comes exactly where the text spells none: upper case digits,
    /// a key or a time out of its limits, and bytes after the end are refused too.
    pub fn read(alloc: Global, text: &str) -> Result<Name, NameFault>
        // What is read is spelled so, and within the limits.
        ensures found { IfOk result (λ name. IsName name × (text.now ≡ name_text name)) }
        // What is spelled so, and within the limits, is read, unless memory runs out.
        ensures only { (name : Name) → IsName name → text.now ≡ name_text name → GivesName (λ read. read) result (Some name) }
        // Which texts are refused.
        ensures exact { GivesName (λ read. read) result (name_of text.now) }
    {
        name_from(alloc, text)
    }
}
