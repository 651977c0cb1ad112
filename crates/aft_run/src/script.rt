//! The first form of scripts: one client at one node, whose groups of lines go from a `begin` to the next `commit`.

ghost use Rattle.std.specs.Prelude.{◌≡◌, ◌≤◌, [], length, IfOk, IfSome};
ghost use Rattle.aft_run.specs.Built.{IsBuilt, AreBuilt};

use crate::limits::{SCRIPT_LINES, VALUE_BYTES};
use aft_id::{Bytes, List, parse_uuid};
use aft_model::{Command, Line, Script};
use aft_records::{Key, RecordFault};
use std::alloc::{AllocError, AllocFailed, Global};
use std::collections::BTreeSet;
use uuid::Uuid;

/// Why a script isn't run.
#[derive(Clone, Copy, Debug, PartialEq, Eq)]
pub enum ScriptFault {
    /// The first line that isn't of the form that is built, counted from 1.
    NotBuilt { line: u32 },
    /// Memory ran out.
    Memory,
}

impl From<AllocError> for ScriptFault {
    fn from(_e: AllocError) -> ScriptFault {
        ScriptFault::Memory
    }
}

impl<T: Drop> From<AllocFailed<T>> for ScriptFault {
    fn from(_e: AllocFailed<T>) -> ScriptFault {
        ScriptFault::Memory
    }
}

/// Reads a script.
pub fn read_script(alloc: Global, bytes: &[u8]) -> Result<Script, ScriptFault>
    ensures built { IfOk result (λ script. AreBuilt script.lines) }
{
    let mut reader = Reader::new(alloc);
    for piece in bytes.split_inclusive(|b| *b == b'\n') {
        reader.read(without_end(piece))?;
    }
    Ok(Script {
        lines: List::from_vec(reader.lines),
    })
}

/// Whether an order file says nothing: it has spaces and LFs alone.
pub fn is_blank(bytes: &[u8]) -> bool {
    bytes.iter().all(|b| *b == b' ' || *b == b'\n')
}

/// A line without its LF and the CR in front of it. The last line of a script may lack the LF, and then keeps a CR.
fn without_end(piece: &[u8]) -> &[u8] {
    match piece.strip_suffix(b"\n".as_slice()) {
        None => piece,
        Some(line) => line.strip_suffix(b"\r".as_slice()).unwrap_or(line),
    }
}

/// Where in a group the next line stands.
#[derive(Clone, Copy, PartialEq, Eq)]
enum Group {
    /// In no group.
    Outside,
    /// After its `begin`.
    Begun,
    /// After its one put.
    Put,
    /// After a get.
    Get,
}

/// What has been read of a script.
#[derive(Drop)]
struct Reader {
    alloc: Global,
    number: u32,
    lines: Vec<Line>,
    group: Group,
    begun: BTreeSet<Uuid>,
}

impl Reader {
    fn new(alloc: Global) -> Reader
        ensures empty { result.lines.items ≡ [] }
    {
        Reader {
            alloc,
            number: 0,
            lines: Vec::new(alloc),
            group: Group::Outside,
            begun: BTreeSet::new(alloc),
        }
    }

    /// Reads the next line.
    fn read(&mut self, line: &[u8]) -> Result<(), ScriptFault>
        requires built { AreBuilt self.old.lines.items }
        ensures built { AreBuilt self.new.lines.items }
    {
        if self.number >= SCRIPT_LINES {
            return Err(ScriptFault::NotBuilt {
                line: SCRIPT_LINES + 1,
            });
        }
        self.number += 1;
        let number = self.number;
        let unread = ScriptFault::NotBuilt { line: number };
        if !line.iter().all(|b| (32..=126).contains(b)) {
            return Err(unread);
        }
        if line.starts_with(b"#") {
            return Ok(());
        }
        let Some(order) = command_of(self.alloc, line, unread)? else {
            return Ok(());
        };
        if !self.follows(&order)? {
            return Err(unread);
        }
        self.lines.push(Line {
            number,
            client: 1,
            order,
        })?;
        Ok(())
    }

    /// Whether the command may stand here. It then is the last one of its group so far.
    fn follows(&mut self, order: &Command) -> Result<bool, ScriptFault>
        ensures lines { self.new.lines ≡ self.old.lines }
    {
        let next = match (self.group, order) {
            (Group::Outside, Command::Begin { uuid, .. }) => {
                if !self.begun.insert(*uuid)? {
                    return Ok(false);
                }
                Group::Begun
            }
            (Group::Begun, Command::Put { .. }) => Group::Put,
            (Group::Begun | Group::Get, Command::Get { .. }) => Group::Get,
            (Group::Begun | Group::Put | Group::Get, Command::Commit) => Group::Outside,
            _ => return Ok(false),
        };
        self.group = next;
        Ok(true)
    }
}

/// The command of a line of printable bytes, or `None` where it has no words.
fn command_of(
    alloc: Global,
    line: &[u8],
    unread: ScriptFault,
) -> Result<Option<Command>, ScriptFault>
    ensures built { IfOk result (λ order. IfSome order IsBuilt) }
{
    match words_of(line) {
        [b"", ..] => Ok(None),
        [b"1", b"begin", name, b"on", b"1", b""] => Ok(Some(Command::Begin {
            uuid: uuid_of(name).ok_or(unread)?,
            node: 1,
        })),
        [b"1", b"put", key, value, b"", b""] => Ok(Some(Command::Put {
            key: key_of(alloc, key, unread)?,
            value: value_of(alloc, value, unread)?,
        })),
        [b"1", b"get", key, b"", b"", b""] => Ok(Some(Command::Get {
            key: key_of(alloc, key, unread)?,
        })),
        [b"1", b"commit", b"", b"", b"", b""] => Ok(Some(Command::Commit)),
        _ => Err(unread),
    }
}

/// The first six words of a line, with empty ones where it has fewer. No form has more than five.
fn words_of(line: &[u8]) -> [&[u8]; 6] {
    let mut words: [&[u8]; 6] = [b""; 6];
    let parts = line.split(|b| *b == b' ').filter(|word| !word.is_empty());
    for (i, word) in parts.take(6).enumerate() {
        words[i] = word;
    }
    words
}

/// The UUID that `@n` names.
fn uuid_of(word: &[u8]) -> Option<Uuid> {
    if !word.starts_with(b"@") {
        return None;
    }
    parse_uuid(std::str::from_utf8(word).ok()?).ok()
}

/// A key is a word of at most 64 bytes.
fn key_of(alloc: Global, word: &[u8], unread: ScriptFault) -> Result<Key, ScriptFault> {
    match Key::new(alloc, word) {
        Ok(key) => Ok(key),
        Err(RecordFault::Memory) => Err(ScriptFault::Memory),
        Err(_) => Err(unread),
    }
}

/// A value is a word of at most 4,096 bytes that doesn't begin with `#`, and stands for its own bytes.
fn value_of(alloc: Global, word: &[u8], unread: ScriptFault) -> Result<Bytes, ScriptFault>
    ensures short { IfOk result (λ value. length value ≤ 4096) }
{
    if word.is_empty() || word[0] == b'#' || word.len() > VALUE_BYTES {
        return Err(unread);
    }
    Ok(Bytes::from_vec(Vec::from_slice(alloc, word)?))
}
