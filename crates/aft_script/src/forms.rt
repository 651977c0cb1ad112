//! The forms of a line: a client, a verb, and the words that go with it.

ghost use Rattle.std.specs.Prelude.{◌≡◌, ◌≤◌, IfOk, IfSome, length};
ghost use Rattle.std.specs.Str.{IsAscii};
ghost use Rattle.std.specs.List.{list_all};
ghost use Rattle.aft_script.specs.Forms.{a_key, a_key_and_a_value, a_node, a_uuid_on_a_node, command_of, is_line_byte, line_of, nothing, request_of, said_by};
ghost use Rattle.aft_script.specs.Gives.{Gives};
ghost use Rattle.aft_script.specs.Runnable.{IsCommandFor, IsNode, IsSaidFor};
ghost use Rattle.aft_script.specs.Words.{words_of};

use crate::fault::{LineFault, Refusal};
use crate::split::split_word;
use crate::values::{ascii_text, client_of, key_of, node_of, uuid_of, value_of};
use crate::verb::{Verb, verb_of};
use aft_id::Bytes;
use aft_model::Command;
use aft_records::Key;
use std::alloc::Global;
use uuid::Uuid;

/// What a client asks for.
#[derive(Debug, Drop)]
pub(crate) struct Said {
    /// 1 to 64.
    pub(crate) client: u32,
    pub(crate) order: Command,
}

/// A key and a value.
#[derive(Debug, Drop)]
pub(crate) struct Keyed {
    key: Key,
    value: Bytes,
}

/// A UUID and a node.
#[derive(Clone, Copy, Debug)]
pub(crate) struct Sited {
    uuid: Uuid,
    node: u32,
}

/// What a line says: nothing where it has no words or begins with `#`, or else what a client asks for.
pub(crate) fn line_of(alloc: Global, nodes: u32, line: &[u8]) -> Result<Option<Said>, Refusal>
    ensures value { Gives result (line_of nodes line.now) }
    ensures fits { IfOk result (λ said. IfSome said (IsSaidFor nodes)) }
{
    if !are_line_bytes(line) {
        return Err(Refusal::Fault(LineFault::BadByte));
    }
    if line.starts_with(b"#") {
        return Ok(None);
    }
    said_by(alloc, nodes, line)
}

/// Whether each byte may stand in a line.
fn are_line_bytes(line: &[u8]) -> bool
    ensures value { result ≡ list_all is_line_byte line.now }
{
    line.iter().all(|b| matches!(b, b' '..=b'~'))
}

/// What the words of a line say.
fn said_by(alloc: Global, nodes: u32, line: &[u8]) -> Result<Option<Said>, Refusal>
    requires { IsAscii line.now }
    ensures value { Gives result (said_by nodes (words_of line.now)) }
    ensures fits { IfOk result (λ said. IfSome said (IsSaidFor nodes)) }
{
    let Some((client, words)) = split_word(line) else {
        return Ok(None);
    };
    let client = client_of(client)?;
    let order = request_of(alloc, nodes, words)?;
    Ok(Some(Said { client, order }))
}

/// What a verb and the words behind it ask for.
fn request_of(alloc: Global, nodes: u32, words: &[u8]) -> Result<Command, Refusal>
    requires { IsAscii words.now }
    ensures value { Gives result (request_of nodes (words_of words.now)) }
    ensures fits { IfOk result (IsCommandFor nodes) }
{
    let Some((verb, words)) = split_word(words) else {
        return Err(Refusal::Fault(LineFault::BadCommand));
    };
    match verb_of(ascii_text(verb)) {
        Some(verb) => command_of(alloc, nodes, verb, words),
        None => Err(Refusal::Fault(LineFault::BadCommand)),
    }
}

/// What a verb asks for, with the words behind it.
fn command_of(alloc: Global, nodes: u32, verb: Verb, words: &[u8]) -> Result<Command, Refusal>
    requires { IsAscii words.now }
    ensures value { Gives result (command_of nodes verb (words_of words.now)) }
    ensures fits { IfOk result (IsCommandFor nodes) }
{
    match verb {
        Verb::Begin => {
            let Sited { uuid, node } = a_uuid_on_a_node(nodes, words)?;
            Ok(Command::Begin { uuid, node })
        }
        Verb::Put => {
            let Keyed { key, value } = a_key_and_a_value(alloc, words)?;
            Ok(Command::Put { key, value })
        }
        Verb::Get => Ok(Command::Get {
            key: a_key(alloc, words)?,
        }),
        Verb::Commit => nothing(Command::Commit, words),
        Verb::Abort => nothing(Command::Abort, words),
        Verb::Crash => Ok(Command::Crash {
            node: a_node(nodes, words)?,
        }),
        Verb::Start => Ok(Command::Start {
            node: a_node(nodes, words)?,
        }),
        Verb::Announce => Ok(Command::Announce {
            node: a_node(nodes, words)?,
        }),
        Verb::Deliver => Ok(Command::Deliver {
            node: a_node(nodes, words)?,
        }),
        Verb::Local => Ok(Command::Local {
            node: a_node(nodes, words)?,
        }),
        Verb::Manager => nothing(Command::Manager, words),
        Verb::Collect => nothing(Command::Collect, words),
        Verb::Forget => {
            let Sited { uuid, node } = a_uuid_on_a_node(nodes, words)?;
            Ok(Command::Forget { uuid, node })
        }
        Verb::Orphans => Ok(Command::Orphans {
            key: a_key(alloc, words)?,
        }),
        Verb::Backup => nothing(Command::Backup, words),
    }
}

/// A command with no words behind its verb.
fn nothing(command: Command, words: &[u8]) -> Result<Command, Refusal>
    ensures value { Gives result (nothing command (words_of words.now)) }
    ensures same { IfOk result (λ order. order ≡ command) }
{
    match split_word(words) {
        None => Ok(command),
        Some(_) => Err(Refusal::Fault(LineFault::BadWords)),
    }
}

/// One word, a node.
fn a_node(nodes: u32, words: &[u8]) -> Result<u32, LineFault>
    ensures value { result ≡ a_node nodes (words_of words.now) }
    ensures within { IfOk result (IsNode nodes) }
{
    let Some((node, words)) = split_word(words) else {
        return Err(LineFault::BadWords);
    };
    if split_word(words).is_some() {
        return Err(LineFault::BadWords);
    }
    node_of(nodes, node)
}

/// One word, a key.
fn a_key(alloc: Global, words: &[u8]) -> Result<Key, Refusal>
    ensures { Gives result (a_key (words_of words.now)) }
{
    let Some((key, words)) = split_word(words) else {
        return Err(Refusal::Fault(LineFault::BadWords));
    };
    if split_word(words).is_some() {
        return Err(Refusal::Fault(LineFault::BadWords));
    }
    key_of(alloc, key)
}

/// Two words, a key and a value.
fn a_key_and_a_value(alloc: Global, words: &[u8]) -> Result<Keyed, Refusal>
    ensures value { Gives result (a_key_and_a_value (words_of words.now)) }
    ensures short { IfOk result (λ it. length it.value ≤ 4096) }
{
    let Some((key, words)) = split_word(words) else {
        return Err(Refusal::Fault(LineFault::BadWords));
    };
    let Some((value, words)) = split_word(words) else {
        return Err(Refusal::Fault(LineFault::BadWords));
    };
    if split_word(words).is_some() {
        return Err(Refusal::Fault(LineFault::BadWords));
    }
    let key = key_of(alloc, key)?;
    let value = value_of(alloc, value)?;
    Ok(Keyed { key, value })
}

/// Three words, a UUID, `on` and a node.
fn a_uuid_on_a_node(nodes: u32, words: &[u8]) -> Result<Sited, LineFault>
    requires { IsAscii words.now }
    ensures value { result ≡ a_uuid_on_a_node nodes (words_of words.now) }
    ensures within { IfOk result (λ it. IsNode nodes it.node) }
{
    let Some((uuid, words)) = split_word(words) else {
        return Err(LineFault::BadWords);
    };
    let Some((on, words)) = split_word(words) else {
        return Err(LineFault::BadWords);
    };
    let Some((node, words)) = split_word(words) else {
        return Err(LineFault::BadWords);
    };
    if ascii_text(on) != "on" || split_word(words).is_some() {
        return Err(LineFault::BadWords);
    }
    let uuid = uuid_of(uuid)?;
    let node = node_of(nodes, node)?;
    Ok(Sited { uuid, node })
}
