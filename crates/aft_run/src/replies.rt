//! The texts of replies.

ghost use Rattle.std.specs.Prelude.{◌≡◌, IsErrOf};
ghost use Rattle.aft_keeper.specs.Cause.{HasCause};

use aft_id::TxnId;
use aft_keeper::{Sink, SinkFault};
use aft_model::{Blocked, Judged, NodeEntry, Reply, Verdict};
use aft_records::Key;
use std::alloc::Global;
use std::fmt;
use std::fmt::{Formatter, Write};

/// Writes a line for each reply to a client's line: the line's number, the client and the reply.
pub fn write_replies<O: Sink>(
    alloc: Global,
    entries: &[NodeEntry],
    sink: &mut O,
) -> Result<(), SinkFault>
    ensures cause { HasCause (IsErrOf result SinkFault.Failed) (O.faults sink.old) (O.faults sink.new) }
{
    for entry in entries {
        if entry.by.client > 0 {
            if let Some(reply) = &entry.answer {
                write_line(alloc, entry.by.line, entry.by.client, reply, sink)?;
            }
        }
    }
    Ok(())
}

/// Writes one line of output, as one piece.
fn write_line<O: Sink>(
    alloc: Global,
    line: u32,
    client: u32,
    reply: &Reply,
    sink: &mut O,
) -> Result<(), SinkFault>
    ensures cause { HasCause (IsErrOf result SinkFault.Failed) (O.faults sink.old) (O.faults sink.new) }
{
    let words = Words(reply);
    match format!(in alloc; "{line} {client} {words}\n") {
        Ok(text) => sink.write(text.as_bytes()),
        Err(_) => Err(SinkFault::Memory),
    }
}

/// A reply as its words.
#[derive(Clone, Copy)]
struct Words<'a>(&'a Reply);

impl fmt::Display for Words<'_> {
    fn fmt<W: Write>(&self, f: &mut Formatter<W>) -> fmt::Result {
        match self.0 {
            Reply::Begun(uuid) => write!(f, "begun {}", uuid.hyphenated()),
            Reply::Joined(uuid) => write!(f, "joined {}", uuid.hyphenated()),
            Reply::Committed(id) => write!(f, "committed {}", Id(*id)),
            Reply::Busy { node, inc } => write!(f, "busy {node} {inc}"),
            Reply::Stored => f.write_str("ok"),
            Reply::Own(value) => write!(f, "own {}", Value(value.as_slice())),
            Reply::Value(id, value) => write!(f, "value {} {}", Id(*id), Value(value.as_slice())),
            Reply::Absent => f.write_str("absent"),
            Reply::NoValidVersion(blocked) => {
                write!(f, "no-valid-version{}", BlockedWords(blocked.as_slice()))
            }
            Reply::Missing(id) => write!(f, "missing {}", Id(*id)),
            Reply::Damaged(name) => write!(f, "damaged {}", name.as_str()),
            Reply::Ended => f.write_str("ended"),
            Reply::Aborted => f.write_str("aborted"),
            Reply::StoreFault => f.write_str("store-fault"),
            Reply::InDoubt => f.write_str("in-doubt"),
            Reply::NodeDown { node, inc } => write!(f, "node-down {node} {inc}"),
            Reply::NoTransaction => f.write_str("no-transaction"),
            Reply::Committing => f.write_str("committing"),
            Reply::TooManyKeys => f.write_str("too-many-keys"),
            Reply::OpenReads(count) => write!(f, "open-reads {count}"),
            Reply::ClockEnd => f.write_str("clock-end"),
            Reply::Crashed { node, inc } => write!(f, "crashed {node} {inc}"),
            Reply::NotUp { node } => write!(f, "not-up {node}"),
            Reply::Started { node, inc } => write!(f, "started {node} {inc}"),
            Reply::IsUp { node, inc } => write!(f, "up {node} {inc}"),
            Reply::IsBooting { node, inc } => write!(f, "booting {node} {inc}"),
            Reply::TooManyRecords => f.write_str("too-many-records"),
            Reply::Announced {
                kept,
                pruned,
                dropped,
            } => write!(f, "announced {kept} pruned {pruned} dropped {dropped}"),
            Reply::Learned {
                taken,
                superseded,
                known,
            } => write!(f, "learned {taken} superseded {superseded} known {known}"),
            Reply::Dropped(count) => write!(f, "dropped {count}"),
            Reply::Managed { heard, missed } => write!(f, "manager heard {heard} missed {missed}"),
            Reply::Collected(judged) => write!(f, "collected{}", JudgedWords(judged.as_slice())),
            Reply::Collecting => f.write_str("collecting"),
            Reply::Forgot(id) => write!(f, "forgot {}", Id(*id)),
            Reply::Kept(id) => write!(f, "kept {}", Id(*id)),
            Reply::Unknown(uuid) => write!(f, "unknown {}", uuid.hyphenated()),
            Reply::Forgotten(uuid) => write!(f, "forgotten {}", uuid.hyphenated()),
            Reply::Orphans {
                deleted,
                kept,
                held,
                fault,
            } => write!(
                f,
                "orphans deleted {deleted} kept {kept} held {held} fault {fault}"
            ),
            Reply::TooManyVersions => f.write_str("too-many-versions"),
            Reply::Copied { taken, marked } => write!(f, "copied {taken} marked {marked}"),
            Reply::Copying => f.write_str("copying"),
            Reply::NoMemory => f.write_str("no-memory"),
        }
    }
}

/// An id as its text, or `0` for the zero id.
#[derive(Clone, Copy)]
struct Id(TxnId);

impl fmt::Display for Id {
    fn fmt<W: Write>(&self, f: &mut Formatter<W>) -> fmt::Result {
        let id = self.0;
        if id == TxnId::zero() {
            return f.write_str("0");
        }
        write!(f, "{}-{}", id.time, id.uuid.hyphenated())
    }
}

/// A value as a word: its own bytes where they can be a word that doesn't begin with `#`, else `#` and their
/// hexadecimal digits.
#[derive(Clone, Copy)]
struct Value<'a>(&'a [u8]);

impl fmt::Display for Value<'_> {
    fn fmt<W: Write>(&self, f: &mut Formatter<W>) -> fmt::Result {
        if !self.0.starts_with(b"#") && is_printable(self.0) {
            if let Ok(text) = std::str::from_utf8(self.0) {
                return f.write_str(text);
            }
        }
        f.write_str("#")?;
        for byte in self.0 {
            write!(f, "{byte:02x}")?;
        }
        Ok(())
    }
}

/// Whether bytes make a word.
fn is_printable(bytes: &[u8]) -> bool {
    !bytes.is_empty() && bytes.iter().all(|b| (33..=126).contains(b))
}

/// A key as a word: its bytes as they are.
#[derive(Clone, Copy)]
struct KeyWord<'a>(&'a Key);

impl fmt::Display for KeyWord<'_> {
    fn fmt<W: Write>(&self, f: &mut Formatter<W>) -> fmt::Result {
        for byte in self.0.bytes() {
            f.write_char(char::from(*byte))?;
        }
        Ok(())
    }
}

/// Three words for each version that doesn't fit.
#[derive(Clone, Copy)]
struct BlockedWords<'a>(&'a [Blocked]);

impl fmt::Display for BlockedWords<'_> {
    fn fmt<W: Write>(&self, f: &mut Formatter<W>) -> fmt::Result {
        for blocked in self.0 {
            let (id, read) = (Id(blocked.id), Id(blocked.read));
            let key = KeyWord(&blocked.key);
            write!(f, " {id} {key} {read}")?;
        }
        Ok(())
    }
}

/// The words of each commit of a collection.
#[derive(Clone, Copy)]
struct JudgedWords<'a>(&'a [Judged]);

impl fmt::Display for JudgedWords<'_> {
    fn fmt<W: Write>(&self, f: &mut Formatter<W>) -> fmt::Result {
        for judged in self.0 {
            let id = Id(judged.id);
            match judged.verdict {
                Verdict::Retired => write!(f, " {id} retired")?,
                Verdict::Held { node, inc } => write!(f, " {id} held {node} {inc}")?,
                Verdict::Fault => write!(f, " {id} fault")?,
            }
        }
        Ok(())
    }
}
