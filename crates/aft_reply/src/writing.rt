//! Writing replies.

ghost use Rattle.std.specs.Prelude.{◌≡◌, ◌++◌, ◌∷◌, [], IfOk, codes};
ghost use Rattle.std.specs.Fmt.{decimal};
ghost use Rattle.std.specs.List.{flat_map};
ghost use Rattle.std.specs.String.{string_bytes};
ghost use Rattle.aft_reply.specs.Behind.{behind};
ghost use Rattle.aft_model.specs.ReplyText.{blocker_words, id_word, judged_words, reply_text, spaced, uuid_word, value_word};

use crate::words::{id_word, key_word, uuid_word, value_word};
use aft_id::{Memory, Text, TxnId};
use aft_model::{Blocked, Judged, Reply, Verdict};
use std::alloc::Global;
use uuid::Uuid;

/// The text of a reply.
pub fn write_reply(alloc: Global, reply: &Reply) -> Result<Text, Memory>
    ensures { IfOk result (λ text. text ≡ reply_text reply.now) }
{
    let text = text_of(alloc, reply)?;
    Ok(Text::from_string(text))
}

/// The text of a reply, as a string.
pub(crate) fn text_of(alloc: Global, reply: &Reply) -> Result<String, Memory>
    ensures { IfOk result (λ text. string_bytes text ≡ reply_text reply.now) }
{
    match reply {
        Reply::Begun(uuid) => with_uuid(alloc, "begun", uuid),
        Reply::Joined(uuid) => with_uuid(alloc, "joined", uuid),
        Reply::Committed(id) => with_id(alloc, "committed", id),
        Reply::Busy { node, inc } => with_incarnation(alloc, "busy", *node, *inc),
        Reply::Stored => alone(alloc, "ok"),
        Reply::Own(value) => own(alloc, value.as_slice()),
        Reply::Value(id, value) => id_and_value(alloc, id, value.as_slice()),
        Reply::Absent => alone(alloc, "absent"),
        Reply::NoValidVersion(blocked) => no_valid_version(alloc, blocked.as_slice()),
        Reply::Missing(id) => with_id(alloc, "missing", id),
        Reply::Damaged(name) => damaged(alloc, name.as_str()),
        Reply::Ended => alone(alloc, "ended"),
        Reply::Aborted => alone(alloc, "aborted"),
        Reply::StoreFault => alone(alloc, "store-fault"),
        Reply::InDoubt => alone(alloc, "in-doubt"),
        Reply::NodeDown { node, inc } => with_incarnation(alloc, "node-down", *node, *inc),
        Reply::NoTransaction => alone(alloc, "no-transaction"),
        Reply::Committing => alone(alloc, "committing"),
        Reply::TooManyKeys => alone(alloc, "too-many-keys"),
        Reply::OpenReads(count) => with_count(alloc, "open-reads", *count),
        Reply::ClockEnd => alone(alloc, "clock-end"),
        Reply::Crashed { node, inc } => with_incarnation(alloc, "crashed", *node, *inc),
        Reply::NotUp { node } => with_count(alloc, "not-up", u64::from(*node)),
        Reply::Started { node, inc } => with_incarnation(alloc, "started", *node, *inc),
        Reply::IsUp { node, inc } => with_incarnation(alloc, "up", *node, *inc),
        Reply::IsBooting { node, inc } => with_incarnation(alloc, "booting", *node, *inc),
        Reply::TooManyRecords => alone(alloc, "too-many-records"),
        Reply::Collecting => alone(alloc, "collecting"),
        Reply::Forgot(id) => with_id(alloc, "forgot", id),
        Reply::Kept(id) => with_id(alloc, "kept", id),
        Reply::Unknown(uuid) => with_uuid(alloc, "unknown", uuid),
        Reply::Forgotten(uuid) => with_uuid(alloc, "forgotten", uuid),
        Reply::TooManyVersions => alone(alloc, "too-many-versions"),
        Reply::Copying => alone(alloc, "copying"),
        Reply::NoMemory => alone(alloc, "no-memory"),
        Reply::Dropped(count) => with_count(alloc, "dropped", *count),
        Reply::Collected(judged) => collected(alloc, judged.as_slice()),
        Reply::Announced {
            kept,
            pruned,
            dropped,
        } => announced(alloc, *kept, *pruned, *dropped),
        Reply::Learned {
            taken,
            superseded,
            known,
        } => learned(alloc, *taken, *superseded, *known),
        Reply::Managed { heard, missed } => managed(alloc, *heard, *missed),
        Reply::Orphans {
            deleted,
            kept,
            held,
            fault,
        } => orphans(alloc, *deleted, *kept, *held, *fault),
        Reply::Copied { taken, marked } => copied(alloc, *taken, *marked),
    }
}

/// A reply of one word.
fn alone(alloc: Global, word: &str) -> Result<String, Memory>
    ensures { IfOk result (λ text. string_bytes text ≡ word.now) }
{
    let text = String::from_str(alloc, word)?;
    Ok(text)
}

/// A word and a UUID.
fn with_uuid(alloc: Global, word: &str, uuid: &Uuid) -> Result<String, Memory>
    ensures { IfOk result (λ text. string_bytes text ≡ word.now ++ 32 ∷ uuid_word uuid.now) }
{
    let uuid = uuid_word(alloc, uuid)?;
    let text = format!(in alloc; "{word} {uuid}")?;
    Ok(text)
}

/// A word and an id.
fn with_id(alloc: Global, word: &str, id: &TxnId) -> Result<String, Memory>
    ensures { IfOk result (λ text. string_bytes text ≡ word.now ++ 32 ∷ id_word id.now) }
{
    let id = id_word(alloc, id)?;
    let text = format!(in alloc; "{word} {id}")?;
    Ok(text)
}

/// A word, a node and its incarnation.
fn with_incarnation(alloc: Global, word: &str, node: u32, inc: u32) -> Result<String, Memory>
    ensures { IfOk result (λ text. string_bytes text ≡ word.now ++ 32 ∷ decimal node ++ 32 ∷ decimal inc) }
{
    let text = format!(in alloc; "{word} {node} {inc}")?;
    Ok(text)
}

/// A word and a number.
fn with_count(alloc: Global, word: &str, count: u64) -> Result<String, Memory>
    ensures { IfOk result (λ text. string_bytes text ≡ word.now ++ 32 ∷ decimal count) }
{
    let text = format!(in alloc; "{word} {count}")?;
    Ok(text)
}

/// An own value.
fn own(alloc: Global, value: &[u8]) -> Result<String, Memory>
    ensures { IfOk result (λ text. string_bytes text ≡ codes "own" ++ 32 ∷ value_word value.now) }
{
    let value = value_word(alloc, value)?;
    let text = format!(in alloc; "own {value}")?;
    Ok(text)
}

/// An id and its value.
fn id_and_value(alloc: Global, id: &TxnId, value: &[u8]) -> Result<String, Memory>
    ensures { IfOk result (λ text. string_bytes text ≡ spaced (codes "value" ∷ id_word id.now ∷ value_word value.now ∷ [])) }
{
    let id = id_word(alloc, id)?;
    let value = value_word(alloc, value)?;
    let text = format!(in alloc; "value {id} {value}")?;
    Ok(text)
}

/// A damaged name.
fn damaged(alloc: Global, name: &str) -> Result<String, Memory>
    ensures { IfOk result (λ text. string_bytes text ≡ codes "damaged" ++ 32 ∷ name.now) }
{
    let text = format!(in alloc; "damaged {name}")?;
    Ok(text)
}

/// The counts of an announcement.
fn announced(alloc: Global, kept: u64, pruned: u64, dropped: u64) -> Result<String, Memory>
    ensures { IfOk result (λ text. string_bytes text ≡ reply_text (Reply.Announced kept pruned dropped)) }
{
    let text = format!(in alloc; "announced {kept} pruned {pruned} dropped {dropped}")?;
    Ok(text)
}

/// The counts of a delivery.
fn learned(alloc: Global, taken: u64, superseded: u64, known: u64) -> Result<String, Memory>
    ensures { IfOk result (λ text. string_bytes text ≡ reply_text (Reply.Learned taken superseded known)) }
{
    let text = format!(in alloc; "learned {taken} superseded {superseded} known {known}")?;
    Ok(text)
}

/// The counts of a round of the manager.
fn managed(alloc: Global, heard: u64, missed: u64) -> Result<String, Memory>
    ensures { IfOk result (λ text. string_bytes text ≡ reply_text (Reply.Managed heard missed)) }
{
    let text = format!(in alloc; "manager heard {heard} missed {missed}")?;
    Ok(text)
}

/// The counts of a deletion of orphans.
fn orphans(alloc: Global, deleted: u64, kept: u64, held: u64, fault: u64) -> Result<String, Memory>
    ensures { IfOk result (λ text. string_bytes text ≡ reply_text (Reply.Orphans deleted kept held fault)) }
{
    let text = format!(in alloc;
        "orphans deleted {deleted} kept {kept} held {held} fault {fault}"
    )?;
    Ok(text)
}

/// The counts of a copy.
fn copied(alloc: Global, taken: u64, marked: u64) -> Result<String, Memory>
    ensures { IfOk result (λ text. string_bytes text ≡ reply_text (Reply.Copied taken marked)) }
{
    let text = format!(in alloc; "copied {taken} marked {marked}")?;
    Ok(text)
}

/// The blockers of a get.
fn no_valid_version(alloc: Global, blocked: &[Blocked]) -> Result<String, Memory>
    ensures { IfOk result (λ text. string_bytes text ≡ spaced (codes "no-valid-version" ∷ flat_map blocker_words blocked.now)) }
{
    let mut text = String::from_str(alloc, "no-valid-version")?;
    for one in blocked {
        let words = blocker(alloc, one)?;
        text.push_str(words.as_str())?;
    }
    Ok(text)
}

/// A blocker, behind a space.
fn blocker(alloc: Global, one: &Blocked) -> Result<String, Memory>
    ensures { IfOk result (λ text. string_bytes text ≡ behind (blocker_words one.now)) }
{
    let id = id_word(alloc, &one.id)?;
    let key = key_word(alloc, &one.key)?;
    let read = id_word(alloc, &one.read)?;
    let text = format!(in alloc; " {id} {key} {read}")?;
    Ok(text)
}

/// The verdicts of a collection.
fn collected(alloc: Global, judged: &[Judged]) -> Result<String, Memory>
    ensures { IfOk result (λ text. string_bytes text ≡ spaced (codes "collected" ∷ flat_map judged_words judged.now)) }
{
    let mut text = String::from_str(alloc, "collected")?;
    for one in judged {
        let words = verdict(alloc, one)?;
        text.push_str(words.as_str())?;
    }
    Ok(text)
}

/// A judged commit, behind a space.
fn verdict(alloc: Global, one: &Judged) -> Result<String, Memory>
    ensures { IfOk result (λ text. string_bytes text ≡ behind (judged_words one.now)) }
{
    let id = id_word(alloc, &one.id)?;
    let text = match one.verdict {
        Verdict::Retired => format!(in alloc; " {id} retired")?,
        Verdict::Held { node, inc } => format!(in alloc; " {id} held {node} {inc}")?,
        Verdict::Fault => format!(in alloc; " {id} fault")?,
    };
    Ok(text)
}
