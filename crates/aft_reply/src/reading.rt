//! Reading replies.

ghost use Rattle.std.specs.Prelude.{◌≡◌, ◌<◌, ◌^◌, ◌≢◌, Err, IfOk, IfSome};
ghost use Rattle.std.specs.Str.{bytes_eq};
ghost use Rattle.aft_model.specs.ReplyText.{reply_text};
ghost use Rattle.aft_model.specs.declared.reply.Reply.{Reply};
ghost use Rattle.aft_reply.specs.Gives.{Gives, Reads};
ghost use Rattle.aft_reply.specs.Limits.{IsReply, IsReplyId, IsValue};
ghost use Rattle.aft_reply.specs.Reading.{alone, announced, by_head, copied, id_and_value, learned, managed, node_and_inc, orphans, reply_of_words, take_count, take_named, with_word, with_words, words_left, words_of};

use crate::fault::ReplyFault;
use crate::head::{Head, head_of};
use crate::lists::{all_judged, blockers};
use crate::split::{first_word, nothing, one_word, take_word, two_words};
use crate::values::{count_of, id_of, name_of, node_of, uuid_of, value_of};
use crate::writing::text_of;
use aft_id::Memory;
use aft_model::Reply;
use std::alloc::Global;

/// Reads the text of a reply, as `write_reply` writes it: `BadReply` comes exactly where the text is no reply's.
///
/// Numbers have the width of their type, an id is `0` or has a time of 1 to 2^48 - 1, and a damaged name has one byte or
/// more, each 33 to 126.
pub fn read_reply(alloc: Global, text: &str) -> Result<Reply, ReplyFault>
    ensures reads { IfOk result (λ reply. IsReply reply × (reply_text reply ≡ text.now)) }
    ensures bad { result ≡ Err ReplyFault.BadReply → (reply : Reply) → IsReply reply → reply_text reply ≡ text.now → ⊥ }
{
    match reply_of(alloc, text) {
        Ok(reply) => as_written(alloc, reply, text),
        Err(fault) => Err(fault),
    }
}

/// A reply, if a text is its text.
fn as_written(alloc: Global, reply: Reply, text: &str) -> Result<Reply, ReplyFault>
    ensures same { IfOk result (λ read. (read ≡ reply) × (reply_text reply ≡ text.now)) }
    ensures bad { result ≡ Err ReplyFault.BadReply → reply_text reply ≢ text.now }
{
    if is_text_of(alloc, &reply, text)? {
        Ok(reply)
    } else {
        Err(ReplyFault::BadReply)
    }
}

/// Whether a text is a reply's.
fn is_text_of(alloc: Global, reply: &Reply, text: &str) -> Result<bool, Memory>
    ensures { IfOk result (λ same. same ≡ bytes_eq (reply_text reply.now) text.now) }
{
    let written = text_of(alloc, reply)?;
    Ok(written.as_str() == text)
}

/// The reply that a text seems to be, by its words.
fn reply_of(alloc: Global, text: &str) -> Result<Reply, ReplyFault>
    ensures value { Gives result (reply_of_words (words_of text.now)) }
    ensures fits { IfOk result IsReply }
{
    let (word, left) = first_word(text);
    match head_of(word) {
        Some(head) => by_head(alloc, head, left),
        None => Err(ReplyFault::BadReply),
    }
}

/// A reply by its first word, with what is left behind it.
fn by_head(alloc: Global, head: Head, left: Option<&str>) -> Result<Reply, ReplyFault>
    ensures value { Gives result (by_head head (words_left left.entry)) }
    ensures fits { IfOk result IsReply }
{
    match alone(head) {
        Some(reply) => nothing(reply, left),
        None => with_words(alloc, head, left),
    }
}

/// A reply that is its first word alone.
fn alone(head: Head) -> Option<Reply>
    ensures value { result ≡ alone head }
    ensures fits { IfSome result IsReply }
{
    match head {
        Head::Stored => Some(Reply::Stored),
        Head::Absent => Some(Reply::Absent),
        Head::Ended => Some(Reply::Ended),
        Head::Aborted => Some(Reply::Aborted),
        Head::StoreFault => Some(Reply::StoreFault),
        Head::InDoubt => Some(Reply::InDoubt),
        Head::NoTransaction => Some(Reply::NoTransaction),
        Head::Committing => Some(Reply::Committing),
        Head::TooManyKeys => Some(Reply::TooManyKeys),
        Head::ClockEnd => Some(Reply::ClockEnd),
        Head::TooManyRecords => Some(Reply::TooManyRecords),
        Head::Collecting => Some(Reply::Collecting),
        Head::TooManyVersions => Some(Reply::TooManyVersions),
        Head::Copying => Some(Reply::Copying),
        Head::NoMemory => Some(Reply::NoMemory),
        _ => None,
    }
}

/// A reply of its first word and one more.
fn with_word(alloc: Global, head: Head, word: &str) -> Result<Reply, ReplyFault>
    ensures value { Gives result (with_word head word.now) }
    ensures fits { IfOk result IsReply }
{
    match head {
        Head::Begun => Ok(Reply::Begun(uuid_of(word)?)),
        Head::Joined => Ok(Reply::Joined(uuid_of(word)?)),
        Head::Committed => Ok(Reply::Committed(id_of(word)?)),
        Head::Own => Ok(Reply::Own(value_of(alloc, word.as_bytes())?)),
        Head::Missing => Ok(Reply::Missing(id_of(word)?)),
        Head::Damaged => Ok(Reply::Damaged(name_of(alloc, word)?)),
        Head::OpenReads => Ok(Reply::OpenReads(count_of(word)?)),
        Head::NotUp => Ok(Reply::NotUp {
            node: node_of(word)?,
        }),
        Head::Dropped => Ok(Reply::Dropped(count_of(word)?)),
        Head::Forgot => Ok(Reply::Forgot(id_of(word)?)),
        Head::Kept => Ok(Reply::Kept(id_of(word)?)),
        Head::Unknown => Ok(Reply::Unknown(uuid_of(word)?)),
        Head::Forgotten => Ok(Reply::Forgotten(uuid_of(word)?)),
        _ => Err(ReplyFault::BadReply),
    }
}

/// A reply of its first word and others.
fn with_words(alloc: Global, head: Head, left: Option<&str>) -> Result<Reply, ReplyFault>
    ensures value { Gives result (with_words head (words_left left.entry)) }
    ensures fits { IfOk result IsReply }
{
    match head {
        Head::Busy => {
            let (node, inc) = node_and_inc(left)?;
            Ok(Reply::Busy { node, inc })
        }
        Head::Value => id_and_value(alloc, left),
        Head::NoValidVersion => Ok(Reply::NoValidVersion(blockers(alloc, left)?)),
        Head::NodeDown => {
            let (node, inc) = node_and_inc(left)?;
            Ok(Reply::NodeDown { node, inc })
        }
        Head::Crashed => {
            let (node, inc) = node_and_inc(left)?;
            Ok(Reply::Crashed { node, inc })
        }
        Head::Started => {
            let (node, inc) = node_and_inc(left)?;
            Ok(Reply::Started { node, inc })
        }
        Head::IsUp => {
            let (node, inc) = node_and_inc(left)?;
            Ok(Reply::IsUp { node, inc })
        }
        Head::IsBooting => {
            let (node, inc) = node_and_inc(left)?;
            Ok(Reply::IsBooting { node, inc })
        }
        Head::Announced => announced(left),
        Head::Learned => learned(left),
        Head::Managed => managed(left),
        Head::Collected => Ok(Reply::Collected(all_judged(alloc, left)?)),
        Head::Orphans => orphans(left),
        Head::Copied => copied(left),
        _ => {
            let word = one_word(left)?;
            with_word(alloc, head, word)
        }
    }
}

/// A node and an incarnation alone.
fn node_and_inc(left: Option<&str>) -> Result<(u32, u32), ReplyFault>
    ensures { result ≡ node_and_inc (words_left left.entry) }
{
    let (node, inc) = two_words(left)?;
    let node = node_of(node)?;
    let inc = node_of(inc)?;
    Ok((node, inc))
}

/// An id and a value alone.
fn id_and_value(alloc: Global, left: Option<&str>) -> Result<Reply, ReplyFault>
    ensures value { Gives result (id_and_value (words_left left.entry)) }
    ensures fits { IfOk result IsReply }
{
    let (id, value) = two_words(left)?;
    let id = id_of(id)?;
    let value = value_of(alloc, value.as_bytes())?;
    Ok(Reply::Value(id, value))
}

/// A number, and what is left behind it.
fn take_count(left: Option<&str>) -> Result<(u64, Option<&str>), ReplyFault>
    ensures { Reads (λ it. (it.0, words_left it.1)) result (take_count (words_left left.entry)) }
{
    let (count, left) = take_word(left)?;
    let count = count_of(count)?;
    Ok((count, left))
}

/// A number behind its name, and what is left behind it.
fn take_named<'a>(name: &str, left: Option<&'a str>) -> Result<(u64, Option<&'a str>), ReplyFault>
    ensures { Reads (λ it. (it.0, words_left it.1)) result (take_named name.now (words_left left.entry)) }
{
    let (word, left) = take_word(left)?;
    if word != name {
        return Err(ReplyFault::BadReply);
    }
    take_count(left)
}

/// The counts of an announcement.
fn announced(left: Option<&str>) -> Result<Reply, ReplyFault>
    ensures value { result ≡ announced (words_left left.entry) }
    ensures fits { IfOk result IsReply }
{
    let (kept, left) = take_count(left)?;
    let (pruned, left) = take_named("pruned", left)?;
    let (dropped, left) = take_named("dropped", left)?;
    nothing(
        Reply::Announced {
            kept,
            pruned,
            dropped,
        },
        left,
    )
}

/// The counts of a delivery.
fn learned(left: Option<&str>) -> Result<Reply, ReplyFault>
    ensures value { result ≡ learned (words_left left.entry) }
    ensures fits { IfOk result IsReply }
{
    let (taken, left) = take_count(left)?;
    let (superseded, left) = take_named("superseded", left)?;
    let (known, left) = take_named("known", left)?;
    nothing(
        Reply::Learned {
            taken,
            superseded,
            known,
        },
        left,
    )
}

/// The counts of a round of the manager.
fn managed(left: Option<&str>) -> Result<Reply, ReplyFault>
    ensures value { result ≡ managed (words_left left.entry) }
    ensures fits { IfOk result IsReply }
{
    let (heard, left) = take_named("heard", left)?;
    let (missed, left) = take_named("missed", left)?;
    nothing(Reply::Managed { heard, missed }, left)
}

/// The counts of a deletion of orphans.
fn orphans(left: Option<&str>) -> Result<Reply, ReplyFault>
    ensures value { result ≡ orphans (words_left left.entry) }
    ensures fits { IfOk result IsReply }
{
    let (deleted, left) = take_named("deleted", left)?;
    let (kept, left) = take_named("kept", left)?;
    let (held, left) = take_named("held", left)?;
    let (fault, left) = take_named("fault", left)?;
    nothing(
        Reply::Orphans {
            deleted,
            kept,
            held,
            fault,
        },
        left,
    )
}

/// The counts of a copy.
fn copied(left: Option<&str>) -> Result<Reply, ReplyFault>
    ensures value { result ≡ copied (words_left left.entry) }
    ensures fits { IfOk result IsReply }
{
    let (taken, left) = take_count(left)?;
    let (marked, left) = take_named("marked", left)?;
    nothing(Reply::Copied { taken, marked }, left)
}
