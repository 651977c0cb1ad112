//! The blockers of a get and the verdicts of a collection, read one behind the other.

ghost use Rattle.std.specs.Prelude.{◌≡◌, ◌<◌, ◌≤◌, [], All, IfOk, length};
ghost use Rattle.aft_reply.specs.Gives.{Gives, GivesBy, Reads};
ghost use Rattle.aft_reply.specs.Limits.{IsBlocker, IsJudged, IsVerdict};
ghost use Rattle.aft_reply.specs.Reading.{blocker_of, many, take_blocker, take_holder, take_judged, verdict_behind, words_left};

use crate::fault::ReplyFault;
use crate::split::take_word;
use crate::values::{id_of, key_of, node_of};
use aft_id::List;
use aft_model::{Blocked, Judged, Verdict};
use std::alloc::Global;

/// All blockers.
pub(crate) fn blockers(alloc: Global, left: Option<&str>) -> Result<List<Blocked>, ReplyFault>
    ensures value { Gives result (many take_blocker (length (words_left left.entry)) [] (words_left left.entry)) }
    ensures fits { IfOk result (All IsBlocker) }
{
    let mut blocked = Vec::new(alloc);
    let mut rest = left;
    while rest.is_some() {
        match take_blocker(alloc, rest) {
            Ok((one, behind)) => {
                blocked.push(one)?;
                rest = behind;
            }
            Err(fault) => return Err(fault),
        }
    }
    Ok(List::from_vec(blocked))
}

/// A blocker, and what is left behind it.
fn take_blocker(alloc: Global, left: Option<&str>) -> Result<(Blocked, Option<&str>), ReplyFault>
    ensures value { GivesBy (λ it. (it.0, words_left it.1)) result (take_blocker (words_left left.entry)) }
    ensures fits { IfOk result (λ it. IsBlocker it.0) }
    ensures shorter { IfOk result (λ it. length (words_left it.1) < length (words_left left.entry)) }
{
    let (id, left) = take_word(left)?;
    let (key, left) = take_word(left)?;
    let (read, left) = take_word(left)?;
    let blocker = blocker_of(alloc, id, key, read)?;
    Ok((blocker, left))
}

/// A blocker of its three words.
fn blocker_of(alloc: Global, id: &str, key: &str, read: &str) -> Result<Blocked, ReplyFault>
    ensures value { Gives result (blocker_of id.now key.now read.now) }
    ensures fits { IfOk result IsBlocker }
{
    let id = id_of(id)?;
    let key = key_of(alloc, key.as_bytes())?;
    let read = id_of(read)?;
    Ok(Blocked { id, key, read })
}

/// All judged commits.
pub(crate) fn all_judged(alloc: Global, left: Option<&str>) -> Result<List<Judged>, ReplyFault>
    ensures value { Gives result (many take_judged (length (words_left left.entry)) [] (words_left left.entry)) }
    ensures fits { IfOk result (All IsJudged) }
{
    let mut judged = Vec::new(alloc);
    let mut rest = left;
    while rest.is_some() {
        match take_judged(rest) {
            Ok((one, behind)) => {
                judged.push(one)?;
                rest = behind;
            }
            Err(fault) => return Err(fault),
        }
    }
    Ok(List::from_vec(judged))
}

/// A judged commit, and what is left behind it.
fn take_judged(left: Option<&str>) -> Result<(Judged, Option<&str>), ReplyFault>
    ensures value { Reads (λ it. (it.0, words_left it.1)) result (take_judged (words_left left.entry)) }
    ensures fits { IfOk result (λ it. IsJudged it.0) }
    ensures shorter { IfOk result (λ it. length (words_left it.1) < length (words_left left.entry)) }
{
    let (id, left) = take_word(left)?;
    let (kind, left) = take_word(left)?;
    let id = id_of(id)?;
    let (verdict, left) = verdict_behind(kind, left)?;
    Ok((Judged { id, verdict }, left))
}

/// The verdict that a word begins, and what is left behind it.
fn verdict_behind<'a>(
    kind: &str,
    left: Option<&'a str>,
) -> Result<(Verdict, Option<&'a str>), ReplyFault>
    ensures value { Reads (λ it. (it.0, words_left it.1)) result (verdict_behind kind.now (words_left left.entry)) }
    ensures fits { IfOk result (λ it. IsVerdict it.0) }
    ensures shorter { IfOk result (λ it. length (words_left it.1) ≤ length (words_left left.entry)) }
{
    match kind {
        "retired" => Ok((Verdict::Retired, left)),
        "held" => take_holder(left),
        "fault" => Ok((Verdict::Fault, left)),
        _ => Err(ReplyFault::BadReply),
    }
}

/// Who holds a commit, and what is left behind it.
fn take_holder(left: Option<&str>) -> Result<(Verdict, Option<&str>), ReplyFault>
    ensures value { Reads (λ it. (it.0, words_left it.1)) result (take_holder (words_left left.entry)) }
    ensures fits { IfOk result (λ it. IsVerdict it.0) }
    ensures shorter { IfOk result (λ it. length (words_left it.1) ≤ length (words_left left.entry)) }
{
    let (node, left) = take_word(left)?;
    let (inc, left) = take_word(left)?;
    let node = node_of(node)?;
    let inc = node_of(inc)?;
    Ok((Verdict::Held { node, inc }, left))
}
