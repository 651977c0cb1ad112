//! What a run that is done prints.

ghost use Rattle.std.specs.Prelude.{◌≡◌, ◌++◌, ◌∷◌, [], IfOk, None, OnOk, Some, if◌then◌else◌};
ghost use Rattle.std.specs.Fmt.{decimal};
ghost use Rattle.std.specs.List.{flat_map};
ghost use Rattle.std.specs.Option.{option_copied, option_to_list};
ghost use Rattle.std.specs.String.{string_bytes};
ghost use Rattle.indexmap.specs.IndexMap.{get};
ghost use Rattle.aft_lines.specs.Asked.{Asked, Ran};
ghost use Rattle.aft_lines.specs.FinishedText.{answer_to, line_of, printed, printed_line};
ghost use Rattle.aft_model.specs.ReplyText.{reply_text, spaced};
ghost use Rattle.aft_reply.specs.Heard.{Answers, Heard, asker_of, node_answers, office_answers, only, same_asker, shown, with_reply};

use crate::writing::text_of;
use aft_id::{Bytes, List, Memory};
use aft_model::{By, Line, NodeEntry, OfficeEntry, Reply, Script, Trace};
use indexmap::IndexMap;
use std::alloc::Global;

/// Whose line it is.
#[derive(Clone, Copy, Debug, PartialEq, Eq, Hash)]
struct Asker {
    client: u32,
    line: u32,
}

/// What was heard in answer to a line.
#[derive(Clone, Copy, Debug)]
enum Seen<'a> {
    /// This reply, once.
    Once(&'a Reply),
    /// More than one.
    Often,
}

/// The text of a run that is done: for each line of its script, in the order of the lines, the number, the client and
/// the line's answer in the trace, with a space between each two and a line feed behind. A line that has no answer, or
/// more than one, is left out.
pub fn write_text(alloc: Global, script: &Script, trace: &Trace) -> Result<Bytes, Memory>
    ensures { (asked : Asked) (ran : Ran) → asked.script ≡ script.now → ran.trace ≡ trace.now → IfOk result (λ text. text ≡ printed asked ran) }
{
    let mut answers = IndexMap::new(alloc);
    hear_nodes(&mut answers, trace.nodes.as_slice())?;
    hear_office(&mut answers, trace.office.as_slice())?;
    let text = print_lines(alloc, &answers, script.lines.as_slice())?;
    Ok(Bytes::from_vec(text))
}

/// Hears what the entries of all nodes answer.
fn hear_nodes<'a>(
    answers: &mut IndexMap<Asker, Seen<'a>>,
    nodes: &'a [List<NodeEntry>],
) -> Result<(), Memory>
    ensures { (before : Answers) → Heard (get same_asker answers.old) before → OnOk result (Heard (get same_asker answers.new) (λ line. before line ++ flat_map (node_answers line) nodes.now)) }
{
    for entries in nodes {
        hear_node(answers, entries.as_slice())?;
    }
    Ok(())
}

/// Hears what the entries of a node answer.
fn hear_node<'a>(
    answers: &mut IndexMap<Asker, Seen<'a>>,
    entries: &'a [NodeEntry],
) -> Result<(), Memory>
    ensures { (before : Answers) → Heard (get same_asker answers.old) before → OnOk result (Heard (get same_asker answers.new) (λ line. before line ++ node_answers line entries.now)) }
{
    for entry in entries {
        hear(answers, entry.by, &entry.answer)?;
    }
    Ok(())
}

/// Hears what the entries of the office answer.
fn hear_office<'a>(
    answers: &mut IndexMap<Asker, Seen<'a>>,
    entries: &'a [OfficeEntry],
) -> Result<(), Memory>
    ensures { (before : Answers) → Heard (get same_asker answers.old) before → OnOk result (Heard (get same_asker answers.new) (λ line. before line ++ office_answers line entries.now)) }
{
    for entry in entries {
        hear(answers, entry.by, &entry.answer)?;
    }
    Ok(())
}

/// Hears an entry's answer, if it gives one.
fn hear<'a>(
    answers: &mut IndexMap<Asker, Seen<'a>>,
    by: By,
    answer: &'a Option<Reply>,
) -> Result<(), Memory>
    ensures { (before : Answers) → Heard (get same_asker answers.old) before → OnOk result (Heard (get same_asker answers.new) (λ line. before line ++ option_to_list (answer_to line by answer.now))) }
{
    match answer {
        Some(reply) => {
            hear_reply(answers, asker_of(&by), reply)?;
            Ok(())
        }
        None => Ok(()),
    }
}

/// Hears a reply.
fn hear_reply<'a>(
    answers: &mut IndexMap<Asker, Seen<'a>>,
    asker: Asker,
    reply: &'a Reply,
) -> Result<(), Memory>
    ensures { (before : Answers) → Heard (get same_asker answers.old) before → OnOk result (Heard (get same_asker answers.new) (with_reply before asker reply.now)) }
{
    let seen = seen_now(answers.contains_key(&asker), reply);
    answers.insert(asker, seen)?;
    Ok(())
}

/// What is heard of a line once it is answered, given whether it was answered before.
fn seen_now(before: bool, reply: &Reply) -> Seen<'_>
    ensures { shown (Some result) ≡ (if before then Some None else Some (Some reply.now)) }
{
    if before {
        Seen::Often
    } else {
        Seen::Once(reply)
    }
}

/// Whose line it is.
fn asker_of(by: &By) -> Asker
    ensures { result ≡ asker_of by.now }
{
    Asker {
        client: by.client,
        line: by.line,
    }
}

/// What is printed for the lines of a script.
fn print_lines(
    alloc: Global,
    answers: &IndexMap<Asker, Seen>,
    lines: &[Line],
) -> Result<Vec<u8>, Memory>
    ensures { IfOk result (λ text. text.items ≡ flat_map (λ line. printed_line line (only (get same_asker answers.now (asker_of (line_of line))))) lines.now) }
{
    let mut text = Vec::new(alloc);
    for line in lines {
        print(alloc, &mut text, line, once(answers, line))?;
    }
    Ok(text)
}

/// The reply to a line that was heard once.
fn once<'a>(answers: &IndexMap<Asker, Seen<'a>>, line: &Line) -> Option<&'a Reply>
    ensures { option_copied result ≡ only (get same_asker answers.now (asker_of (line_of line.now))) }
{
    let asker = Asker {
        client: line.client,
        line: line.number,
    };
    match answers.get(&asker).copied() {
        Some(Seen::Once(reply)) => Some(reply),
        Some(Seen::Often) => None,
        None => None,
    }
}

/// Prints a line's answer, if it has one.
fn print(
    alloc: Global,
    text: &mut Vec<u8>,
    line: &Line,
    reply: Option<&Reply>,
) -> Result<(), Memory>
    ensures { OnOk result (text.new.items ≡ text.old.items ++ printed_line line.now (option_copied reply.entry)) }
{
    let Some(reply) = reply else {
        return Ok(());
    };
    let said = line_text(alloc, line, reply)?;
    text.extend_from_slice(said.as_bytes())?;
    text.push(b'\n')?;
    Ok(())
}

/// A line's number, its client and its answer.
fn line_text(alloc: Global, line: &Line, reply: &Reply) -> Result<String, Memory>
    ensures { IfOk result (λ text. string_bytes text ≡ spaced (decimal line.now.number ∷ decimal line.now.client ∷ reply_text reply.now ∷ [])) }
{
    let reply = text_of(alloc, reply)?;
    let (number, client) = (line.number, line.client);
    let text = format!(in alloc; "{number} {client} {reply}")?;
    Ok(text)
}
