//! What the pairs of a page of records show: a commit each, or damage.

ghost use Rattle.std.specs.Prelude.{◌≡◌, ◌⊎◌, ◌<◌, ◌++◌, ◌∷◌, [], IfErr, IfOk, IsTrue, OnOk, if◌then◌else◌};
ghost use Rattle.aft_boot.specs.Pages.{IsDamage, IsNotRead, are_records, is_record};
ghost use Rattle.aft_lines.specs.CausesScans.{written_name};
ghost use Rattle.aft_model.specs.Readings.{has_reading, records_in};
ghost use Rattle.aft_model.specs.Sound.{recorded};
ghost use Rattle.aft_records.specs.Limits.{is_key_byte};
ghost use Rattle.std.specs.List.{list_all};

use aft_audit::record_in;
use aft_id::{List, Memory, Text};
use aft_keeper::Pair;
use aft_model::Reply;
use aft_records::Commit;
use std::alloc::{AllocError, Global};

/// Commits with those that pairs show, in their order; or that the first pair without a reading is damage, or `NoMemory`.
pub(crate) fn with_commits(
    alloc: Global,
    pairs: &[Pair],
    commits: List<Commit>,
) -> Result<List<Commit>, Reply>
    requires { IsTrue (are_records pairs.now) }
    ensures shown { IfOk result (λ all. all ≡ commits ++ recorded pairs.now) }
    ensures readable { IfOk result (λ all. IsTrue (list_all has_reading pairs.now)) }
    ensures err { IfErr result (λ reply. IsNotRead pairs.now reply) }
{
    let mut commits = commits.into_vec();
    for pair in pairs {
        let commit = commit_in(alloc, pair)?;
        add(&mut commits, commit)?;
    }
    Ok(List::from_vec(commits))
}

/// Adds a commit to others; `NoMemory` where there is no room.
fn add(commits: &mut Vec<Commit>, commit: Commit) -> Result<(), Reply>
    ensures ok { OnOk result (commits.new.items ≡ commits.old.items ++ commit ∷ []) }
    ensures err { IfErr result (λ reply. reply ≡ Reply.NoMemory) }
{
    match commits.push(commit) {
        Ok(()) => Ok(()),
        Err(_) => Err(Reply::NoMemory),
    }
}

/// The commit whose record a pair is, or that it is damage, or `NoMemory`.
fn commit_in(alloc: Global, pair: &Pair) -> Result<Commit, Reply>
    requires { IsTrue (is_record pair.now) }
    ensures ok { IfOk result (λ commit. records_in pair.now ≡ commit ∷ []) }
    ensures err { IfErr result (λ reply. IsDamage pair.now reply) }
{
    match record_in(alloc, pair.name.as_str(), pair.bytes.as_slice()) {
        Ok(Some(commit)) => Ok(commit),
        Ok(None) => Err(damaged(alloc, pair.name.as_str())),
        Err(Memory) => Err(Reply::NoMemory),
    }
}

/// That what stands under a name is damaged, or `NoMemory`.
fn damaged(alloc: Global, name: &str) -> Reply
    ensures { (result ≡ Reply.Damaged (written_name name.now)) ⊎ (result ≡ Reply.NoMemory) }
{
    match written(alloc, name) {
        Ok(text) => Reply::Damaged(text),
        Err(_) => Reply::NoMemory,
    }
}

/// A name as a reply writes it: a byte outside 33 to 126 is written `?`.
fn written(alloc: Global, name: &str) -> Result<Text, AllocError>
    ensures { IfOk result (λ text. text ≡ written_name name.now) }
{
    let mut text = String::new(alloc);
    for byte in name.as_bytes() {
        text.push(shown(*byte))?;
    }
    Ok(Text::from_string(text))
}

/// A byte of a name as a reply writes it.
fn shown(byte: u8) -> char
    ensures value { result ≡ (if is_key_byte byte then byte else 63) }
    ensures ascii { result < 128 }
{
    if (33..=126).contains(&byte) {
        byte as char
    } else {
        '?'
    }
}
