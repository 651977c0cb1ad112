//! The ids of the known commits that others supersede, as one more commit comes.

ghost use Rattle.std.specs.Prelude.{◌≡◌, ◌&&◌, ◌||◌, false, not, IsFalse, OnOk, OnErr};
ghost use Rattle.std.specs.List.{list_all};
ghost use Rattle.aft_id.specs.TxnId.{id_lt};
ghost use Rattle.aft_id.specs.declared.txn_id.TxnId.{TxnId};
ghost use Rattle.aft_records.specs.Commits.{greatest, has_id, is_listed, with_id_order};
ghost use Rattle.aft_records.specs.Superseded.{is_superseded, wrote};
ghost use Rattle.aft_meta.specs.Index.{IsIndex, IsNoted, commits_of, exceeds, ids_under, is_newest_of, is_some_id};
ghost use Rattle.aft_meta.specs.KnownCommits.{supersedes_id};

use crate::ids::Ids;
use crate::known::{Commits, wrote};
use crate::writers::{Writers, is_exceeded, newest};
use aft_id::{Memory, TxnId};
use aft_records::{Commit, Key};

/// Notes the ids of those known commits that one more commit would supersede with the others. Where memory runs out nothing
/// changes.
pub(crate) fn note_superseded(
    superseded: &mut Ids,
    commits: &Commits,
    writers: &Writers,
    commit: &Commit,
) -> Result<(), Memory>
    requires index { IsIndex commits.now.entries writers.now.entries }
    requires new { has_id commit.now.id (commits_of commits.now.entries) ≡ false }
    requires stands { is_superseded commit.now (commits_of commits.now.entries) ≡ false }
    requires noted { IsNoted superseded.old (commits_of commits.now.entries) }
    ensures ok { OnOk result (IsNoted superseded.new (with_id_order (commits_of commits.now.entries) commit.now)) }
    ensures err { OnErr result (IsNoted superseded.new (commits_of commits.now.entries)) }
{
    match note_each(superseded, commits, writers, commit) {
        Ok(()) => Ok(()),
        Err(Memory) => {
            forget_newest(superseded, writers, commit.keys.list());
            Err(Memory)
        }
    }
}

/// The same, as far as memory lasts.
fn note_each(
    superseded: &mut Ids,
    commits: &Commits,
    writers: &Writers,
    commit: &Commit,
) -> Result<(), Memory>
    requires index { IsIndex commits.now.entries writers.now.entries }
    requires new { has_id commit.now.id (commits_of commits.now.entries) ≡ false }
    requires stands { is_superseded commit.now (commits_of commits.now.entries) ≡ false }
    ensures ok { OnOk result ((v : TxnId) → is_listed v superseded.new ≡ (is_listed v superseded.old || (is_newest_of commit.now.keys v writers.now.entries && supersedes_id v (with_id_order (commits_of commits.now.entries) commit.now)))) }
    ensures err { OnErr result ((v : TxnId) → (is_listed v superseded.new || is_newest_of commit.now.keys v writers.now.entries) ≡ (is_listed v superseded.old || is_newest_of commit.now.keys v writers.now.entries)) }
{
    let own = commit.keys.list();
    for key in own {
        if let Err(Memory) = note_newest(superseded, commits, writers, key, commit) {
            return Err(Memory);
        }
    }
    Ok(())
}

/// Notes the id of the newest writer of a key, if one more commit would supersede it with the others. Where memory runs out
/// nothing changes.
fn note_newest(
    superseded: &mut Ids,
    commits: &Commits,
    writers: &Writers,
    key: &Key,
    commit: &Commit,
) -> Result<(), Memory>
    requires index { IsIndex commits.now.entries writers.now.entries }
    requires new { has_id commit.now.id (commits_of commits.now.entries) ≡ false }
    requires stands { is_superseded commit.now (commits_of commits.now.entries) ≡ false }
    ensures ok { OnOk result ((v : TxnId) → is_listed v superseded.new ≡ (is_listed v superseded.old || (is_some_id v (greatest (ids_under key.now writers.now.entries)) && supersedes_id v (with_id_order (commits_of commits.now.entries) commit.now)))) }
    ensures err { OnErr result (superseded.new ≡ superseded.old) }
{
    let Some(id) = newest(writers, key) else {
        return Ok(());
    };
    if !would_be_over(commits, writers, commit, &id) {
        return Ok(());
    }
    superseded.add(&id)?;
    Ok(())
}

/// Whether a commit of an id is known that one more would supersede with the others.
fn would_be_over(commits: &Commits, writers: &Writers, commit: &Commit, id: &TxnId) -> bool
    requires index { IsIndex commits.now.entries writers.now.entries }
    requires new { has_id commit.now.id (commits_of commits.now.entries) ≡ false }
    requires stands { is_superseded commit.now (commits_of commits.now.entries) ≡ false }
    ensures { result ≡ supersedes_id id.now (with_id_order (commits_of commits.now.entries) commit.now) }
{
    match commits.get(id) {
        Some(known) => are_over(writers, commit, known.keys.list(), id),
        None => false,
    }
}

/// Whether each of some keys has a writer above an id, be it one more commit.
fn are_over(writers: &Writers, commit: &Commit, keys: &[Key], id: &TxnId) -> bool
    ensures { result ≡ list_all (λ key. exceeds id.now (greatest (ids_under key writers.now.entries)) || (wrote key commit.now && id_lt id.now commit.now.id)) keys.now }
{
    keys.iter().all(|key| is_exceeded(writers, key, id) || overwrites(commit, key, id))
}

/// Whether a commit wrote a key above an id.
fn overwrites(commit: &Commit, key: &Key, id: &TxnId) -> bool
    ensures { result ≡ (wrote key.now commit.now && id_lt id.now commit.now.id) }
{
    wrote(commit, key) && id.is_before(&commit.id)
}

/// Takes away the ids of the newest writers of some keys. Takes no memory.
pub(crate) fn forget_newest(superseded: &mut Ids, writers: &Writers, keys: &[Key])
    ensures { (v : TxnId) → is_listed v superseded.new ≡ (is_listed v superseded.old && not (is_newest_of keys.now v writers.now.entries)) }
{
    for key in keys {
        if let Some(id) = newest(writers, key) {
            superseded.take(&id);
        }
    }
}
