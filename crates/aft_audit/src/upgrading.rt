//! The upgrade: records of the first format are put anew in the second.

ghost use Rattle.std.specs.Prelude.{◌≡◌, ◌≤◌, ◌∷◌, [], IfErr, IfOk, IsErrOf, IsTrue, List, Ok, Some, true};
ghost use Rattle.aft_keeper.specs.Cause.{HasCause};
ghost use Rattle.aft_keeper.specs.declared.keeper.KeeperCall.TheVariants as calls;
ghost use Rattle.aft_model.specs.DoorKnowledge.{is_untouched, shows_first_format};
ghost use Rattle.aft_model.specs.Readings.{record_name, written_in};
ghost use Rattle.aft_records.specs.declared.stored.Commit as stored;
ghost use Rattle.aft_records.specs.Names.{name_text};
ghost use Rattle.aft_records.specs.Stored.{IsCommit};
ghost use Rattle.aft_audit.specs.Audit.{IsSameStore};
ghost use Rattle.aft_audit.specs.Pairs.{pair_of};
ghost use Rattle.aft_audit.specs.Upgrading.{HasPassed, HasStopped, Upgrades, format_found};
ghost use Rattle.aft_audit.specs.Versions.{with_get};
ghost use Rattle.aft_audit.specs.declared.fault.AuditFault.TheVariants as faults;

use crate::fault::AuditFault;
use crate::pages::opener;
use crate::reading::{record_in, written_in};
use aft_door::Door;
use aft_id::{Bytes, List, Memory};
use aft_keeper::Keeper;
use aft_records::{Commit, Name};
use std::alloc::Global;

/// Gets the record of each of these commits, in their order, as the office for the opening, and puts those that are of the first
/// format in the second. Gives the number of puts. The audit's commits are handed in, in their order, over its open door, before
/// anybody comes up or anything is deleted.
///
/// `Store` comes exactly where a call of the store failed, and `Damaged` exactly where a get shows no record of its commit, with
/// the record's name: both at once. `Memory` may come at any time, and `TooMany` never comes. What was put by then stays.
/// Behind it too nobody is up, and nothing was deleted.
pub fn upgrade<K: Keeper>(
    alloc: Global,
    door: &mut Door<K>,
    commits: &List<Commit>,
) -> Result<u64, AuditFault>
    requires { IsTrue (is_untouched door.old.history) }
    ensures answer { Upgrades commits.now result door.old.history door.new.history }
    ensures untouched { IsTrue (is_untouched door.new.history) }
    ensures store { IsSameStore door.old door.new }
    ensures cause { HasCause (IsErrOf result faults.Store) door.old.faults door.new.faults }
{
    let commits = commits.as_slice();
    let mut puts = 0;
    for commit in commits {
        puts += upgrade_record(alloc, door, commit)?;
    }
    Ok(puts)
}

/// Puts the record of a commit in the second format, if it is of the first. Gives the number of puts, which is 0 or 1.
fn upgrade_record<K: Keeper>(
    alloc: Global,
    door: &mut Door<K>,
    commit: &Commit,
) -> Result<u64, AuditFault>
    requires { IsTrue (is_untouched door.old.history) }
    ensures untouched { IsTrue (is_untouched door.new.history) }
    ensures few { IfOk result (λ puts. puts ≤ 1) }
    ensures ok { IfOk result (λ puts. (others : List stored.Commit) → HasPassed (commit.now ∷ others) others puts door.old.history door.new.history) }
    ensures err { IfErr result (λ fault. (others : List stored.Commit) → HasStopped fault (commit.now ∷ others) door.old.history door.new.history) }
    ensures store { IsSameStore door.old door.new }
    ensures cause { HasCause (IsErrOf result faults.Store) door.old.faults door.new.faults }
{
    let uuid = commit.id.uuid;
    let name = Name::CommitOf { uuid };
    let text = name.write(alloc)?;
    let found = door.get(opener(), &name)?;
    match format_of(alloc, text.as_str(), found, commit)? {
        Some(true) => {
            door.put_upgrade(opener(), commit)?;
            Ok(1)
        }
        Some(false) => Ok(0),
        None => Err(AuditFault::Damaged { name: text }),
    }
}

/// Whether what was found under the name of a commit's record is that record in the first format, or in the second: `None` where it
/// is no record of it.
fn format_of(
    alloc: Global,
    name: &str,
    found: Option<Bytes>,
    commit: &Commit,
) -> Result<Option<bool>, Memory>
    requires { name.now ≡ record_name commit.now.id.uuid }
    ensures format { IfOk result (λ format. format ≡ format_found commit.now found) }
    ensures limits { result ≡ Ok (Some true) → IsCommit commit.now }
{
    let Some(bytes) = found else {
        return Ok(None);
    };
    match record_in(alloc, name, bytes.as_slice())? {
        Some(other) if *commit == other => {
            Ok(Some(written_in(alloc, name, bytes.as_slice())?.is_none()))
        }
        _ => Ok(None),
    }
}
