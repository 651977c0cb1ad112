//! The audit of a store: all that it holds is read, and the door opened where that is sound.

ghost use Rattle.std.specs.Prelude.{◌≡◌, ◌++◌, ◌∷◌, [], IfErr, IfOk, IsErrOf, IsFalse, IsTrue, OnOk};
ghost use Rattle.aft_keeper.specs.Contents.{Ascends};
ghost use Rattle.aft_model.specs.DoorKnowledge.{is_untouched};
ghost use Rattle.aft_model.specs.Opening.{opening};
ghost use Rattle.aft_model.specs.Sound.{recorded};
ghost use Rattle.aft_door.specs.Entries.{door_opened};
ghost use Rattle.aft_audit.specs.Scans.{HasShown};
ghost use Rattle.aft_keeper.specs.Cause.{HasCause};
ghost use Rattle.aft_audit.specs.Audit.{Audits, IsRefusedFor, IsSameStore, has_read_all, shows_too_many};
ghost use Rattle.aft_audit.specs.declared.fault.AuditFault.TheVariants as faults;

use crate::fault::AuditFault;
use crate::pages::{opener, scan};
use crate::reading::record_in;
use crate::sound::offender;
use crate::versions::{get_each, names_of};
use aft_door::Door;
use aft_id::{List, Memory};
use aft_keeper::{Keeper, Pair};
use aft_records::Commit;
use std::alloc::Global;

/// Reads all records, then all markers, by pages of 64 pairs, and then each version of each record that was shown, in the order of
/// their names, all as the office for the opening; and opens the door where what was shown is sound. Gives the commits that the
/// records show, in the order of their names.
///
/// `Store` comes exactly where a call of the store failed, and `TooMany` exactly where a page shows the 20,001st name of a prefix:
/// both at once. `Damaged` comes exactly where something offends, with the first name in byte order, once all was read. `Memory` may
/// come at any time. After a refusal the door isn't open, and its history has what was read. Else nobody is up yet, and nothing was
/// deleted.
pub fn audit<K: Keeper>(alloc: Global, door: &mut Door<K>) -> Result<List<Commit>, AuditFault>
    requires { door.old.history ≡ [] }
    ensures answer { Audits result door.new.history }
    ensures untouched { OnOk result (IsTrue (is_untouched door.new.history)) }
    ensures store { IsSameStore door.old door.new }
    ensures cause { HasCause (IsErrOf result faults.Store) door.old.faults door.new.faults }
{
    let mut pairs = Vec::new(alloc);
    scan(alloc, door, "c/", &mut pairs)?;
    scan(alloc, door, "r/", &mut pairs)?;
    let commits = commits_in(alloc, &pairs)?;
    let names = names_of(alloc, &commits)?;
    Door::law_legal(door);
    get_each(door, &names, &mut pairs)?;
    Door::law_legal(door);
    open(alloc, door, pairs)?;
    Ok(List::from_vec(commits))
}

/// The commits whose records are among pairs, in their order.
fn commits_in(alloc: Global, pairs: &[Pair]) -> Result<Vec<Commit>, Memory>
    ensures { IfOk result (λ commits. commits.items ≡ recorded pairs.now) }
{
    let mut commits = Vec::new(alloc);
    for pair in pairs {
        if let Some(commit) = record_in(alloc, pair.name.as_str(), pair.bytes.as_slice())? {
            commits.push(commit)?;
        }
    }
    Ok(commits)
}

/// Opens the door, where what was shown is sound.
fn open<K: Keeper>(alloc: Global, door: &mut Door<K>, pairs: Vec<Pair>) -> Result<(), AuditFault>
    requires shown { HasShown pairs.items door.old.history }
    requires order { Ascends pairs.items }
    requires few { IsFalse (shows_too_many door.old.history) }
    requires read { IsTrue (has_read_all door.old.history) }
    ensures ok { OnOk result (door.new.history ≡ door.old.history ++ door_opened opening ∷ []) }
    ensures err { IfErr result (λ fault. IsRefusedFor fault door.new.history) }
    ensures store { IsSameStore door.old door.new }
    ensures cause { HasCause (IsErrOf result faults.Store) door.old.faults door.new.faults }
{
    match offender(alloc, &List::from_vec(pairs))? {
        Some(name) => Err(AuditFault::Damaged { name }),
        None => Ok(door.opened(opener().by)?),
    }
}
