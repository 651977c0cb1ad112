//! The gets of the opening: each version of each record, in the order of their names.

ghost use Rattle.std.specs.Prelude.{◌≡◌, ◌++◌, ◌||◌, ◌∷◌, ℕ, [], IfErr, IfOk, IsErrOf, IsTrue, List, OnOk};
ghost use Rattle.std.specs.List.{flat_map, list_any};
ghost use Rattle.std.specs.Str.{bytes_eq};
ghost use Rattle.aft_keeper.specs.Cause.{HasCause};
ghost use Rattle.aft_keeper.specs.declared.keeper.KeeperCall.TheVariants as calls;
ghost use Rattle.aft_model.specs.Opening.{is_next_read};
ghost use Rattle.aft_records.specs.Names.{name_text};
ghost use Rattle.std.specs.String.{string_bytes};
ghost use Rattle.aft_audit.specs.Audit.{IsReading, IsRefusedFor, IsSameStore, got_names, names_ascend};
ghost use Rattle.aft_audit.specs.Versions.{AreNamed, IsGetting, found_under, is_among_names, names_of, with_get};
ghost use Rattle.aft_audit.specs.declared.fault.AuditFault.TheVariants as faults;

use crate::fault::AuditFault;
use crate::pages::opener;
use aft_door::Door;
use aft_id::{Bytes, Memory, Text};
use aft_keeper::{Keeper, Pair};
use aft_records::{Commit, Name};
use std::alloc::Global;
use std::collections::BTreeMap;

/// Names by their texts.
pub(crate) type Names = BTreeMap<String, Name>;

/// The names of the versions of commits.
pub(crate) fn names_of(alloc: Global, commits: &[Commit]) -> Result<Names, Memory>
    ensures named { IfOk result (λ names. AreNamed names.entries) }
    ensures all { IfOk result (λ names. (name : List ℕ) → is_among_names name names.entries ≡ list_any (bytes_eq name) (flat_map names_of commits.now)) }
{
    let mut names = BTreeMap::new(alloc);
    for commit in commits {
        add_names(&mut names, alloc, commit)?;
    }
    Ok(names)
}

/// Adds the names of the versions of a commit.
fn add_names(names: &mut Names, alloc: Global, commit: &Commit) -> Result<(), Memory>
    requires { AreNamed names.old.entries }
    ensures named { OnOk result (AreNamed names.new.entries) }
    ensures all { OnOk result ((name : List ℕ) → is_among_names name names.new.entries ≡ (is_among_names name names.old.entries || list_any (bytes_eq name) (names_of commit.now))) }
{
    let keys = commit.keys.list();
    for key in keys {
        let key = key.clone()?;
        let id = commit.id;
        add_name(names, alloc, Name::VersionOf { key, id })?;
    }
    Ok(())
}

/// Adds a name.
fn add_name(names: &mut Names, alloc: Global, name: Name) -> Result<(), Memory>
    requires { AreNamed names.old.entries }
    ensures named { OnOk result (AreNamed names.new.entries) }
    ensures all { OnOk result ((other : List ℕ) → is_among_names other names.new.entries ≡ (is_among_names other names.old.entries || bytes_eq other (name_text name))) }
{
    let text = name.write(alloc)?;
    names.insert(text.into_string(), name)?;
    Ok(())
}

/// Gets each version, in the order of the names, and adds what is found to the pairs.
pub(crate) fn get_each<K: Keeper>(
    door: &mut Door<K>,
    names: &Names,
    pairs: &mut Vec<Pair>,
) -> Result<(), AuditFault>
    requires { IsGetting names.now.entries names.now.entries pairs.old.items door.old.history door.old.history }
    ensures ok { OnOk result (IsGetting [] names.now.entries pairs.new.items door.old.history door.new.history) }
    ensures err { IfErr result (λ fault. IsRefusedFor fault door.new.history) }
    ensures store { IsSameStore door.old door.new }
    ensures cause { HasCause (IsErrOf result faults.Store) door.old.faults door.new.faults }
{
    for (text, name) in names.iter() {
        let found = get_version(door, name)?;
        add_found(pairs, text, found)?;
    }
    Ok(())
}

/// What stands under a name.
fn get_version<K: Keeper>(door: &mut Door<K>, name: &Name) -> Result<Option<Bytes>, AuditFault>
    requires reading { IsReading door.old.history }
    requires next { IsTrue (is_next_read door.old.history (calls.Get (name_text name.now))) }
    requires later { IsTrue (names_ascend (got_names door.old.history ++ name_text name.now ∷ [])) }
    ensures ok { IfOk result (λ found. door.new.history ≡ with_get door.old.history (name_text name.now) found) }
    ensures reading { OnOk result (IsReading door.new.history) }
    ensures err { IfErr result (λ fault. IsRefusedFor fault door.new.history) }
    ensures store { IsSameStore door.old door.new }
    ensures cause { HasCause (IsErrOf result faults.Store) door.old.faults door.new.faults }
{
    Ok(door.get(opener(), name)?)
}

/// Adds what was found under a name to the pairs.
fn add_found(pairs: &mut Vec<Pair>, text: &String, found: Option<Bytes>) -> Result<(), AuditFault>
    ensures ok { OnOk result (pairs.new.items ≡ pairs.old.items ++ found_under (string_bytes text.now) found) }
    ensures err { IfErr result (λ fault. fault ≡ faults.Memory) }
{
    if let Some(bytes) = found {
        let name = Text::from_string(text.clone()?);
        pairs.push(Pair { name, bytes })?;
    }
    Ok(())
}
