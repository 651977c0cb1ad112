//! The scans of the opening: all records, and all markers, page by page.

ghost use Rattle.std.specs.Prelude.{◌≡◌, ◌++◌, ◌∷◌, ℕ, [], List, IfErr, IfOk, IsErrOf, IsFalse, IsTrue, None, OnOk, Some};
ghost use Rattle.aft_keeper.specs.Cause.{HasCause};
ghost use Rattle.aft_keeper.specs.declared.keeper.KeeperCall.TheVariants as calls;
ghost use Rattle.aft_model.specs.Opening.{is_next_read};
ghost use Rattle.aft_model.specs.ScanRun.{next_after};
ghost use Rattle.aft_audit.specs.Audit.{IsReading, IsRefusedFor, IsSameStore, are_too_many, opener};
ghost use Rattle.aft_audit.specs.Scans.{HasPage, HasShown, IsScanning, IsTurnOf, page_entry, pages_of};
ghost use Rattle.aft_audit.specs.declared.fault.AuditFault.TheVariants as faults;

use crate::fault::AuditFault;
use aft_door::Door;
use aft_id::{List, Text};
use aft_keeper::{Keeper, Pair};
use aft_model::{By, Caller};
use std::alloc::Global;

/// The most names of a prefix.
const MOST: usize = 20_000;

/// The office, in the opening.
pub(crate) fn opener() -> Caller
    ensures { result ≡ opener }
{
    let by = By { client: 0, line: 0 };
    Caller {
        node: 0,
        inc: 1,
        by,
    }
}

/// Scans a prefix to its end, and adds what is shown to the pairs.
pub(crate) fn scan<K: Keeper>(
    alloc: Global,
    door: &mut Door<K>,
    prefix: &str,
    pairs: &mut Vec<Pair>,
) -> Result<(), AuditFault>
    requires shown { HasShown pairs.old.items door.old.history }
    requires turn { IsTurnOf prefix.now door.old.history }
    requires unread { pages_of prefix.now door.old.history ≡ [] }
    ensures ok { OnOk result (IsScanning prefix.now None pairs.old.items pairs.new.items door.old.history door.new.history) }
    ensures few { OnOk result (IsFalse (are_too_many (pages_of prefix.now door.new.history))) }
    ensures err { IfErr result (λ fault. IsRefusedFor fault door.new.history) }
    ensures store { IsSameStore door.old door.new }
    ensures cause { HasCause (IsErrOf result faults.Store) door.old.faults door.new.faults }
{
    let known = pairs.len();
    let mut from = Some(Text::from_string(String::new(alloc)));
    while let Some(after) = from {
        from = read_page(door, prefix, &after, pairs)?;
        if pairs.len() - known > MOST {
            return Err(AuditFault::TooMany);
        }
    }
    Ok(())
}

/// Reads the next page of a prefix, behind a name, and adds it to the pairs. It gives the name behind which the run goes on.
fn read_page<K: Keeper>(
    door: &mut Door<K>,
    prefix: &str,
    after: &Text,
    pairs: &mut Vec<Pair>,
) -> Result<Option<Text>, AuditFault>
    requires reading { IsReading door.old.history }
    requires next { IsTrue (is_next_read door.old.history (calls.Scan prefix.now after.now 64)) }
    ensures ok { IfOk result (λ next. HasPage prefix.now after.now next pairs.old.items pairs.new.items door.old.history door.new.history) }
    ensures err { IfErr result (λ fault. IsRefusedFor fault door.new.history) }
    ensures store { IsSameStore door.old door.new }
    ensures cause { HasCause (IsErrOf result faults.Store) door.old.faults door.new.faults }
{
    let page = scan_page(door, prefix, after.as_str())?;
    let next = next_after(page.as_slice())?;
    add_page(pairs, page)?;
    Ok(next)
}

/// A page of a prefix, behind a name.
fn scan_page<K: Keeper>(
    door: &mut Door<K>,
    prefix: &str,
    after: &str,
) -> Result<List<Pair>, AuditFault>
    requires reading { IsReading door.old.history }
    requires next { IsTrue (is_next_read door.old.history (calls.Scan prefix.now after.now 64)) }
    ensures ok { IfOk result (λ page. door.new.history ≡ door.old.history ++ page_entry prefix.now after.now page ∷ []) }
    ensures err { IfErr result (λ fault. IsRefusedFor fault door.new.history) }
    ensures store { IsSameStore door.old door.new }
    ensures cause { HasCause (IsErrOf result faults.Store) door.old.faults door.new.faults }
{
    Ok(door.scan(opener(), prefix, after, 64)?)
}

/// The name behind which the next page begins, after a full page.
fn next_after(page: &[Pair]) -> Result<Option<Text>, AuditFault>
    ensures ok { IfOk result (λ next. (after : List ℕ) → next ≡ next_after (record { after = after; listed = page.now })) }
    ensures err { IfErr result (λ fault. fault ≡ faults.Memory) }
{
    if page.len() < 64 {
        return Ok(None);
    }
    match page.last() {
        Some(pair) => Ok(Some(pair.name.clone()?)),
        None => Ok(None),
    }
}

/// Adds the pairs of a page to others.
fn add_page(pairs: &mut Vec<Pair>, page: List<Pair>) -> Result<(), AuditFault>
    ensures ok { OnOk result (pairs.new.items ≡ pairs.old.items ++ page) }
    ensures err { IfErr result (λ fault. fault ≡ faults.Memory) }
{
    let mut page = page.into_vec();
    pairs.append(&mut page)?;
    Ok(())
}
