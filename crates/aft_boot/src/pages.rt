//! The pages of a start's scan of the records.

ghost use Rattle.std.specs.Prelude.{◌≡◌, ◌<◌, ◌≤◌, ℕ, IfErr, IfOk, IsTrue, List};
ghost use Rattle.aft_boot.specs.Booted.{made_at, may_call_at, told_fault_at};
ghost use Rattle.aft_boot.specs.BootView.{Fits, HasListed, behind_page, left_at};
ghost use Rattle.aft_boot.specs.Pages.{LeadsTo, Reads, ReadsTo, StopsPage, are_records};
ghost use Rattle.aft_boot.specs.declared.stage.Stage.TheVariants as stages;
ghost use Rattle.aft_keeper.specs.Cause.{HasCause};
ghost use Rattle.aft_model.specs.DoorKnowledge.{is_open};
ghost use Rattle.aft_model.specs.ScanRun.{next_after};
ghost use Rattle.aft_turns.specs.Steps.{SameStore, StepsAtDoor};

use crate::comings::{refusal, stop};
use crate::reading::with_commits;
use crate::stage::Stage;
use aft_door::{Door, DoorFault};
use aft_id::{List, Text};
use aft_keeper::{Keeper, Pair};
use aft_model::{By, Caller, Reply};
use aft_node::BootEnd;
use aft_records::Commit;
use std::alloc::{AllocError, Global};

/// The most names of records.
const MOST: usize = 20_000;

/// A page of the records, and how far it leads.
pub(crate) fn scan<K: Keeper>(
    alloc: Global,
    door: &mut Door<K>,
    by: By,
    node: u32,
    inc: u32,
    after: Text,
    listed: usize,
    commits: List<Commit>,
) -> Stage
    requires open { IsTrue (is_open door.old.history) }
    requires fits { HasListed after listed commits }
    ensures left { left_at result < left_at (stages.Scans inc after listed commits) }
    ensures fits { Fits result }
    ensures steps { may_call_at by node (stages.Scans inc after listed commits) door.old.history → StepsAtDoor by (made_at by node (stages.Scans inc after listed commits)) (made_at by node result) door.old.history door.new.history }
    ensures cause { HasCause (IsTrue (told_fault_at result)) door.old.faults door.new.faults }
    ensures store { SameStore door.old door.new }
{
    let who = Caller { node, inc, by };
    let told = door.scan(who, "c/", after.as_str(), 64);
    Door::law_legal(door);
    lead(alloc, node, inc, listed, commits, told)
}

/// How far a call for a page leads.
fn lead(
    alloc: Global,
    node: u32,
    inc: u32,
    listed: usize,
    commits: List<Commit>,
    told: Result<List<Pair>, DoorFault>,
) -> Stage
    requires under { IfOk told (λ page. IsTrue (are_records page)) }
    requires few { listed ≤ 20000 }
    ensures { LeadsTo node inc listed commits told result }
{
    match told {
        Ok(page) => read(alloc, inc, page, listed, commits),
        Err(fault) => stop(inc, refusal(fault, node, inc)),
    }
}

/// How far a page leads.
fn read(alloc: Global, inc: u32, page: List<Pair>, listed: usize, commits: List<Commit>) -> Stage
    requires under { IsTrue (are_records page) }
    requires few { listed ≤ 20000 }
    ensures { ReadsTo page inc listed commits result }
{
    let shown = page.as_slice();
    let count = shown.len();
    match read_page(alloc, shown, listed, commits) {
        Ok((commits, next)) => go_on(inc, listed + count, commits, next),
        Err(reply) => stop(inc, reply),
    }
}

/// That a scan goes on behind a name, or has come to its end.
fn go_on(inc: u32, listed: usize, commits: List<Commit>, next: Option<Text>) -> Stage
    ensures { result ≡ behind_page inc listed commits next }
{
    match next {
        Some(after) => Stage::Scans {
            inc,
            after,
            listed,
            commits,
        },
        None => Stage::Ends {
            inc,
            end: BootEnd::Shown(commits),
        },
    }
}

/// The commits with those that a page shows, and the name behind which the next page begins; or what is to be answered.
fn read_page(
    alloc: Global,
    page: &[Pair],
    listed: usize,
    commits: List<Commit>,
) -> Result<(List<Commit>, Option<Text>), Reply>
    requires under { IsTrue (are_records page.now) }
    requires few { listed ≤ 20000 }
    ensures ok { IfOk result (λ read. Reads page.now listed commits read.0 × ((from : List ℕ) → read.1 ≡ next_after (record { after = from; listed = page.now }))) }
    ensures err { IfErr result (λ reply. StopsPage listed page.now reply) }
{
    if page.len() > MOST - listed {
        return Err(Reply::TooManyRecords);
    }
    let commits = with_commits(alloc, page, commits)?;
    match name_behind(page) {
        Ok(next) => Ok((commits, next)),
        Err(_) => Err(Reply::NoMemory),
    }
}

/// The name behind which the next page begins, after a full page.
fn name_behind(page: &[Pair]) -> Result<Option<Text>, AllocError>
    ensures { IfOk result (λ next. (from : List ℕ) → next ≡ next_after (record { after = from; listed = page.now })) }
{
    if page.len() < 64 {
        return Ok(None);
    }
    match page.last() {
        Some(pair) => Ok(Some(pair.name.clone()?)),
        None => Ok(None),
    }
}
