//! The turns of a node, with what they ask for tested before each.

ghost use Rattle.std.specs.Option.{ForSome};
ghost use Rattle.std.specs.Prelude.{◌≡◌, ◌≤◌, ◌&&◌, Bool, IsTrue, Some};
ghost use Rattle.aft_model.specs.declared.node.NodeAct.{NodeAct as Act};
ghost use Rattle.aft_model.specs.Attempts.{same_attempt};
ghost use Rattle.aft_model.specs.ScanRun.{same_line};
ghost use Rattle.aft_model.specs.declared.node.NodeAct.TheVariants as acts;
ghost use Rattle.aft_model.specs.declared.reply.Reply.TheVariants as replies;
ghost use Rattle.aft_model.specs.NodeRules.{is_own_end, stores};
ghost use Rattle.aft_node.specs.Booting.{MayEndSo};
ghost use Rattle.aft_node.specs.Getting.{MayCome};
ghost use Rattle.aft_node.specs.Closing.{MayClose, opens_begin, opens_boot, opens_fetch, opens_finish};

use crate::goes::{AdmitGo, AnnounceGo, BootEnd, BootGo, Got, SelectGo, StartGo};
use crate::node::Node;
use aft_id::{Bytes, List, TxnId};
use aft_model::{Attempt, By, Hold, NodeAct, NodeEntry, Picked, Reply};
use aft_records::{Commit, Key};
use std::alloc::Global;
use std::process::Abort;
use uuid::Uuid;

/// A line of client 1.
pub(super) fn line(line: u32) -> By {
    By { client: 1, line }
}

/// What a client holds at node 1.
pub(super) fn held(attempt: Attempt) -> Hold {
    Hold {
        node: 1,
        attempt: Some(attempt),
    }
}

/// Tests that an attempt is of the node, and that an answer has its room.
pub(super) fn may_close(rt: &impl Abort, node: &Node, attempt: &Attempt)
    ensures room { 1 ≤ node.now.room }
    ensures node { attempt.now.node ≡ node.now.number }
{
    may_answer(rt, node);
    is_ours(rt, node, attempt);
}

/// A crash of incarnation 1 by another client, which leaves what a line of this one has opened.
#[tactic(auto, using(crate::proofs::Last::down_stays))]
pub(super) fn crash_beside(rt: &impl Abort, node: &mut Node, by: By)
    ensures { (opens : Act → Bool) → MayClose opens by node.old.history → MayClose opens by node.new.history }
{
    may_answer(rt, node);
    assert!(rt; by.client == 1);
    let other = By { client: 2, line: 1 };
    node.down(9, other, Some(1));
}

/// Bytes.
pub(super) fn bytes(rt: &impl Abort, alloc: Global, text: &[u8]) -> Bytes {
    let mut copy = Vec::new(alloc);
    for byte in text {
        copy.push(*byte).expect(rt, "memory");
    }
    Bytes::from_vec(copy)
}

/// A key.
pub(super) fn key(rt: &impl Abort, alloc: Global, text: &[u8]) -> Key {
    Key::new(alloc, text).expect(rt, "a key")
}

/// Tests that an answer has its room.
fn may_answer(rt: &impl Abort, node: &Node)
    ensures { 1 ≤ node.now.room }
{
    assert!(rt; node.room() > 0);
}

/// Tests that an attempt is of the node.
fn is_ours(rt: &impl Abort, node: &Node, attempt: &Attempt)
    ensures { attempt.now.node ≡ node.now.number }
{
    assert!(rt; attempt.node == node.number());
}

/// Whether an entry is of this line.
fn is_of(entry: &NodeEntry, by: By) -> bool
    ensures { result ≡ same_line by entry.now.by }
{
    by.client == entry.by.client && by.line == entry.by.line
}

/// Whether two attempts are the same.
fn same(one: &Attempt, other: &Attempt) -> bool
    ensures { result ≡ same_attempt one.now other.now }
{
    one.node == other.node && one.inc == other.inc && one.number == other.number
}

/// Whether an act opens a begin of this attempt.
fn begins(act: &NodeAct, attempt: &Attempt) -> bool
    ensures { result ≡ opens_begin attempt.now act.now }
{
    match act {
        NodeAct::Admit { attempt: of, .. } => same(attempt, of),
        _ => false,
    }
}

/// Whether two tests are both passed.
fn both(one: bool, other: bool) -> bool
    ensures { result ≡ (one && other) }
{
    one && other
}

/// Whether an act opens the boot of this incarnation.
fn boots(act: &NodeAct, inc: u32) -> bool
    ensures { result ≡ opens_boot inc act.now }
{
    match act {
        NodeAct::Booting { inc: of } => inc == *of,
        _ => false,
    }
}

/// Whether an act opens the fetch of this version.
fn fetches(act: &NodeAct, attempt: &Attempt, key: &Key, id: &TxnId) -> bool
    ensures { result ≡ opens_fetch attempt.now key.now id.now act.now }
{
    match act {
        NodeAct::Select {
            attempt: of,
            key: got,
            picked: Picked::Fetch(at),
        } => same(attempt, of) && key == got && id == at,
        _ => false,
    }
}

/// Whether an act opens a commit or an abort of this attempt, or stores its commit.
fn finishes(act: &NodeAct, attempt: &Attempt) -> bool
    ensures { result ≡ opens_finish attempt.now act.now }
{
    match act {
        NodeAct::Start { attempt: of, .. } => same(attempt, of),
        NodeAct::Settle { attempt: of } => same(attempt, of),
        NodeAct::Leave { attempt: of } => same(attempt, of),
        NodeAct::Stored { attempt: of, .. } => same(attempt, of),
        _ => false,
    }
}

/// Whether an act stores a commit of this id for an attempt.
fn stores(act: &NodeAct, attempt: &Attempt, id: &TxnId) -> bool
    ensures { result ≡ stores attempt.now id.now act.now }
{
    match act {
        NodeAct::Stored {
            attempt: of,
            commit,
        } => same(attempt, of) && *id == commit.id,
        _ => false,
    }
}

/// Whether the last entry is of a line, and opened its boot.
fn opened_boot(node: &Node, by: By, inc: u32) -> bool
    ensures { IsTrue result → MayClose (opens_boot inc) by node.now.history }
{
    match node.last() {
        Some(entry) => both(is_of(entry, by), boots(&entry.act, inc)),
        None => false,
    }
}

/// Tests that.
pub(super) fn may_end_boot(rt: &impl Abort, node: &Node, by: By, inc: u32)
    ensures { MayClose (opens_boot inc) by node.now.history }
{
    assert!(rt; opened_boot(node, by, inc));
}

/// Whether the last entry is of a line, and opened its begin.
fn opened_begin(node: &Node, by: By, attempt: &Attempt) -> bool
    ensures { IsTrue result → MayClose (opens_begin attempt.now) by node.now.history }
{
    match node.last() {
        Some(entry) => both(is_of(entry, by), begins(&entry.act, attempt)),
        None => false,
    }
}

/// Tests that.
pub(super) fn may_end_begin(rt: &impl Abort, node: &Node, by: By, attempt: &Attempt)
    ensures { MayClose (opens_begin attempt.now) by node.now.history }
{
    assert!(rt; opened_begin(node, by, attempt));
}

/// Whether the last entry is of a line, and opened its fetch.
fn opened_fetch(node: &Node, by: By, attempt: &Attempt, key: &Key, id: &TxnId) -> bool
    ensures { IsTrue result → MayClose (opens_fetch attempt.now key.now id.now) by node.now.history }
{
    match node.last() {
        Some(entry) => both(is_of(entry, by), fetches(&entry.act, attempt, key, id)),
        None => false,
    }
}

/// Tests that.
pub(super) fn may_end_fetch(
    rt: &impl Abort,
    node: &Node,
    by: By,
    attempt: &Attempt,
    key: &Key,
    id: &TxnId,
)
    ensures { MayClose (opens_fetch attempt.now key.now id.now) by node.now.history }
{
    assert!(rt; opened_fetch(node, by, attempt, key, id));
}

/// Whether the last entry is of a line, and opened its commit or abort.
fn opened_finish(node: &Node, by: By, attempt: &Attempt) -> bool
    ensures { IsTrue result → MayClose (opens_finish attempt.now) by node.now.history }
{
    match node.last() {
        Some(entry) => both(is_of(entry, by), finishes(&entry.act, attempt)),
        None => false,
    }
}

/// Tests that.
pub(super) fn may_finish(rt: &impl Abort, node: &Node, by: By, attempt: &Attempt)
    ensures { MayClose (opens_finish attempt.now) by node.now.history }
{
    assert!(rt; opened_finish(node, by, attempt));
}

/// Whether the last entry is of a line, and stored the commit of this id for an attempt.
fn has_stored(node: &Node, by: By, attempt: &Attempt, id: &TxnId) -> bool
    ensures { IsTrue result → IsTrue (is_own_end node.now.history by (acts.End attempt.now) (Some (replies.Committed id.now))) }
{
    match node.last() {
        Some(entry) => both(is_of(entry, by), stores(&entry.act, attempt, id)),
        None => false,
    }
}

/// The last answer.
pub(super) fn replied(node: &Node) -> Option<&Reply> {
    node.last()?.answer.as_ref()
}

/// A boot, as far as it leads.
pub(super) fn boot(rt: &impl Abort, node: &mut Node, by: By) -> BootGo {
    may_answer(rt, node);
    node.boot_first(3, by)
}

/// The end of a boot.
pub(super) fn end_boot(rt: &impl Abort, node: &mut Node, by: By, inc: u32, end: BootEnd) -> bool
    requires { MayEndSo end }
{
    may_answer(rt, node);
    may_end_boot(rt, node, by, inc);
    node.boot_end(4, by, inc, end)
}

/// A crash that fenced this incarnation, or none.
pub(super) fn crash(rt: &impl Abort, node: &mut Node, fenced: Option<u32>) {
    may_answer(rt, node);
    node.down(9, line(90), fenced);
}

/// The first turn of a begin.
pub(super) fn admit(rt: &impl Abort, node: &mut Node, by: By, uuid: u128) -> AdmitGo {
    may_answer(rt, node);
    node.admit(5, by, Uuid::from_u128(uuid))
}

/// The first turn of a forget.
pub(super) fn forget(rt: &impl Abort, node: &mut Node, by: By, uuid: u128) -> AdmitGo {
    may_answer(rt, node);
    node.admit_forget(5, by, Uuid::from_u128(uuid))
}

/// The last turn of a begin that found nothing.
pub(super) fn begun(rt: &impl Abort, node: &mut Node, by: By, attempt: Attempt) -> bool {
    may_answer(rt, node);
    is_ours(rt, node, &attempt);
    may_end_begin(rt, node, by, &attempt);
    node.admitted(6, by, attempt)
}

/// The last turn of a begin that met a fault.
pub(super) fn refuse_begin(rt: &impl Abort, node: &mut Node, by: By, attempt: Attempt) {
    may_answer(rt, node);
    is_ours(rt, node, &attempt);
    may_end_begin(rt, node, by, &attempt);
    node.unadmitted(6, by, attempt, Reply::StoreFault);
}

/// Tests that what a client holds is of the node.
fn holds_ours(rt: &impl Abort, node: &Node, hold: &Hold)
    ensures { ForSome hold.now.attempt (λ a. a.node ≡ node.now.number) }
{
    if let Some(attempt) = &hold.attempt {
        is_ours(rt, node, attempt);
    }
}

/// A put of a short value.
pub(super) fn put(rt: &impl Abort, node: &mut Node, by: By, hold: &Hold, key: Key, value: Bytes) {
    may_answer(rt, node);
    holds_ours(rt, node, hold);
    assert!(rt; value.as_slice().len() <= 4096);
    node.put(7, by, hold, key, value);
}

/// The first turn of a get.
pub(super) fn get(rt: &impl Abort, node: &mut Node, by: By, hold: &Hold, key: Key) -> SelectGo {
    may_answer(rt, node);
    holds_ours(rt, node, hold);
    node.select(7, by, hold, key)
}

/// The last turn of a get that fetched.
pub(super) fn fetched(
    rt: &impl Abort,
    node: &mut Node,
    by: By,
    attempt: Attempt,
    key: Key,
    id: TxnId,
    got: Got,
)
    requires { MayCome id got }
{
    may_answer(rt, node);
    is_ours(rt, node, &attempt);
    may_end_fetch(rt, node, by, &attempt, &key, &id);
    node.value(9, by, attempt, key, id, got, 7);
}

/// The first turn of a commit.
pub(super) fn commit(rt: &impl Abort, node: &mut Node, by: By, hold: &Hold, now: u64) -> StartGo {
    may_answer(rt, node);
    holds_ours(rt, node, hold);
    node.start(8, by, hold, now)
}

/// The first turn of an abort.
pub(super) fn abort(rt: &impl Abort, node: &mut Node, by: By, hold: &Hold) -> StartGo {
    may_answer(rt, node);
    holds_ours(rt, node, hold);
    node.leave(8, by, hold)
}

/// The turn behind a record that was put.
pub(super) fn stored(
    rt: &impl Abort,
    node: &mut Node,
    by: By,
    attempt: Attempt,
    commit: Commit,
) -> bool {
    may_answer(rt, node);
    is_ours(rt, node, &attempt);
    may_finish(rt, node, by, &attempt);
    node.stored(9, by, attempt, commit)
}

/// The last turn of a commit that met a fault.
pub(super) fn doubt(rt: &impl Abort, node: &mut Node, by: By, attempt: Attempt) {
    may_answer(rt, node);
    is_ours(rt, node, &attempt);
    may_finish(rt, node, by, &attempt);
    node.doubt(9, by, attempt, Reply::StoreFault);
}

/// The last turn of a commit that is stored.
pub(super) fn committed(rt: &impl Abort, node: &mut Node, by: By, attempt: Attempt, id: TxnId) {
    may_answer(rt, node);
    is_ours(rt, node, &attempt);
    may_finish(rt, node, by, &attempt);
    assert!(rt; has_stored(node, by, &attempt, &id));
    node.ended(9, by, attempt, Reply::Committed(id));
}

/// The last turn of an abort.
pub(super) fn aborted(rt: &impl Abort, node: &mut Node, by: By, attempt: Attempt) {
    may_answer(rt, node);
    is_ours(rt, node, &attempt);
    may_finish(rt, node, by, &attempt);
    node.ended(9, by, attempt, Reply::Aborted);
}

/// The last turn of a commit with nothing to store.
pub(super) fn left(rt: &impl Abort, node: &mut Node, by: By, attempt: Attempt) {
    may_answer(rt, node);
    is_ours(rt, node, &attempt);
    may_finish(rt, node, by, &attempt);
    node.ended(9, by, attempt, Reply::Ended);
}

/// The answer alone to an announcement whose commits were posted.
pub(super) fn announced(rt: &impl Abort, node: &mut Node) {
    may_answer(rt, node);
    let posted = Reply::Announced {
        kept: 1,
        pruned: 0,
        dropped: 2,
    };
    node.answer(12, line(94), posted);
}

/// Commits are learned.
pub(super) fn learn(rt: &impl Abort, node: &mut Node, commits: List<Commit>) {
    may_answer(rt, node);
    node.learn(10, line(91), commits);
}

/// A local collection.
pub(super) fn drop_covered(rt: &impl Abort, node: &mut Node) {
    may_answer(rt, node);
    node.drop_covered(10, line(92));
}

/// The first turn of an announcement, and how many commits it takes and leaves out; none where it answers.
pub(super) fn announce(rt: &impl Abort, node: &mut Node) -> Option<(usize, usize)> {
    may_answer(rt, node);
    match node.announce(10, line(93)) {
        AnnounceGo::Go(kept, pruned) => Some((kept.as_slice().len(), pruned.as_slice().len())),
        AnnounceGo::Answered => None,
    }
}
