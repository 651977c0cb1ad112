//! What no clause says: that each turn comes to its answer where memory is ample, and to each refusal.

ghost use Rattle.std.specs.Prelude.{◌<◌};

mod play;

use crate::goes::{AdmitGo, BootEnd, BootGo, Got, SelectGo, StartGo};
use crate::node::Node;
use aft_id::{List, TxnId};
use aft_model::{Attempt, By, Caller, Hold, Reply};
use aft_records::{Commit, Keys, Record};
use play::{
    abort, aborted, admit, announce, announced, begun, boot, bytes, commit, committed, crash,
    crash_beside, doubt, drop_covered, end_boot, fetched, forget, get, held, key, learn, left,
    line, may_close, may_end_begin, may_end_boot, may_end_fetch, may_finish, put, refuse_begin,
    replied, stored,
};
use std::alloc::Global;
use std::process::Abort;
use uuid::Uuid;

/// A node that serves, with no commit.
fn serving(rt: &impl Abort, alloc: Global) -> Node {
    let mut node = Node::new(alloc, 1, 4, 90).expect(rt, "memory");
    let go = boot(rt, &mut node, line(1));
    let by = line(1);
    assert!(rt;
        go == BootGo::Go(Caller {
            node: 1,
            inc: 1,
            by
        })
    );
    let shown = BootEnd::Shown(List::from_vec(Vec::new(alloc)));
    assert!(rt; end_boot(rt, &mut node, by, 1, shown));
    assert!(rt; matches!(replied(&node), Some(Reply::Started { node: 1, inc: 1 })));
    node
}

/// An attempt that runs, by lines from this number on.
fn running(rt: &impl Abort, node: &mut Node, number: u32, uuid: u128) -> Attempt {
    let by = line(number);
    match admit(rt, node, by, uuid) {
        AdmitGo::Go(_, attempt) => {
            assert!(rt; begun(rt, node, by, attempt));
            assert!(rt; matches!(replied(node), Some(Reply::Begun(_))));
            attempt
        }
        _ => panic!(rt; "not admitted"),
    }
}

/// The record that a commit leads to, with how many values.
fn storing(rt: &impl Abort, go: StartGo) -> (Record, usize) {
    match go {
        StartGo::Store(_, record, values) => (record, values.as_slice().len()),
        _ => panic!(rt; "nothing is stored"),
    }
}

/// An attempt that puts `x` commits at this time, and the id is answered.
fn write(
    rt: &impl Abort,
    alloc: Global,
    node: &mut Node,
    number: u32,
    uuid: u128,
    now: u64,
) -> TxnId
    requires { number < 100 }
{
    let attempt = running(rt, node, number, uuid);
    let by = line(number + 1);
    put(
        rt,
        node,
        by,
        &held(attempt),
        key(rt, alloc, b"x"),
        bytes(rt, alloc, b"hi"),
    );
    assert!(rt; matches!(replied(node), Some(Reply::Stored)));
    let by = line(number + 2);
    let (record, values) = storing(rt, commit(rt, node, by, &held(attempt), now));
    let Record { commit, origin } = record;
    assert!(rt; values == 1 && commit.keys.list().len() == 1);
    assert!(rt; origin.node == 1 && origin.inc == 1);
    let id = commit.id;
    assert!(rt; stored(rt, node, by, attempt, commit));
    committed(rt, node, by, attempt, id);
    assert!(rt; matches!(replied(node), Some(Reply::Committed(told)) if *told == id));
    id
}

/// A commit is written and read, from the store and from what is kept, announced, superseded, given up and dropped.
#[test]
fn commits(rt: HostRuntime) {
    let alloc = rt.alloc();
    let mut node = serving(&rt, alloc);
    let first = write(&rt, alloc, &mut node, 2, 1, 1000);
    assert!(rt; first.time == 1000);
    let attempt = running(&rt, &mut node, 5, 2);
    let go = get(
        &rt,
        &mut node,
        line(6),
        &held(attempt),
        key(&rt, alloc, b"x"),
    );
    let fetches = matches!(go, SelectGo::Fetch(_, id) if id == first);
    assert!(rt; fetches);
    let value = Got::Version(bytes(&rt, alloc, b"hi"));
    fetched(
        &rt,
        &mut node,
        line(6),
        attempt,
        key(&rt, alloc, b"x"),
        first,
        value,
    );
    assert!(rt;
        matches!(replied(&node), Some(Reply::Value(id, value)) if *id == first && value.as_slice() == b"hi".as_slice())
    );
    let go = get(
        &rt,
        &mut node,
        line(7),
        &held(attempt),
        key(&rt, alloc, b"x"),
    );
    assert!(rt; go == SelectGo::Answered);
    assert!(rt; matches!(replied(&node), Some(Reply::Value(id, _)) if *id == first));
    let go = get(
        &rt,
        &mut node,
        line(8),
        &held(attempt),
        key(&rt, alloc, b"y"),
    );
    assert!(rt; go == SelectGo::Answered && matches!(replied(&node), Some(Reply::Absent)));
    let go = commit(&rt, &mut node, line(9), &held(attempt), 1000);
    assert!(rt; matches!(&go, StartGo::Release(_, _)));
    left(&rt, &mut node, line(9), attempt);
    assert!(rt; matches!(replied(&node), Some(Reply::Ended)));
    assert!(rt; announce(&rt, &mut node) == Some((1, 0)));
    announced(&rt, &mut node);
    let told = matches!(
        replied(&node),
        Some(Reply::Announced {
            kept: 1,
            pruned: 0,
            dropped: 2,
        })
    );
    assert!(rt; told);
    let second = write(&rt, alloc, &mut node, 10, 3, 1000);
    assert!(rt; second.time == 1001);
    drop_covered(&rt, &mut node);
    assert!(rt; matches!(replied(&node), Some(Reply::Dropped(1))));
}

/// A commit to learn of, that wrote `x`.
fn known(rt: &impl Abort, alloc: Global, time: u64) -> Commit {
    let mut keys = Vec::new(alloc);
    keys.push(key(rt, alloc, b"x")).expect(rt, "memory");
    let uuid = Uuid::from_u128(time as u128);
    Commit {
        id: TxnId { time, uuid },
        keys: Keys::new(List::from_vec(keys)).expect(rt, "keys"),
    }
}

/// Commits are learned, given up and dropped, as long as the node serves.
#[test]
fn collects(rt: HostRuntime) {
    let alloc = rt.alloc();
    let mut node = serving(&rt, alloc);
    let mut commits = Vec::new(alloc);
    for time in [7, 9, 7, 8] {
        commits.push(known(&rt, alloc, time)).expect(&rt, "memory");
    }
    learn(&rt, &mut node, List::from_vec(commits));
    let told = matches!(
        replied(&node),
        Some(Reply::Learned {
            taken: 2,
            superseded: 1,
            known: 1,
        })
    );
    assert!(rt; told);
    let by = line(50);
    assert!(rt; matches!(node.give_up(5, by, &known(&rt, alloc, 7)), Ok(None)));
    drop_covered(&rt, &mut node);
    assert!(rt; matches!(replied(&node), Some(Reply::Dropped(1))));
    let caller = Caller {
        node: 1,
        inc: 1,
        by,
    };
    assert!(rt;
        matches!(node.give_up(5, by, &known(&rt, alloc, 7)), Ok(Some(who)) if who == caller)
    );
    assert!(rt; matches!(node.give_up(5, by, &known(&rt, alloc, 10)), Ok(None)));
    crash(&rt, &mut node, Some(1));
    assert!(rt; matches!(replied(&node), Some(Reply::Crashed { node: 1, inc: 1 })));
    assert!(rt; matches!(node.give_up(5, by, &known(&rt, alloc, 7)), Ok(None)));
    learn(&rt, &mut node, List::from_vec(Vec::new(alloc)));
    assert!(rt; is_down(&node, 1));
    drop_covered(&rt, &mut node);
    assert!(rt; is_down(&node, 1));
    assert!(rt; announce(&rt, &mut node).is_none() && is_down(&node, 1));
    crash(&rt, &mut node, None);
    assert!(rt; matches!(replied(&node), Some(Reply::NotUp { node: 1 })));
    let room = node.room();
    assert!(rt; room < 91 && node.close().as_slice().len() > 8);
}

/// Whether the last answer is that an incarnation of node 1 doesn't serve.
fn is_down(node: &Node, inc: u32) -> bool {
    matches!(replied(node), Some(Reply::NodeDown { node: 1, inc: down }) if *down == inc)
}

/// A commit in doubt is settled by a commit and by an abort, and an attempt that runs is left.
#[test]
fn settles(rt: HostRuntime) {
    let alloc = rt.alloc();
    let mut node = serving(&rt, alloc);
    let attempt = running(&rt, &mut node, 2, 1);
    let hold = held(attempt);
    put(
        &rt,
        &mut node,
        line(3),
        &hold,
        key(&rt, alloc, b"x"),
        bytes(&rt, alloc, b"hi"),
    );
    let (record, _) = storing(&rt, commit(&rt, &mut node, line(4), &hold, 1000));
    put(
        &rt,
        &mut node,
        line(5),
        &hold,
        key(&rt, alloc, b"x"),
        bytes(&rt, alloc, b"no"),
    );
    assert!(rt; matches!(replied(&node), Some(Reply::Committing)));
    let again = commit(&rt, &mut node, line(6), &hold, 1000);
    assert!(rt;
        matches!(again, StartGo::Answered) && matches!(replied(&node), Some(Reply::Committing))
    );
    assert!(rt;
        matches!(admit(&rt, &mut node, line(7), 1), AdmitGo::Joined(joined) if joined == attempt)
    );
    assert!(rt; matches!(replied(&node), Some(Reply::Joined(_))));
    assert!(rt; forget(&rt, &mut node, line(8), 1) == AdmitGo::Answered);
    assert!(rt; matches!(replied(&node), Some(Reply::Busy { node: 1, inc: 1 })));
    assert!(rt; record.origin.reads.as_slice().is_empty());
    let more = running(&rt, &mut node, 10, 2);
    let go = commit(&rt, &mut node, line(11), &held(more), 1000);
    assert!(rt; matches!(&go, StartGo::Release(_, _)));
    doubt(&rt, &mut node, line(11), more);
    assert!(rt; is_down(&node, 1));
    stores_no_other(&rt, alloc, &mut node);
    aborts_in_doubt(&rt, alloc, &mut node);
}

/// What an attempt didn't commit isn't stored.
fn stores_no_other(rt: &impl Abort, alloc: Global, node: &mut Node) {
    let attempt = running(rt, node, 12, 5);
    put(
        rt,
        node,
        line(13),
        &held(attempt),
        key(rt, alloc, b"x"),
        bytes(rt, alloc, b"1"),
    );
    let _ = storing(rt, commit(rt, node, line(14), &held(attempt), 1000));
    assert!(rt; !stored(rt, node, line(14), attempt, known(rt, alloc, 7)));
    assert!(rt; is_down(node, 1));
}

/// A commit comes into doubt, is settled and comes into doubt again, and is aborted; an attempt that runs is aborted.
fn aborts_in_doubt(rt: &impl Abort, alloc: Global, node: &mut Node) {
    let attempt = running(rt, node, 20, 3);
    let hold = held(attempt);
    put(
        rt,
        node,
        line(21),
        &hold,
        key(rt, alloc, b"z"),
        bytes(rt, alloc, b"1"),
    );
    let (record, _) = storing(rt, commit(rt, node, line(22), &hold, 1000));
    doubt(rt, node, line(22), attempt);
    assert!(rt; matches!(replied(node), Some(Reply::StoreFault)));
    let go = commit(rt, node, line(23), &hold, 9000);
    assert!(rt;
        matches!(&go, StartGo::Settle(_, again, values) if *again == record && values.as_slice().len() == 1)
    );
    doubt(rt, node, line(23), attempt);
    let go = abort(rt, node, line(24), &hold);
    assert!(rt; matches!(&go, StartGo::Settle(_, _, values) if values.as_slice().is_empty()));
    aborted(rt, node, line(24), attempt);
    assert!(rt; matches!(replied(node), Some(Reply::Aborted)));
    let more = running(rt, node, 25, 4);
    let go = abort(rt, node, line(26), &held(more));
    assert!(rt; matches!(&go, StartGo::Release(_, _)));
    aborted(rt, node, line(26), more);
    assert!(rt; matches!(replied(node), Some(Reply::Aborted)));
    let go = abort(rt, node, line(27), &held(more));
    assert!(rt;
        matches!(&go, StartGo::Answered) && matches!(replied(node), Some(Reply::NoTransaction))
    );
}

/// Boots and begins are refused, and go on.
#[test]
fn boots(rt: HostRuntime) {
    let alloc = rt.alloc();
    let mut node = Node::new(alloc, 1, 4, 90).expect(&rt, "memory");
    assert!(rt; admit(&rt, &mut node, line(1), 1) == AdmitGo::Answered && is_down(&node, 0));
    assert!(rt; matches!(boot(&rt, &mut node, line(2)), BootGo::Go(_)));
    assert!(rt; boot(&rt, &mut node, line(3)) == BootGo::Answered);
    assert!(rt; matches!(replied(&node), Some(Reply::IsBooting { node: 1, inc: 1 })));
    assert!(rt; boot(&rt, &mut node, line(2)) == BootGo::Answered);
    crash(&rt, &mut node, Some(1));
    assert!(rt; matches!(boot(&rt, &mut node, line(4)), BootGo::Go(_)));
    assert!(rt;
        !end_boot(
            &rt,
            &mut node,
            line(4),
            2,
            BootEnd::Refused(Reply::StoreFault)
        )
    );
    assert!(rt; matches!(replied(&node), Some(Reply::StoreFault)));
    let by = line(5);
    let caller = Caller {
        node: 1,
        inc: 2,
        by,
    };
    assert!(rt; boot(&rt, &mut node, by) == BootGo::Go(caller));
    let mut commits = Vec::new(alloc);
    commits.push(known(&rt, alloc, 9)).expect(&rt, "memory");
    assert!(rt;
        end_boot(
            &rt,
            &mut node,
            by,
            2,
            BootEnd::Shown(List::from_vec(commits))
        )
    );
    assert!(rt; boot(&rt, &mut node, line(6)) == BootGo::Answered);
    assert!(rt; matches!(replied(&node), Some(Reply::IsUp { node: 1, inc: 2 })));
    begins(&rt, &mut node);
}

/// A forget is over with a fault; an attempt that opens isn't joined.
fn begins(rt: &impl Abort, node: &mut Node) {
    let opened = open_by(rt, node, line(7), 1);
    refuse_begin(rt, node, line(7), opened);
    assert!(rt; matches!(replied(node), Some(Reply::StoreFault)));
    assert!(rt; matches!(forget(rt, node, line(8), 1), AdmitGo::Go(_, _)));
    assert!(rt; admit(rt, node, line(9), 1) == AdmitGo::Answered);
    assert!(rt; matches!(replied(node), Some(Reply::Busy { node: 1, inc: 2 })));
    crash(rt, node, Some(9));
    assert!(rt; matches!(replied(node), Some(Reply::Crashed { node: 1, inc: 9 })));
}

/// Puts, gets and commits are refused.
#[test]
fn refuses(rt: HostRuntime) {
    let alloc = rt.alloc();
    let mut node = serving(&rt, alloc);
    let none = Hold {
        node: 1,
        attempt: None,
    };
    put(
        &rt,
        &mut node,
        line(2),
        &none,
        key(&rt, alloc, b"x"),
        bytes(&rt, alloc, b"1"),
    );
    assert!(rt; matches!(replied(&node), Some(Reply::NoTransaction)));
    let attempt = running(&rt, &mut node, 3, 1);
    let late = held(Attempt {
        node: 1,
        inc: 9,
        number: attempt.number,
    });
    put(
        &rt,
        &mut node,
        line(4),
        &late,
        key(&rt, alloc, b"x"),
        bytes(&rt, alloc, b"1"),
    );
    assert!(rt; is_down(&node, 9));
    puts_too_many(&rt, alloc, &mut node, &held(attempt));
    let go = commit(&rt, &mut node, line(6), &held(attempt), 1 << 48);
    assert!(rt;
        matches!(&go, StartGo::Answered) && matches!(replied(&node), Some(Reply::ClockEnd))
    );
    blocks(&rt, alloc, &mut node);
}

/// The 33rd key of an attempt is refused.
fn puts_too_many(rt: &impl Abort, alloc: Global, node: &mut Node, hold: &Hold) {
    for number in 0..33u8 {
        let name = key(rt, alloc, [number + 40].as_slice());
        put(rt, node, line(5), hold, name, bytes(rt, alloc, b"1"));
        let stored = matches!(replied(node), Some(Reply::Stored));
        assert!(rt; stored == (number < 32));
    }
    assert!(rt; matches!(replied(node), Some(Reply::TooManyKeys)));
    let go = get(rt, node, line(6), hold, key(rt, alloc, [40].as_slice()));
    assert!(rt; go == SelectGo::Answered && matches!(replied(node), Some(Reply::Own(_))));
}

/// A read that isn't over holds up the commit, and a later version is blocked by it.
fn blocks(rt: &impl Abort, alloc: Global, node: &mut Node) {
    let mut first = Vec::new(alloc);
    first.push(known(rt, alloc, 7)).expect(rt, "memory");
    learn(rt, node, List::from_vec(first));
    let attempt = running(rt, node, 7, 2);
    let hold = held(attempt);
    let id = known(rt, alloc, 7).id;
    let go = get(rt, node, line(8), &hold, key(rt, alloc, b"x"));
    assert!(rt; matches!(go, SelectGo::Fetch(_, picked) if picked == id));
    fetched(
        rt,
        node,
        line(8),
        attempt,
        key(rt, alloc, b"x"),
        id,
        Got::Refused(Reply::StoreFault),
    );
    assert!(rt; matches!(replied(node), Some(Reply::StoreFault)));
    let go = get(rt, node, line(9), &hold, key(rt, alloc, b"x"));
    assert!(rt; matches!(go, SelectGo::Fetch(_, picked) if picked == id));
    let go = commit(rt, node, line(10), &hold, 1000);
    assert!(rt;
        matches!(&go, StartGo::Answered) && matches!(replied(node), Some(Reply::OpenReads(1)))
    );
    let mut keys = Vec::new(alloc);
    keys.push(key(rt, alloc, b"x")).expect(rt, "memory");
    keys.push(key(rt, alloc, b"y")).expect(rt, "memory");
    let later = Commit {
        id: known(rt, alloc, 9).id,
        keys: Keys::new(List::from_vec(keys)).expect(rt, "keys"),
    };
    let mut second = Vec::new(alloc);
    second.push(later).expect(rt, "memory");
    learn(rt, node, List::from_vec(second));
    let go = get(rt, node, line(11), &hold, key(rt, alloc, b"y"));
    assert!(rt; go == SelectGo::Answered);
    assert!(rt;
        matches!(replied(node), Some(Reply::NoValidVersion(blocked)) if blocked.as_slice().len() == 1)
    );
}

/// What a line opened, and a crash ended, is answered alone that the node is down.
#[test]
fn closes_late(rt: HostRuntime) {
    let alloc = rt.alloc();
    begins_late(&rt, alloc);
    gives_back_late(&rt, alloc);
    fetches_late(&rt, alloc);
    ends_late(&rt, alloc);
    serves_late(&rt, alloc);
}

/// The attempt that a begin or a forget of this UUID opens.
fn open_by(rt: &impl Abort, node: &mut Node, by: By, uuid: u128) -> Attempt {
    match forget(rt, node, by, uuid) {
        AdmitGo::Go(_, attempt) => attempt,
        _ => panic!(rt; "not admitted"),
    }
}

fn begins_late(rt: &impl Abort, alloc: Global) {
    let mut node = serving(rt, alloc);
    let by = line(2);
    let attempt = open_by(rt, &mut node, by, 1);
    may_end_begin(rt, &node, by, &attempt);
    crash_beside(rt, &mut node, by);
    may_close(rt, &node, &attempt);
    assert!(rt; !node.admitted(9, by, attempt) && is_down(&node, 1));
}

fn gives_back_late(rt: &impl Abort, alloc: Global) {
    let mut node = serving(rt, alloc);
    let by = line(2);
    let attempt = open_by(rt, &mut node, by, 1);
    may_end_begin(rt, &node, by, &attempt);
    crash_beside(rt, &mut node, by);
    may_close(rt, &node, &attempt);
    node.unadmitted(9, by, attempt, Reply::StoreFault);
    assert!(rt; is_down(&node, 1));
}

fn fetches_late(rt: &impl Abort, alloc: Global) {
    let mut node = serving(rt, alloc);
    let mut commits = Vec::new(alloc);
    commits.push(known(rt, alloc, 7)).expect(rt, "memory");
    learn(rt, &mut node, List::from_vec(commits));
    let attempt = running(rt, &mut node, 2, 1);
    let by = line(3);
    let go = get(rt, &mut node, by, &held(attempt), key(rt, alloc, b"x"));
    assert!(rt; matches!(go, SelectGo::Fetch(_, _)));
    let id = known(rt, alloc, 7).id;
    let x = key(rt, alloc, b"x");
    may_end_fetch(rt, &node, by, &attempt, &x, &id);
    crash_beside(rt, &mut node, by);
    may_close(rt, &node, &attempt);
    node.value(
        9,
        by,
        attempt,
        x,
        id,
        Got::Version(bytes(rt, alloc, b"hi")),
        8,
    );
    assert!(rt; is_down(&node, 1));
}

fn ends_late(rt: &impl Abort, alloc: Global) {
    let mut node = serving(rt, alloc);
    let attempt = running(rt, &mut node, 2, 1);
    let by = line(3);
    let go = abort(rt, &mut node, by, &held(attempt));
    assert!(rt; matches!(&go, StartGo::Release(_, _)));
    may_finish(rt, &node, by, &attempt);
    crash_beside(rt, &mut node, by);
    may_close(rt, &node, &attempt);
    node.ended(9, by, attempt, Reply::Aborted);
    assert!(rt; is_down(&node, 1));
}

fn serves_late(rt: &impl Abort, alloc: Global) {
    let mut node = Node::new(alloc, 1, 4, 90).expect(rt, "memory");
    let by = line(2);
    assert!(rt; matches!(boot(rt, &mut node, by), BootGo::Go(_)));
    may_end_boot(rt, &node, by, 1);
    crash_beside(rt, &mut node, by);
    assert!(rt; node.room() > 0);
    let shown = BootEnd::Shown(List::from_vec(Vec::new(alloc)));
    assert!(rt; !node.boot_end(9, by, 1, shown) && is_down(&node, 1));
}
