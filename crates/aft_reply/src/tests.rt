use crate::{ReplyFault, read_reply, write_reply, write_text};
use aft_id::{Bytes, List, Text, TxnId};
use aft_model::{
    Blocked, By, Command, Judged, Line, NodeAct, NodeEntry, Reply, Script, Trace, Verdict,
};
use aft_records::Key;
use std::alloc::{AllocError, Global};
use std::process::Abort;
use std::test::Fail;
use uuid::Uuid;

fn id(time: u64, number: u128) -> TxnId {
    TxnId {
        time,
        uuid: Uuid::from_u128(number),
    }
}

// The reply is written as this text, and what is read from it is written so again.
fn check(rt: &impl Abort, alloc: Global, reply: &Reply, text: &str) -> Result<(), Fail> {
    let written = write_reply(alloc, reply)?;
    assert_eq!(rt; written.as_str(), text);
    let Ok(read) = read_reply(alloc, text) else {
        return Err(Fail::from("a reply is not read"));
    };
    let again = write_reply(alloc, &read)?;
    assert_eq!(rt; again.as_str(), text);
    Ok(())
}

#[test]
fn replies_of_one_word(rt: HostRuntime) -> Result<(), Fail> {
    let cases = [
        (Reply::Stored, "ok"),
        (Reply::Absent, "absent"),
        (Reply::Ended, "ended"),
        (Reply::Aborted, "aborted"),
        (Reply::StoreFault, "store-fault"),
        (Reply::InDoubt, "in-doubt"),
        (Reply::NoTransaction, "no-transaction"),
        (Reply::Committing, "committing"),
        (Reply::TooManyKeys, "too-many-keys"),
        (Reply::ClockEnd, "clock-end"),
        (Reply::TooManyRecords, "too-many-records"),
        (Reply::Collecting, "collecting"),
        (Reply::TooManyVersions, "too-many-versions"),
        (Reply::Copying, "copying"),
        (Reply::NoMemory, "no-memory"),
    ];
    for (reply, text) in &cases {
        check(&rt, rt.alloc(), reply, text)?;
    }
    Ok(())
}

#[test]
fn replies_of_nodes(rt: HostRuntime) -> Result<(), Fail> {
    let cases = [
        (Reply::Busy { node: 1, inc: 2 }, "busy 1 2"),
        (
            Reply::NodeDown {
                node: 0,
                inc: 4_294_967_295,
            },
            "node-down 0 4294967295",
        ),
        (Reply::Crashed { node: 2, inc: 1 }, "crashed 2 1"),
        (
            Reply::NotUp {
                node: 4_294_967_295,
            },
            "not-up 4294967295",
        ),
        (Reply::Started { node: 8, inc: 10 }, "started 8 10"),
        (Reply::IsUp { node: 1, inc: 2 }, "up 1 2"),
        (Reply::IsBooting { node: 1, inc: 2 }, "booting 1 2"),
    ];
    for (reply, text) in &cases {
        check(&rt, rt.alloc(), reply, text)?;
    }
    Ok(())
}

#[test]
fn replies_of_counts(rt: HostRuntime) -> Result<(), Fail> {
    let cases = [
        (
            Reply::OpenReads(18_446_744_073_709_551_615),
            "open-reads 18446744073709551615",
        ),
        (Reply::Dropped(0), "dropped 0"),
        (
            Reply::Announced {
                kept: 1,
                pruned: 2,
                dropped: 3,
            },
            "announced 1 pruned 2 dropped 3",
        ),
        (
            Reply::Learned {
                taken: 1,
                superseded: 2,
                known: 3,
            },
            "learned 1 superseded 2 known 3",
        ),
        (
            Reply::Managed {
                heard: 0,
                missed: 1,
            },
            "manager heard 0 missed 1",
        ),
        (
            Reply::Orphans {
                deleted: 1,
                kept: 0,
                held: 2,
                fault: 3,
            },
            "orphans deleted 1 kept 0 held 2 fault 3",
        ),
        (
            Reply::Copied {
                taken: 2,
                marked: 0,
            },
            "copied 2 marked 0",
        ),
    ];
    for (reply, text) in &cases {
        check(&rt, rt.alloc(), reply, text)?;
    }
    Ok(())
}

#[test]
fn replies_of_ids(rt: HostRuntime) -> Result<(), Fail> {
    let uuid = Uuid::from_u128(1);
    let last = id(281_474_976_710_655, u128::MAX);
    let cases = [
        (
            Reply::Begun(uuid),
            "begun 00000000-0000-0000-0000-000000000001",
        ),
        (
            Reply::Joined(uuid),
            "joined 00000000-0000-0000-0000-000000000001",
        ),
        (
            Reply::Unknown(uuid),
            "unknown 00000000-0000-0000-0000-000000000001",
        ),
        (
            Reply::Forgotten(uuid),
            "forgotten 00000000-0000-0000-0000-000000000001",
        ),
        (Reply::Committed(TxnId::zero()), "committed 0"),
        (
            Reply::Missing(id(1, 1)),
            "missing 1-00000000-0000-0000-0000-000000000001",
        ),
        (
            Reply::Forgot(id(1000, 1)),
            "forgot 1000-00000000-0000-0000-0000-000000000001",
        ),
        (
            Reply::Kept(last),
            "kept 281474976710655-ffffffff-ffff-ffff-ffff-ffffffffffff",
        ),
    ];
    for (reply, text) in &cases {
        check(&rt, rt.alloc(), reply, text)?;
    }
    Ok(())
}

#[test]
fn values(rt: HostRuntime) -> Result<(), Fail> {
    let cases = [
        (b"hi".as_slice(), "own hi", "value 0 hi"),
        (b"", "own #", "value 0 #"),
        (b"#1", "own #2331", "value 0 #2331"),
        (b"1#", "own 1#", "value 0 1#"),
        (b"~!", "own ~!", "value 0 ~!"),
        (b"a \xff\x0a\x7f", "own #6120ff0a7f", "value 0 #6120ff0a7f"),
    ];
    for (value, own, text) in cases {
        let bytes = Bytes::from_vec(Vec::from_slice(rt.alloc(), value)?);
        check(&rt, rt.alloc(), &Reply::Own(bytes), own)?;
        let bytes = Bytes::from_vec(Vec::from_slice(rt.alloc(), value)?);
        check(&rt, rt.alloc(), &Reply::Value(TxnId::zero(), bytes), text)?;
    }
    Ok(())
}

#[test]
fn a_damaged_name(rt: HostRuntime) -> Result<(), Fail> {
    let name = Text::from_string(String::from_str(rt.alloc(), "c/zz")?);
    check(&rt, rt.alloc(), &Reply::Damaged(name), "damaged c/zz")
}

// A commit that blocks a key which was read at no version.
fn blocker(alloc: Global, time: u64, key: &[u8]) -> Result<Blocked, Fail> {
    let Ok(key) = Key::new(alloc, key) else {
        return Err(Fail::from("key"));
    };
    Ok(Blocked {
        id: id(time, 1),
        key,
        read: TxnId::zero(),
    })
}

#[test]
fn blockers(rt: HostRuntime) -> Result<(), Fail> {
    let none = Reply::NoValidVersion(List::from_vec(Vec::new(rt.alloc())));
    check(&rt, rt.alloc(), &none, "no-valid-version")?;
    let mut blocked = Vec::new(rt.alloc());
    blocked.push(blocker(rt.alloc(), 1000, b"x")?)?;
    blocked.push(blocker(rt.alloc(), 1001, b"#k")?)?;
    let two = Reply::NoValidVersion(List::from_vec(blocked));
    let text =
        "no-valid-version 1000-00000000-0000-0000-0000-000000000001 x 0 1001-00000000-0000-0000-0000-000000000001 #k 0";
    check(&rt, rt.alloc(), &two, text)
}

#[test]
fn verdicts(rt: HostRuntime) -> Result<(), Fail> {
    let none = Reply::Collected(List::from_vec(Vec::new(rt.alloc())));
    check(&rt, rt.alloc(), &none, "collected")?;
    let mut judged = Vec::new(rt.alloc());
    for verdict in [
        Verdict::Retired,
        Verdict::Held { node: 9, inc: 1 },
        Verdict::Fault,
    ] {
        judged.push(Judged {
            id: TxnId::zero(),
            verdict,
        })?;
    }
    let three = Reply::Collected(List::from_vec(judged));
    check(
        &rt,
        rt.alloc(),
        &three,
        "collected 0 retired 0 held 9 1 0 fault",
    )
}

#[test]
fn texts_of_no_reply(rt: HostRuntime) -> Result<(), Fail> {
    let cases = [
        "",
        "ok ",
        " ok",
        "ok\n",
        "Ok",
        "stored",
        "ok ok",
        "begun",
        "begun 00000000000000000000000000000001",
        "begun {00000000-0000-0000-0000-000000000001}",
        "begun 00000000-0000-0000-0000-00000000000A",
        "begun 00000000-0000-0000-0000-000000000001 1",
        "committed 00",
        "committed 0-00000000-0000-0000-0000-000000000000",
        "committed 0-00000000-0000-0000-0000-000000000001",
        "committed 1000-00000000000000000000000000000001",
        "committed 01-00000000-0000-0000-0000-000000000001",
        "committed 281474976710656-00000000-0000-0000-0000-000000000001",
        "open-reads 01",
        "open-reads +1",
        "open-reads 18446744073709551616",
        "busy 1",
        "busy 4294967296 1",
        "own",
        "own ",
        "own a b",
        "own #6869",
        "own #0",
        "own #0A",
        "value hi",
        "damaged",
        "damaged ",
        "damaged \t",
        "no-valid-version 0 x",
        "no-valid-version 0 x 0-00000000-0000-0000-0000-000000000001",
        "collected 0",
        "collected 0 held 9",
        "collected 0 lost",
        "announced 1 dropped 2 pruned 3",
        "manager heard 0",
        "copied 2  marked 0",
    ];
    for text in cases {
        let read = read_reply(rt.alloc(), text).err();
        assert_eq!(rt; read, Some(ReplyFault::BadReply), "{text}");
    }
    Ok(())
}

// An entry of a node that does nothing but answer a line.
fn answer(client: u32, line: u32, reply: Reply) -> NodeEntry {
    NodeEntry {
        front: 0,
        by: By { client, line },
        act: NodeAct::Nothing,
        answer: Some(reply),
    }
}

// A script of three lines: commits of the clients 1, 2 and 1.
fn three_lines(alloc: Global) -> Result<Script, AllocError> {
    let mut lines = Vec::new(alloc);
    for (number, client) in [(1, 1), (3, 2), (20_000, 1)] {
        lines.push(Line {
            number,
            client,
            order: Command::Commit,
        })?;
    }
    Ok(Script {
        lines: List::from_vec(lines),
    })
}

// Two nodes: the first ends the line 20,000 and answers the line 3 twice, the second answers the line 1.
fn two_nodes(alloc: Global) -> Result<Vec<List<NodeEntry>>, AllocError> {
    let first = vec![in alloc;
        answer(1, 20_000, Reply::Ended),
        answer(2, 3, Reply::Stored),
        answer(2, 3, Reply::Stored),
    ]?;
    let second = vec![in alloc; answer(1, 1, Reply::NotUp { node: 2 })]?;
    let nodes = vec![in alloc; List::from_vec(first), List::from_vec(second)]?;
    Ok(nodes)
}

#[test]
fn a_finished_text(rt: HostRuntime) -> Result<(), Fail> {
    let script = three_lines(rt.alloc())?;
    let trace = Trace {
        door: List::from_vec(Vec::new(rt.alloc())),
        nodes: List::from_vec(two_nodes(rt.alloc())?),
        office: List::from_vec(Vec::new(rt.alloc())),
    };
    let text = write_text(rt.alloc(), &script, &trace)?;
    assert_eq!(rt;
        text.as_slice(),
        b"1 1 not-up 2\n20000 1 ended\n".as_slice()
    );
    Ok(())
}
