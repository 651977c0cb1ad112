use crate::{LineFault, ScriptFault, generate, read_order, read_script};
use aft_conf::Conf;
use aft_model::{Command, Script};
use std::alloc::{AllocError, Global};
use std::test::Fail;

// The first fault of a script for two nodes with four background rounds, and the number of its line.
fn fault_of(alloc: Global, text: &[u8]) -> Result<Option<(u32, LineFault)>, Fail> {
    match read_script(alloc, text, &Conf::default()) {
        Ok(_) => Ok(None),
        Err(ScriptFault::Line { number, fault }) => Ok(Some((number, fault))),
        Err(_) => Err(Fail::from("a script is not read")),
    }
}

// A line, so many times.
fn repeated(alloc: Global, line: &str, count: u32) -> Result<String, AllocError> {
    let mut text = String::new(alloc);
    for _ in 0..count {
        text.push_str(line)?;
    }
    Ok(text)
}

// Bytes as a text.
fn text_of(bytes: &[u8]) -> &str {
    std::str::from_utf8(bytes).unwrap_or("no text")
}

// What a command asks for, in the words of a script.
fn spelled(alloc: Global, order: &Command) -> Result<String, AllocError> {
    match order {
        Command::Begin { uuid, node } => format!(in alloc; "begin {uuid} on {node}"),
        Command::Put { key, value } => {
            let key = text_of(key.bytes());
            let value = text_of(value.as_slice());
            format!(in alloc; "put {key} {value}")
        }
        Command::Get { key } => format!(in alloc; "get {}", text_of(key.bytes())),
        Command::Commit => String::from_str(alloc, "commit"),
        Command::Abort => String::from_str(alloc, "abort"),
        Command::Crash { node } => format!(in alloc; "crash {node}"),
        Command::Start { node } => format!(in alloc; "start {node}"),
        Command::Announce { node } => format!(in alloc; "announce {node}"),
        Command::Deliver { node } => format!(in alloc; "deliver {node}"),
        Command::Local { node } => format!(in alloc; "local {node}"),
        Command::Manager => String::from_str(alloc, "manager"),
        Command::Collect => String::from_str(alloc, "collect"),
        Command::Forget { uuid, node } => format!(in alloc; "forget {uuid} on {node}"),
        Command::Orphans { key } => format!(in alloc; "orphans {}", text_of(key.bytes())),
        Command::Backup => String::from_str(alloc, "backup"),
    }
}

// The lines of a script, written again.
fn written_again(alloc: Global, script: &Script) -> Result<String, AllocError> {
    let mut text = String::new(alloc);
    for line in script.lines.as_slice() {
        let order = spelled(alloc, &line.order)?;
        let said = format!(in alloc; "{} {} {order}\n", line.number, line.client)?;
        text.push_str(said.as_str())?;
    }
    Ok(text)
}

#[test]
fn each_kind_of_line(rt: HostRuntime) -> Result<(), Fail> {
    let text =
        b"# all kinds\n1 begin @1 on 2\n1  put #k v#\n64 get ~\n1 commit\n1 abort\n1 crash 1\n1 start 2\r\n1 announce 1\n1 deliver 2\n1 local 1\n\n1 manager\n1 collect\n1 forget 00000000000000000000000000000102 on 1\n1 orphans x\n1 backup";
    let Ok(script) = read_script(rt.alloc(), text, &Conf::default()) else {
        return Err(Fail::from("read"));
    };
    let written = written_again(rt.alloc(), &script)?;
    let lines =
        "2 1 begin 00000000-0000-0000-0000-000000000001 on 2\n3 1 put #k v#\n4 64 get ~\n5 1 commit\n6 1 abort\n7 1 crash 1\n8 1 start 2\n9 1 announce 1\n10 1 deliver 2\n11 1 local 1\n13 1 manager\n14 1 collect\n15 1 forget 00000000-0000-0000-0000-000000000102 on 1\n16 1 orphans x\n17 1 backup\n";
    assert_eq!(rt; written.as_str(), lines);
    Ok(())
}

// The fault, if there is one, so many lines later.
fn later(fault: Option<(u32, LineFault)>, lines: u32) -> Option<(u32, LineFault)> {
    let (number, fault) = fault?;
    Some((number.saturating_add(lines), fault))
}

#[test]
fn first_faults(rt: HostRuntime) -> Result<(), Fail> {
    let cases = [
        (b"#\x1f".as_slice(), Some((1, LineFault::BadByte))),
        (b"#\x7f", Some((1, LineFault::BadByte))),
        (b"#\xff", Some((1, LineFault::BadByte))),
        (b"# ~\n", None),
        (b"1 get\tx", Some((1, LineFault::BadByte))),
        (b"65 fly\xff", Some((1, LineFault::BadByte))),
        (b"1 get x\r\n", None),
        (b"\r\n#\r\n  \r\n", None),
        (b"1 get x\r\r\n", Some((1, LineFault::BadByte))),
        (b"1 get\rx\n", Some((1, LineFault::BadByte))),
        (b"\r1 get x\n", Some((1, LineFault::BadByte))),
        (b"#\r#\n", Some((1, LineFault::BadByte))),
        (b"#\r", Some((1, LineFault::BadByte))),
        (b"\n1 get x\r", Some((2, LineFault::BadByte))),
        (b"\r", Some((1, LineFault::BadByte))),
        (b"0 get x", Some((1, LineFault::BadClient))),
        (b"65 get x", Some((1, LineFault::BadClient))),
        (b"01 get x", Some((1, LineFault::BadClient))),
        (b"+1 get x", Some((1, LineFault::BadClient))),
        (b"4294967297 get x", Some((1, LineFault::BadClient))),
        (b"get x", Some((1, LineFault::BadClient))),
        (b" # c", Some((1, LineFault::BadClient))),
        (b"65 fly", Some((1, LineFault::BadClient))),
        (b"64 get x", None),
        (b"1", Some((1, LineFault::BadCommand))),
        (b"1 fly", Some((1, LineFault::BadCommand))),
        (b"1 Get x", Some((1, LineFault::BadCommand))),
        (b"1 fly x y z", Some((1, LineFault::BadCommand))),
        (b"1 get", Some((1, LineFault::BadWords))),
        (b"1 get x y", Some((1, LineFault::BadWords))),
        (b"1 commit x", Some((1, LineFault::BadWords))),
        (b"1 put x", Some((1, LineFault::BadWords))),
        (b"1 put x y z", Some((1, LineFault::BadWords))),
        (b"1 crash", Some((1, LineFault::BadWords))),
        (b"1 crash 1 2", Some((1, LineFault::BadWords))),
        (b"1 backup x", Some((1, LineFault::BadWords))),
        (b"1 orphans", Some((1, LineFault::BadWords))),
        (b"1 begin @1 on", Some((1, LineFault::BadWords))),
        (b"1 begin @1 on 1 1", Some((1, LineFault::BadWords))),
        (b"1 begin @1 off 1", Some((1, LineFault::BadWords))),
        (b"1 begin x ON 9", Some((1, LineFault::BadWords))),
        (b"1 forget @1 1", Some((1, LineFault::BadWords))),
        (
            b"1 begin @340282366920938463463374607431768211455 on 1",
            None,
        ),
        (
            b"1 begin @340282366920938463463374607431768211456 on 1",
            Some((1, LineFault::BadUuid)),
        ),
        (
            b"1 begin @000000000000000000000000000000000000001 on 1",
            None,
        ),
        (
            b"1 begin @0000000000000000000000000000000000000001 on 1",
            Some((1, LineFault::BadUuid)),
        ),
        (b"1 begin @ on 1", Some((1, LineFault::BadUuid))),
        (
            b"1 forget 0000000000000000000000000000001 on 1",
            Some((1, LineFault::BadUuid)),
        ),
        (b"1 begin x on 9", Some((1, LineFault::BadUuid))),
        (b"1 begin @1 on 3", Some((1, LineFault::BadNode))),
        (b"1 crash 0", Some((1, LineFault::BadNode))),
        (b"1 crash 3", Some((1, LineFault::BadNode))),
        (b"1 local 01", Some((1, LineFault::BadNode))),
        (b"1 start x", Some((1, LineFault::BadNode))),
        (
            b"1 get 1234567890123456789012345678901234567890123456789012345678901234",
            None,
        ),
        (
            b"1 get 12345678901234567890123456789012345678901234567890123456789012345",
            Some((1, LineFault::BadKey)),
        ),
        (
            b"1 orphans 12345678901234567890123456789012345678901234567890123456789012345",
            Some((1, LineFault::BadKey)),
        ),
        (
            b"1 put 12345678901234567890123456789012345678901234567890123456789012345 v",
            Some((1, LineFault::BadKey)),
        ),
        (
            b"1 put 12345678901234567890123456789012345678901234567890123456789012345 #0",
            Some((1, LineFault::BadKey)),
        ),
        (b"1 put x #", None),
        (b"1 put x #aF", None),
        (b"1 put x v#0", None),
        (b"1 put x #0", Some((1, LineFault::BadValue))),
        (b"1 put x #0g", Some((1, LineFault::BadValue))),
        (b"1 put x ##", Some((1, LineFault::BadValue))),
        (b"", None),
        (
            b"1 get x\n1 fly\n65 get x",
            Some((2, LineFault::BadCommand)),
        ),
        (b"1 get\n1 fly\n", Some((1, LineFault::BadWords))),
    ];
    for (text, fault) in cases {
        assert_eq!(rt; fault_of(rt.alloc(), text)?, fault);
        let mut behind = Vec::from_slice(rt.alloc(), b"1 get x\r\n\n# c\n")?;
        behind.extend_from_slice(text)?;
        assert_eq!(rt; fault_of(rt.alloc(), behind.as_slice())?, later(fault, 3));
    }
    Ok(())
}

#[test]
fn limits_of_scripts(rt: HostRuntime) -> Result<(), Fail> {
    let cases = [
        ("\n", 19_999, "1 get x", None),
        ("#\n", 20_000, "", None),
        ("#\n", 20_000, "\n", Some((1, LineFault::TooManyLines))),
        (
            "1 get x\r\n",
            20_000,
            "65 fly\r",
            Some((1, LineFault::TooManyLines)),
        ),
        ("1 start 1\n", 16, "1 fly", Some((1, LineFault::BadCommand))),
        (
            "1 start 1\n",
            16,
            "64 start 2",
            Some((1, LineFault::TooManyStarts)),
        ),
        (
            "1 start 1\n",
            16,
            "#\n1 start 2",
            Some((2, LineFault::TooManyStarts)),
        ),
        (
            "1 start 1\n",
            16,
            "1 start 3",
            Some((1, LineFault::BadNode)),
        ),
        ("1 manager\n", 16, "2 collect", None),
        (
            "1 manager\n",
            16,
            "2 manager",
            Some((1, LineFault::TooManyRounds)),
        ),
        ("1 collect\n", 16, "1 manager", None),
        (
            "1 collect\n",
            16,
            "\n1 collect\n",
            Some((2, LineFault::TooManyRounds)),
        ),
        ("1 orphans x\n", 10, "1 backup", None),
        (
            "1 orphans x\n",
            10,
            "1 orphans y",
            Some((1, LineFault::TooManyRounds)),
        ),
        (
            "1 orphans x\n",
            10,
            "1 orphans",
            Some((1, LineFault::BadWords)),
        ),
        ("1 backup\n", 1, "2 get x", None),
        (
            "1 backup\n",
            1,
            "2 backup\r\n",
            Some((1, LineFault::TooManyRounds)),
        ),
    ];
    for (line, count, last, fault) in cases {
        let mut text = repeated(rt.alloc(), line, count)?;
        text.push_str(last)?;
        assert_eq!(rt;
            fault_of(rt.alloc(), text.as_bytes())?,
            later(fault, count),
            "{line}{last}"
        );
    }
    Ok(())
}

// The background rounds can leave no room for a line.
#[test]
fn no_room_for_rounds(rt: HostRuntime) -> Result<(), Fail> {
    let conf = Conf {
        rounds: 20,
        ..Conf::default()
    };
    let fault = LineFault::TooManyRounds;
    for text in ["1 manager", "1 collect"] {
        assert_eq!(rt;
            read_script(rt.alloc(), text.as_bytes(), &conf).err(),
            Some(ScriptFault::Line { number: 1, fault })
        );
    }
    Ok(())
}

// How many bytes the value of a script's first line has, which is a put of `x`.
fn put_len(script: &Script) -> Option<usize> {
    match script.lines.as_slice().first()?.order {
        Command::Put { ref key, ref value } if key.bytes() == b"x".as_slice() => Some(
            value.as_slice().len(),
        ),
        _ => None,
    }
}

#[test]
fn long_values(rt: HostRuntime) -> Result<(), Fail> {
    let cases = [
        ("1 put x ", "a", "a", Some((1, LineFault::LongValue))),
        ("\n1 put x ", "a", "a", Some((2, LineFault::LongValue))),
        ("1 put x ", "a", "a b", Some((1, LineFault::BadWords))),
        ("1 put x #", "0f", "0f", Some((1, LineFault::LongValue))),
        ("\n1 put x #", "0f", "0f", Some((2, LineFault::LongValue))),
        ("1 put x #", "0f", "0", Some((1, LineFault::BadValue))),
        ("\n1 put x #", "0f", "0g", Some((2, LineFault::BadValue))),
    ];
    for (prefix, digit, last, fault) in cases {
        let mut text = String::from_str(rt.alloc(), prefix)?;
        text.push_str(repeated(rt.alloc(), digit, 4096)?.as_str())?;
        let Ok(script) = read_script(rt.alloc(), text.as_bytes(), &Conf::default()) else {
            return Err(Fail::from("read"));
        };
        assert_eq!(rt; put_len(&script), Some(4096));
        text.push_str(last)?;
        assert_eq!(rt; fault_of(rt.alloc(), text.as_bytes())?, fault);
    }
    Ok(())
}

#[test]
fn generated_scripts(rt: HostRuntime) -> Result<(), Fail> {
    let sizes = [
        (1, 7, 4, 20_000),
        (4, 0, 14, 20_000),
        (100, 1, 356, 80_400),
        (500, 18_446_744_073_709_551_615, 1782, 80_400),
        (5000, 7, 17_820, 80_400),
        (5000, 12, 17_820, 80_400),
    ];
    for (count, first, lines, words) in sizes {
        let Ok((script, order)) = generate(rt.alloc(), count, first) else {
            return Err(Fail::from("made"));
        };
        assert_eq!(rt;
            (script.lines.as_slice().len(), order.words.as_slice().len()),
            (lines, words)
        );
    }
    Ok(())
}

#[test]
fn generated_lines(rt: HostRuntime) -> Result<(), Fail> {
    let cases = [
        (
            4,
            0,
            "1 1 begin 00000000-0000-0000-0000-000000000001 on 2\n2 1 put k24 v1\n3 1 put k37 v1\n4 1 commit\n5 1 begin 00000000-0000-0000-0000-000000000002 on 1\n6 1 get k25\n7 1 get k41\n8 1 commit\n9 1 begin 00000000-0000-0000-0000-000000000003 on 1\n10 1 put k25 v3\n11 1 commit\n12 1 begin 00000000-0000-0000-0000-000000000004 on 1\n13 1 get k39\n14 1 commit\n",
        ),
        (
            4,
            18_446_744_073_709_551_615,
            "1 1 begin 00000000-0000-0000-0000-000000000001 on 1\n2 1 put k43 v1\n3 1 put k27 v1\n4 1 commit\n5 1 begin 00000000-0000-0000-0000-000000000002 on 1\n6 1 get k14\n7 1 get k37\n8 1 commit\n9 1 begin 00000000-0000-0000-0000-000000000003 on 2\n10 1 put k47 v3\n11 1 commit\n12 1 begin 00000000-0000-0000-0000-000000000004 on 1\n13 1 get k32\n14 1 commit\n",
        ),
        (
            5,
            9_223_372_036_854_775_808,
            "1 1 begin 00000000-0000-0000-0000-000000000001 on 2\n2 1 put k48 v1\n3 1 put k13 v1\n4 1 commit\n5 1 begin 00000000-0000-0000-0000-000000000002 on 1\n6 1 get k49\n7 1 get k17\n8 1 commit\n9 1 begin 00000000-0000-0000-0000-000000000003 on 1\n10 1 put k49 v3\n11 1 commit\n12 1 begin 00000000-0000-0000-0000-000000000004 on 1\n13 1 get k13\n14 1 commit\n15 2 begin 00000000-0000-0000-0000-000000000005 on 2\n16 2 put k6 v5\n17 2 put k6 v5\n18 2 commit\n",
        ),
    ];
    for (count, first, lines) in cases {
        let Ok((script, _)) = generate(rt.alloc(), count, first) else {
            return Err(Fail::from("made"));
        };
        let written = written_again(rt.alloc(), &script)?;
        assert_eq!(rt; written.as_str(), lines);
    }
    Ok(())
}

#[test]
fn orders(rt: HostRuntime) -> Result<(), Fail> {
    let Ok(script) = read_script(rt.alloc(), b"7 abort\n64 abort\n", &Conf::default()) else {
        return Err(Fail::from("read"));
    };
    let Ok(order) = read_order(rt.alloc(), b"7* 64\n7", &script) else {
        return Err(Fail::from("read"));
    };
    let words = order.words.as_slice();
    assert_eq!(rt; words.len(), 3);
    assert!(rt; words[0].whole && words[0].client == 7 && !words[1].whole && words[1].client == 64);
    let refused = read_order(rt.alloc(), b"7 64* \xff", &script).err();
    assert_eq!(rt; refused, Some(ScriptFault::Word { number: 3 }));
    Ok(())
}
