use crate::{Conf, ConfFault, read_conf};
use aft_id::Text;
use std::test::Fail;

#[test]
fn settings_that_are_read(rt: HostRuntime) -> Result<(), Fail> {
    let texts = [
        ("", [2, 256, 256, 4]),
        ("# none\n", [2, 256, 256, 4]),
        ("nodes = 1\n", [1, 256, 256, 4]),
        ("cache = 1", [2, 1, 256, 4]),
        ("mailbox = 4_096", [2, 256, 4096, 4]),
        ("\"rounds\" = +1", [2, 256, 256, 1]),
        (
            "rounds = 0\nmailbox = 1 # one\ncache = 4096\nnodes = 8",
            [8, 4096, 1, 0],
        ),
        ("rounds = 20\r\ncache = 0x10\r\n", [2, 16, 256, 20]),
    ];
    for (text, [nodes, cache, mailbox, rounds]) in texts {
        let conf = Conf {
            nodes,
            cache,
            mailbox,
            rounds,
        };
        let read = read_conf(rt.alloc(), text.as_bytes());
        assert!(rt; read == Ok(conf), "at {text}");
    }
    Ok(())
}

#[test]
fn settings_that_have_a_bad_key(rt: HostRuntime) -> Result<(), Fail> {
    let texts = [
        ("nodes = 9", "nodes"),
        ("nodes = 0", "nodes"),
        ("nodes = -1", "nodes"),
        ("nodes = 4294967297", "nodes"),
        ("nodes = \"2\"", "nodes"),
        ("rounds = 2.0", "rounds"),
        ("cache = 0", "cache"),
        ("cache = 4097", "cache"),
        ("mailbox = 0", "mailbox"),
        ("mailbox = 4097", "mailbox"),
        ("rounds = 21", "rounds"),
        ("rounds = -1", "rounds"),
        ("cache = true", "cache"),
        ("cache = [1]", "cache"),
        ("cache = 1979-05-27", "cache"),
        ("cache.of = 1", "cache"),
        ("Nodes = 2", "Nodes"),
        ("node = 2", "node"),
        ("\"\" = 1", ""),
        ("\"node s\" = 1", "node s"),
        ("rounds = 21\nnodes = 9\ncache = 1\n", "nodes"),
        ("cache = 0\n\"\" = 1", ""),
        ("nodes = 9\nnode = 1\nnodes2 = 1", "node"),
        ("nodes = 9\nnodes2 = 1", "nodes"),
        ("cache = 0\nZ = 1", "Z"),
        ("zoo = 1\n\"\\u00e9\" = 1", "zoo"),
        ("[nodes]\nmailbox = 0", "nodes"),
    ];
    for (text, key) in texts {
        let name = Text::from_string(String::from_str(rt.alloc(), key)?);
        let read = read_conf(rt.alloc(), text.as_bytes());
        assert!(rt; read == Err(ConfFault::BadKey { name }), "at {text}");
    }
    Ok(())
}

#[test]
fn bytes_that_are_not_toml(rt: HostRuntime) -> Result<(), Fail> {
    let texts = [
        b"nodes".as_slice(),
        b"nodes = 9 9",
        b"nodes = 1\nnodes = 1",
        b"nodes = 9\n= 1",
        b"nodes = 2\rcache = 2",
        b"# \xff",
    ];
    for text in texts {
        let read = read_conf(rt.alloc(), text);
        assert!(rt; read == Err(ConfFault::NotToml));
    }
    Ok(())
}
