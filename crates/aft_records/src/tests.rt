use super::*;
use aft_id::{Bytes, List, TxnId};
use std::alloc::Global;
use std::process::Abort;
use std::test::Fail;
use uuid::Uuid;

/// A record's tag of the first format and the id 1000-u1, in digits.
const HEAD: &str = "41433100000000000003e800000000000000000000000000000001";

/// The same of the second format.
const HEAD_2: &str = "41433200000000000003e800000000000000000000000000000001";

/// A version's tag and that id.
const HEAD_V: &str = "41563100000000000003e800000000000000000000000000000001";

/// A full marker's tag and that id.
const FULL: &str = "41463100000000000003e800000000000000000000000000000001";

/// A short marker of that id.
const DONE: &str = "41443100000000000003e800000000000000000000000000000001";

/// The key x.
const X: &str = "000000010000000178";

/// The key x, and the origin of node 1, incarnation 1, without reads.
const X_UNREAD: &str = "0000000100000001780000000000000001000000000000000100000000";

/// The same with the read 1000-u1.
const X_READ: &str =
    "000000010000000178000000000000000100000000000000010000000100000031303030303030303030303030303365382d3030303030303030303030303030303030303030303030303030303030303031";

/// The read 1000-u1.
const READ: &str = "00000000000003e8-00000000000000000000000000000001";

/// The bytes of the digits of two parts.
fn unhex(alloc: Global, head: &str, rest: &str) -> Result<Vec<u8>, Fail> {
    let mut bytes = hex::decode(alloc, head)?;
    bytes.extend_from_slice(&hex::decode(alloc, rest)?)?;
    Ok(bytes)
}

/// What the value is written as that these bytes are read as.
fn again(alloc: Global, bytes: &[u8]) -> Result<Bytes, RecordFault> {
    let written = if bytes.starts_with(b"AV1") {
        Version::decode(alloc, bytes)?.encode(alloc)
    } else if bytes.starts_with(b"AC1") {
        Commit::decode(alloc, bytes)?.encode(alloc)
    } else if bytes.starts_with(b"AC2") {
        Record::decode(alloc, bytes)?.encode(alloc)
    } else {
        Marker::decode(alloc, bytes)?.encode(alloc)
    };
    written.map_err(|_| RecordFault::Memory)
}

/// A vector is read and written again, and each of its beginnings is cut short in the part that it ends in.
fn is_vector(rt: &impl Abort, alloc: Global, bytes: &[u8], parts: &[u64]) -> Result<(), Fail> {
    assert!(rt; again(alloc, bytes)?.as_slice() == bytes);
    for n in 0..bytes.len() {
        let at = parts
            .iter()
            .copied()
            .filter(|part| *part <= n as u64)
            .max()
            .unwrap_or(0);
        let fault = RecordFault::Field(FieldFault::Short { at });
        assert!(rt; again(alloc, &bytes[..n]).err() == Some(fault), "{n}");
    }
    Ok(())
}

#[test]
fn vectors(rt: HostRuntime) -> Result<(), Fail> {
    let alloc = rt.alloc();
    let vectors: [(&str, &str, &[u64]); 8] = [
        (
            HEAD_V,
            "0000000178000000026869",
            &[0, 3, 11, 27, 31, 32, 36],
        ),
        (HEAD, X, &[0, 3, 11, 27, 31, 35]),
        (
            HEAD,
            "0000000200000001780000000179",
            &[0, 3, 11, 27, 31, 35, 36, 40],
        ),
        (FULL, X, &[0, 3, 11, 27, 31, 35]),
        (DONE, "", &[0, 3, 11]),
        (HEAD_2, X_UNREAD, &[0, 3, 11, 27, 31, 35, 36, 44, 52]),
        (HEAD_2, X_READ, &[0, 3, 11, 27, 31, 35, 36, 44, 52, 56, 60]),
        (
            HEAD_2,
            "0000000100000001780000000000000000000000000000000000000000",
            &[0, 3, 11, 27, 31, 35, 36, 44, 52],
        ),
    ];
    for (head, rest, parts) in vectors {
        is_vector(&rt, alloc, &unhex(alloc, head, rest)?, parts)?;
    }
    Ok(())
}

/// Bytes that the digits of two parts stand for, and their fault.
type Faulty<F> = (&'static str, &'static str, F);

#[test]
fn faults_of_layouts(rt: HostRuntime) -> Result<(), Fail> {
    let alloc = rt.alloc();
    let faulty: [Faulty<FieldFault>; 18] = [
        ("414631", "", FieldFault::Short { at: 3 }),
        ("414233", "", FieldFault::Tag),
        (HEAD, "0000000100000001ff", FieldFault::NotUtf8 { field: 2 }),
        (
            HEAD,
            "0000000200000002c3a90000000180",
            FieldFault::NotUtf8 { field: 2 },
        ),
        (
            HEAD,
            "0000000200000001780000000178",
            FieldFault::Unsorted { field: 2 },
        ),
        (
            HEAD,
            "0000000200000001790000000178",
            FieldFault::Unsorted { field: 2 },
        ),
        (
            HEAD,
            "000000020000000178000000017900",
            FieldFault::Spare { at: 41 },
        ),
        (
            HEAD_V,
            "00000001ff00000000",
            FieldFault::NotUtf8 { field: 2 },
        ),
        (
            HEAD_V,
            "000000017800000002686900",
            FieldFault::Spare { at: 38 },
        ),
        (FULL, "0000000100000001ff", FieldFault::NotUtf8 { field: 2 }),
        (
            FULL,
            "0000000200000001790000000178",
            FieldFault::Unsorted { field: 2 },
        ),
        (FULL, "00000001000000017800", FieldFault::Spare { at: 36 }),
        (DONE, "00", FieldFault::Spare { at: 27 }),
        (
            HEAD_2,
            "0000000100000001ff0000000000000009000000000000000100000000",
            FieldFault::NotUtf8 { field: 2 },
        ),
        (
            HEAD_2,
            "00000002000000017900000001780000000000000009000000000000000100000000",
            FieldFault::Unsorted { field: 2 },
        ),
        (
            HEAD_2,
            "000000010000000178000000000000000100000000000000010000000100000001ff",
            FieldFault::NotUtf8 { field: 5 },
        ),
        (
            HEAD_2,
            "000000010000000178000000000000000100000000000000010000000000",
            FieldFault::Spare { at: 56 },
        ),
        (
            HEAD_2,
            "000000010000000178000000000000000100000000000000010000000100000031303030303030303030303030303365382d303030303030303030303030303030303030303030303030303030303030303100",
            FieldFault::Spare { at: 109 },
        ),
    ];
    for (head, rest, fault) in faulty {
        let found = again(alloc, &unhex(alloc, head, rest)?).err();
        assert!(rt; found == Some(RecordFault::Field(fault)), "{head} {rest}");
    }
    Ok(())
}

#[test]
fn faults_of_limits(rt: HostRuntime) -> Result<(), Fail> {
    let alloc = rt.alloc();
    let faulty: [Faulty<RecordFault>; 16] = [
        (
            "414331000000000000000000000000000000000000000000000001",
            X,
            RecordFault::BadTime,
        ),
        (
            "414331000100000000000000000000000000000000000000000001",
            X,
            RecordFault::BadTime,
        ),
        (
            "414332000000000000000000000000000000000000000000000001",
            "000000000000000000000009000000000000000100000000",
            RecordFault::BadTime,
        ),
        (
            "415631000000000000000000000000000000000000000000000001",
            "000000012000000000",
            RecordFault::BadTime,
        ),
        (
            "414631000100000000000000000000000000000000000000000001",
            "00000000",
            RecordFault::BadTime,
        ),
        (
            "414431000000000000000000000000000000000000000000000001",
            "",
            RecordFault::BadTime,
        ),
        (
            "414431000100000000000000000000000000000000000000000001",
            "",
            RecordFault::BadTime,
        ),
        (HEAD, "00000000", RecordFault::BadKeys),
        (FULL, "00000000", RecordFault::BadKeys),
        (
            HEAD_2,
            "000000000000000000000009000000000000000100000000",
            RecordFault::BadKeys,
        ),
        (HEAD, "000000010000000120", RecordFault::BadKey { index: 0 }),
        (HEAD, "0000000100000000", RecordFault::BadKey { index: 0 }),
        (
            HEAD,
            "000000020000000178000000017f",
            RecordFault::BadKey { index: 1 },
        ),
        (FULL, "000000010000000120", RecordFault::BadKey { index: 0 }),
        (
            HEAD_V,
            "000000012000000000",
            RecordFault::BadKey { index: 0 },
        ),
        (
            HEAD_2,
            "0000000100000001200000000000000009000000000000000100000000",
            RecordFault::BadKey { index: 0 },
        ),
    ];
    for (head, rest, fault) in faulty {
        let found = again(alloc, &unhex(alloc, head, rest)?).err();
        assert!(rt; found == Some(fault), "{head} {rest}");
    }
    Ok(())
}

/// Writes a length as four bytes.
fn put_length(bytes: &mut Vec<u8>, length: usize) -> Result<(), Fail> {
    bytes.extend_from_slice(&(length as u64).to_be_bytes()[4..])?;
    Ok(())
}

#[test]
fn too_much(rt: HostRuntime) -> Result<(), Fail> {
    let alloc = rt.alloc();
    let mut long_value = unhex(alloc, HEAD_V, "000000017800001001")?;
    long_value.extend_from_slice(&[7; 4097])?;
    assert!(rt; again(alloc, &long_value).err() == Some(RecordFault::LongValue));
    let mut bad_key = unhex(alloc, HEAD_V, "000000012000001001")?;
    bad_key.extend_from_slice(&[7; 4097])?;
    assert!(rt; again(alloc, &bad_key).err() == Some(RecordFault::BadKey { index: 0 }));
    let mut long_key = unhex(alloc, HEAD, "0000000100000041")?;
    long_key.extend_from_slice(&[b'x'; 65])?;
    assert!(rt; again(alloc, &long_key).err() == Some(RecordFault::BadKey { index: 0 }));
    let mut many_keys = unhex(alloc, HEAD, "00000021")?;
    for digit in b'A'..=b'a' {
        put_length(&mut many_keys, 1)?;
        many_keys.push(digit)?;
    }
    assert!(rt; again(alloc, &many_keys).err() == Some(RecordFault::BadKeys));
    Ok(())
}

/// A record of 1000-u1 of x from this node and incarnation, with these reads.
fn record_from(alloc: Global, node: u64, inc: u64, reads: &[&str]) -> Result<Vec<u8>, Fail> {
    let mut bytes = unhex(alloc, HEAD_2, X)?;
    bytes.extend_from_slice(&node.to_be_bytes())?;
    bytes.extend_from_slice(&inc.to_be_bytes())?;
    put_length(&mut bytes, reads.len())?;
    for read in reads {
        put_length(&mut bytes, read.len())?;
        bytes.extend_from_slice(read.as_bytes())?;
    }
    Ok(bytes)
}

/// The read 1000-u1 with digits in upper case.
const UPPER_READ: &str = "00000000000003E8-00000000000000000000000000000001";

/// Nine reads.
const NINE_READS: [&str; 9] = [
    "0000000000000001-00000000000000000000000000000001",
    "0000000000000002-00000000000000000000000000000001",
    "0000000000000003-00000000000000000000000000000001",
    "0000000000000004-00000000000000000000000000000001",
    "0000000000000005-00000000000000000000000000000001",
    "0000000000000006-00000000000000000000000000000001",
    "0000000000000007-00000000000000000000000000000001",
    "0000000000000008-00000000000000000000000000000001",
    "0000000000000009-00000000000000000000000000000001",
];

#[test]
fn faults_of_origins(rt: HostRuntime) -> Result<(), Fail> {
    let alloc = rt.alloc();
    let faulty: [(u64, u64, &[&str]); 7] = [
        (9, 1, &[]),
        (1, 1 << 32, &[]),
        (1, 0, &[]),
        (0, 1, &[]),
        (0, 0, &[READ]),
        (9, 1, &[UPPER_READ]),
        (9, 1, &NINE_READS),
    ];
    for (node, inc, reads) in faulty {
        let found = again(alloc, &record_from(alloc, node, inc, reads)?).err();
        assert!(rt; found == Some(RecordFault::BadOrigin), "{node} {inc}");
    }
    Ok(())
}

#[test]
fn faults_of_reads(rt: HostRuntime) -> Result<(), Fail> {
    let alloc = rt.alloc();
    let bad = RecordFault::BadReads;
    let faulty: [(&[&str], RecordFault); 8] = [
        (&NINE_READS, bad),
        (&[UPPER_READ], bad),
        (&["0000000000000000-00000000000000000000000000000001"], bad),
        (&["0001000000000000-00000000000000000000000000000001"], bad),
        (&["00000000000003e8-0000000000000000000000000000000"], bad),
        (&[""], bad),
        (
            &["00000000000003e9-00000000000000000000000000000001", READ],
            RecordFault::Field(FieldFault::Unsorted { field: 5 }),
        ),
        (
            &[READ, READ],
            RecordFault::Field(FieldFault::Unsorted { field: 5 }),
        ),
    ];
    for (reads, fault) in faulty {
        let found = again(alloc, &record_from(alloc, 1, 1, reads)?).err();
        assert!(rt; found == Some(fault), "{fault}");
    }
    let eight = record_from(alloc, 8, 0xffff_ffff, &NINE_READS[..8])?;
    assert!(rt; again(alloc, &eight)?.as_slice() == eight.as_slice());
    Ok(())
}

#[test]
fn cut_in_the_tag(rt: HostRuntime) {
    let alloc = rt.alloc();
    let cut = Some(RecordFault::Field(FieldFault::Short { at: 0 }));
    for n in 0..3 {
        assert!(rt; Version::decode(alloc, &b"AV1"[..n]).err() == cut);
        assert!(rt; Commit::decode(alloc, &b"AC1"[..n]).err() == cut);
        assert!(rt; Record::decode(alloc, &b"AC2"[..n]).err() == cut);
        assert!(rt; Marker::decode(alloc, &b"AF1"[..n]).err() == cut);
    }
}

#[test]
fn either_format(rt: HostRuntime) -> Result<(), Fail> {
    let alloc = rt.alloc();
    let first = unhex(alloc, HEAD, X)?;
    let second = unhex(alloc, HEAD_2, X_UNREAD)?;
    let commit = Commit::decode(alloc, &second)?;
    assert!(rt; commit.encode(alloc)?.as_slice() == first.as_slice());
    let from_nine = record_from(alloc, 9, 1, &[])?;
    assert!(rt; Commit::decode(alloc, &from_nine).err() == Some(RecordFault::BadOrigin));
    let tag = Some(RecordFault::Field(FieldFault::Tag));
    assert!(rt; Marker::decode(alloc, &first).err() == tag);
    assert!(rt; Record::decode(alloc, &first).err() == tag);
    Ok(())
}

fn an_id() -> TxnId {
    TxnId {
        time: 1000,
        uuid: Uuid::from_u128(1),
    }
}

fn keys_of(alloc: Global, names: &[&[u8]]) -> Result<List<Key>, Fail> {
    let mut keys = Vec::new(alloc);
    for name in names {
        keys.push(Key::new(alloc, name)?)?;
    }
    Ok(List::from_vec(keys))
}

#[test]
fn write_sets(rt: HostRuntime) -> Result<(), Fail> {
    let alloc = rt.alloc();
    assert!(rt; Keys::new(keys_of(alloc, &[])?).err() == Some(RecordFault::BadKeys));
    let twice = Keys::new(keys_of(alloc, &[b"x", b"x"])?).err();
    assert!(rt; twice == Some(RecordFault::Field(FieldFault::Unsorted { field: 0 })));
    let mut many = Vec::new(alloc);
    for b in b'A'..=b'a' {
        many.push(Key::new(alloc, &[b])?)?;
    }
    assert!(rt; Keys::new(List::from_vec(many)).err() == Some(RecordFault::BadKeys));
    Ok(())
}

fn is_name(rt: &impl Abort, alloc: Global, name: Name, text: &str) -> Result<(), Fail> {
    let written = name.write(alloc)?;
    assert!(rt; written.as_str() == text);
    let read = Name::read(alloc, text)?;
    assert!(rt; read == name);
    Ok(())
}

#[test]
fn names(rt: HostRuntime) -> Result<(), Fail> {
    let alloc = rt.alloc();
    let uuid = Uuid::from_u128(1);
    let key = Key::new(alloc, b"x")?;
    let version = Name::VersionOf { key, id: an_id() };
    is_name(
        &rt,
        alloc,
        version,
        "v/78/00000000000003e8-00000000000000000000000000000001",
    )?;
    is_name(
        &rt,
        alloc,
        Name::CommitOf { uuid },
        "c/00000000000000000000000000000001",
    )?;
    is_name(
        &rt,
        alloc,
        Name::RetiredOf { uuid },
        "r/00000000000000000000000000000001",
    )
}

#[test]
fn copies_of_what_is_stored(rt: HostRuntime) -> Result<(), Fail> {
    let alloc = rt.alloc();
    let version = Version::decode(alloc, &unhex(alloc, HEAD_V, "0000000178000000026869")?)?;
    let whole = Record::decode(alloc, &unhex(alloc, HEAD_2, X_READ)?)?;
    let full = Marker::decode(alloc, &unhex(alloc, FULL, X)?)?;
    let done = Marker::decode(alloc, &unhex(alloc, DONE, "")?)?;
    assert!(rt; version.clone()? == version);
    assert!(rt; version.key.clone()? == version.key);
    assert!(rt; whole.clone()? == whole);
    assert!(rt; whole.commit.clone()? == whole.commit);
    assert!(rt; whole.commit.keys.clone()? == whole.commit.keys);
    assert!(rt; whole.origin.clone()? == whole.origin);
    assert!(rt; full.clone()? == full);
    assert!(rt; done.clone()? == done);
    Ok(())
}

#[test]
fn copies_of_names(rt: HostRuntime) -> Result<(), Fail> {
    let key = Key::new(rt.alloc(), b"x")?;
    let id = an_id();
    let names = [
        Name::VersionOf { key, id },
        Name::CommitOf { uuid: id.uuid },
        Name::RetiredOf { uuid: id.uuid },
    ];
    for name in &names {
        assert!(rt; name.clone()? == *name);
    }
    Ok(())
}

#[test]
fn no_names(rt: HostRuntime) {
    let table = [
        "c/zz",
        "v/78/00000000000003E8-00000000000000000000000000000001",
        "v/78/0000000000000000-00000000000000000000000000000001",
        "v/20/00000000000003e8-00000000000000000000000000000001",
        "c/0000000000000000000000000000000A",
    ];
    for text in table {
        let refused = Name::read(rt.alloc(), text).err();
        assert!(rt; refused == Some(NameFault::BadName), "{text}");
    }
}
