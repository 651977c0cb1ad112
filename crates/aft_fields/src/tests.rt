use super::*;
use std::process::Abort;
use std::test::Fail;

/// A version of x with the value `hi` at time 1000 and UUID 1.
const VERSION: &[u8] =
    b"AV1\0\0\0\0\0\0\x03\xe8\0\0\0\0\0\0\0\0\0\0\0\0\0\0\0\x01\0\0\0\x01x\0\0\0\x02hi";

/// The commit of that time and UUID, with the keys x and y.
const COMMIT: &[u8] =
    b"AC1\0\0\0\0\0\0\x03\xe8\0\0\0\0\0\0\0\0\0\0\0\0\0\0\0\x01\0\0\0\x02\0\0\0\x01x\0\0\0\x01y";

const VERSIONS: Layout<4> = Layout {
    tag: *b"AV1",
    kinds: [Kind::U64, Kind::U128, Kind::Text, Kind::Bytes],
};

const COMMITS: Layout<3> = Layout {
    tag: *b"AC1",
    kinds: [Kind::U64, Kind::U128, Kind::Texts],
};

/// A text, any bytes and texts.
const TEXTS: Layout<3> = Layout {
    tag: *b"TX1",
    kinds: [Kind::Text, Kind::Bytes, Kind::Texts],
};

/// One number.
const NUMBERS: Layout<1> = Layout {
    tag: *b"NR1",
    kinds: [Kind::U64],
};

#[test]
fn version(rt: HostRuntime) -> Result<(), Fail> {
    let row = VERSIONS.read(rt.alloc(), VERSION)?;
    assert!(rt; matches!(row.cell(0), Cell::U64(1000)));
    assert!(rt; matches!(row.cell(1), Cell::U128(1)));
    assert!(rt; matches!(row.cell(2), Cell::Text(key) if key.as_slice() == b"x".as_slice()));
    assert!(rt; matches!(row.cell(3), Cell::Bytes(value) if value.as_slice() == b"hi".as_slice()));
    let row = Row::<4>::new(row.into_cells());
    let written = VERSIONS.write(rt.alloc(), &row)?;
    assert!(rt; written.into_vec().as_slice() == VERSION);
    Ok(())
}

#[test]
fn commit(rt: HostRuntime) -> Result<(), Fail> {
    let row = COMMITS.read(rt.alloc(), COMMIT)?;
    let written = COMMITS.write(rt.alloc(), &row)?;
    assert!(rt; written.as_slice() == COMMIT);
    Ok(())
}

/// Where the parts of the commit begin: tag, time, UUID, number of texts, and the length and body of each.
const PARTS: [u64; 8] = [0, 3, 11, 27, 31, 35, 36, 40];

#[test]
fn beginnings(rt: HostRuntime) {
    for n in 0..COMMIT.len() {
        let at = PARTS
            .iter()
            .copied()
            .filter(|part| *part <= n as u64)
            .max()
            .unwrap_or(0);
        let fault = COMMITS.read(rt.alloc(), &COMMIT[..n]).err();
        assert!(rt; fault == Some(FieldFault::Short { at }), "{n}");
    }
}

#[test]
fn empty_cells(rt: HostRuntime) -> Result<(), Fail> {
    let bytes = b"TX1\0\0\0\0\0\0\0\0\0\0\0\0".as_slice();
    let row = TEXTS.read(rt.alloc(), bytes)?;
    assert!(rt; matches!(row.cell(0), Cell::Text(text) if text.as_slice().is_empty()));
    assert!(rt; matches!(row.cell(1), Cell::Bytes(bytes) if bytes.as_slice().is_empty()));
    assert!(rt; matches!(row.cell(2), Cell::Texts(texts) if texts.as_slice().is_empty()));
    let written = TEXTS.write(rt.alloc(), &row)?;
    assert!(rt; written.as_slice() == bytes);
    Ok(())
}

#[test]
fn one_field(rt: HostRuntime) -> Result<(), Fail> {
    let bytes = b"NR1\0\0\0\0\0\0\x03\xe8".as_slice();
    let row = NUMBERS.read(rt.alloc(), bytes)?;
    assert!(rt; matches!(row.cell(0), Cell::U64(1000)));
    let written = NUMBERS.write(rt.alloc(), &row)?;
    assert!(rt; written.as_slice() == bytes);
    Ok(())
}

#[test]
fn lent_cells(rt: HostRuntime) -> Result<(), Fail> {
    let mut out = Writer::new(rt.alloc(), b"AC1")?;
    out.put_u64(1000)?;
    out.put_u128(1)?;
    out.put_count(2)?;
    out.put_bytes(b"x")?;
    out.put_bytes(b"y")?;
    assert!(rt; out.into_raw().as_slice() == COMMIT);
    Ok(())
}
