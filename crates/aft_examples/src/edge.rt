//! The real source, sink and clock.

use aft_keeper::{Clock, Sink, Source, SourceFault};
use aft_run::{FileSource, OutSink, RealClock};
use std::fs;
use std::test::Fail;

#[test]
fn files(rt: HostRuntime) -> Result<(), Fail> {
    fs::write(&rt, "a_file", "1 commit\n")?;
    let mut source = FileSource::new(&rt);
    assert_eq!(rt; source.read("a_file")?.as_slice(), b"1 commit\n".as_slice());
    assert!(rt; matches!(source.read("no_file"), Err(SourceFault::Absent)));
    assert!(rt; matches!(source.read("."), Err(SourceFault::Failed)));
    fs::remove_file(&rt, "a_file")?;
    Ok(())
}

#[test]
fn output_and_clock(rt: HostRuntime) -> Result<(), Fail> {
    let mut sink = OutSink::new(&rt);
    sink.write(b"a piece of output\n")?;
    sink.write(b"")?;
    let clock = RealClock::new(&rt);
    let then = clock.now();
    assert!(rt; then > 1_600_000_000_000);
    assert!(rt; then < 100_000_000_000_000);
    Ok(())
}
