//! The real source of files, sink and clock: the edge where nothing is told of what they hold.

ghost use Rattle.std.specs.Prelude.{◌≡◌, None};

use crate::limits::FILE_BYTES;
use aft_id::Bytes;
use aft_keeper::{Clock, Sink, SinkFault, Source, SourceFault};
use std::fs::File;
use std::io;
use std::io::{ErrorKind, Read, Write};
use std::rt::{Clock as SystemClock, Files};
use std::time::{SystemTime, UNIX_EPOCH};

/// The files of the system. It counts its faults.
#[derive(Drop)]
pub struct FileSource<'a, R> {
    rt: &'a R,
    faults: u64,
    absences: u64,
}

impl<'a, R: Files + AllocGlobal> FileSource<'a, R> {
    /// The files that a runtime reaches.
    pub fn new(rt: &'a R) -> FileSource<'a, R> {
        FileSource {
            rt,
            faults: 0,
            absences: 0,
        }
    }
}

impl<R: Files + AllocGlobal> Source for FileSource<'_, R> {
    ghost faults = { λ source. source.faults };

    ghost absences = { λ source. source.absences };

    ghost files = { λ source. None };

    fn read(&mut self, name: &str) -> Result<Bytes, SourceFault> {
        match read_file(self.rt, name) {
            Ok(bytes) => Ok(Bytes::from_vec(bytes)),
            Err(e) => match e.kind() {
                ErrorKind::OutOfMemory => Err(SourceFault::Memory),
                ErrorKind::NotFound => {
                    self.absences = self.absences.saturating_add(1);
                    Err(SourceFault::Absent)
                }
                _ => {
                    self.faults = self.faults.saturating_add(1);
                    Err(SourceFault::Failed)
                }
            },
        }
    }
}

/// All bytes of a file of at most 2^32 - 1 bytes.
fn read_file<R: Files + AllocGlobal>(rt: &R, name: &str) -> io::Result<Vec<u8>> {
    let file = File::open(rt, name)?;
    let mut bytes = Vec::new(rt.alloc());
    file.take(FILE_BYTES + 1).read_to_end(&mut bytes)?;
    if bytes.len() as u64 > FILE_BYTES {
        return Err(io::Error::from(ErrorKind::FileTooLarge));
    }
    Ok(bytes)
}

/// The standard output. It counts its faults.
#[derive(Drop)]
pub struct OutSink<'a, R> {
    rt: &'a R,
    faults: u64,
}

impl<'a, R: Print> OutSink<'a, R> {
    /// The standard output of a runtime.
    pub fn new(rt: &'a R) -> OutSink<'a, R> {
        OutSink { rt, faults: 0 }
    }
}

impl<R: Print> Sink for OutSink<'_, R> {
    ghost faults = { λ sink. sink.faults };

    ghost taken = { λ sink. None };

    fn write(&mut self, piece: &[u8]) -> Result<(), SinkFault> {
        match write_piece(self.rt, piece) {
            Ok(()) => Ok(()),
            Err(_) => {
                self.faults = self.faults.saturating_add(1);
                Err(SinkFault::Failed)
            }
        }
    }
}

/// Writes a whole piece. An output that takes nothing of what is left is a fault.
fn write_piece<R: Print>(rt: &R, piece: &[u8]) -> io::Result<()> {
    let mut out = io::writer(rt);
    out.write_all(piece)?;
    out.flush()
}

/// The clock of the system.
#[derive(Drop)]
pub struct RealClock<'a, R> {
    rt: &'a R,
}

impl<'a, R: SystemClock> RealClock<'a, R> {
    /// The clock of a runtime.
    pub fn new(rt: &'a R) -> RealClock<'a, R> {
        RealClock { rt }
    }
}

impl<R: SystemClock> Clock for RealClock<'_, R> {
    ghost time = { λ clock. None };

    /// Milliseconds since the start of 1970, or 0 where the system gives no time.
    fn now(&self) -> u64 {
        match SystemTime::now(self.rt) {
            Ok(time) => match time.duration_since(UNIX_EPOCH) {
                Ok(since) => u64::try_from(since.as_millis()).unwrap_or(0),
                Err(_) => 0,
            },
            Err(_) => 0,
        }
    }
}
