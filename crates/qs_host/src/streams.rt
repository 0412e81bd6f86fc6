ghost use Rattle.std.specs.Prelude.{◌≡◌};

use crate::faults::Faults;
use crate::retry::{read_on, write_on};
use qs_outside::{Failed, Sink, Source};
use std::io::{self, Read, Write};
use std::os::fd::AsRawFd;

/// A reader as a source. An interrupted read is tried again, and a reader in non-blocking mode is waited for.
#[derive(Drop)]
pub struct Reading<R> {
    inner: R,
    faults: Faults,
}

impl<R> Reading<R> {
    /// No read was made yet.
    pub fn new(inner: R) -> Self
        ensures inner { result.inner ≡ inner }
        ensures faults { result.faults.count ≡ 0 }
    {
        Reading {
            inner,
            faults: Faults::new(),
        }
    }

    /// Why the last read failed that did.
    pub fn reason(&self) -> Option<io::Error>
        ensures { result ≡ self.now.faults.last }
    {
        self.faults.reason()
    }
}

impl<R: Read + AsRawFd> Source for Reading<R> {
    ghost left = { λ s. R.remaining s.inner };

    ghost read_faults = { λ s. s.faults.count };

    fn read(&mut self, into: &mut [u8]) -> Result<usize, Failed> {
        match read_on(&mut self.inner, into) {
            Ok(count) => Ok(count),
            Err(reason) => Err(self.faults.note(reason)),
        }
    }
}

/// A writer as a sink. One that takes nothing has failed. An interrupted write is tried again, and a writer in
/// non-blocking mode is waited for.
#[derive(Drop)]
pub struct Writing<W> {
    inner: W,
    faults: Faults,
}

impl<W> Writing<W> {
    /// No write was made yet.
    pub fn new(inner: W) -> Self
        ensures inner { result.inner ≡ inner }
        ensures faults { result.faults.count ≡ 0 }
    {
        Writing {
            inner,
            faults: Faults::new(),
        }
    }

    /// Why the last write failed that did.
    pub fn reason(&self) -> Option<io::Error>
        ensures { result ≡ self.now.faults.last }
    {
        self.faults.reason()
    }
}

impl<W: Write + AsRawFd> Sink for Writing<W> {
    ghost sent = { λ s. W.contents s.inner };

    ghost write_faults = { λ s. s.faults.count };

    fn write(&mut self, piece: &[u8]) -> Result<usize, Failed> {
        match write_on(&mut self.inner, piece) {
            Ok(count) if count > 0 || piece.is_empty() => Ok(count),
            Ok(_) => Err(self.faults.note(io::Error::from(io::ErrorKind::WriteZero))),
            Err(reason) => Err(self.faults.note(reason)),
        }
    }
}
