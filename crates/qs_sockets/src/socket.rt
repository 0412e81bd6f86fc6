ghost use Rattle.std.specs.Prelude.{◌≡◌, ◌≢◌, ◌<◌, None, length, refl, IfOk};
ghost use Rattle.std.specs.Io.{ReadsAtMost, WritesAtMost};
ghost use Rattle.std.specs.Io.KnownBytes.{Appends, Consumes, ReadConsumes, WriteAppends};
ghost use Rattle.qs_outside.specs.Faults.{HasCause};
ghost use Rattle.qs_links.specs.Tries.{CountsIf, EndsRead, MovesWithin, is_failed, is_not_ready, moved_by};
ghost use Rattle.qs_links.specs.declared.wire.Tried.TheVariants.{Ended};

use mio::event::Source as Registered;
use mio::{Interest, Registry, Token};
use qs_host::{Faults, read_on, write_on};
use qs_links::{Link, Tried, Wire};
use qs_outside::{Failed, Sink, Source};
use std::io::{self, Read, Write};
use std::os::fd::AsRawFd;

/// A connection in non-blocking mode: as a wire it never waits, and as a link it waits until it is ready.
///
/// It tells no bytes. Each side counts its own faults.
#[derive(Drop)]
pub struct Socket<S> {
    stream: S,
    reads: Faults,
    writes: Faults,
    waits: u64,
}

impl<S> Socket<S> {
    /// No call was made yet. The caller has put the stream into non-blocking mode.
    pub fn new(stream: S) -> Self
        ensures stream { result.stream ≡ stream }
        ensures reads { result.reads.count ≡ 0 }
        ensures writes { result.writes.count ≡ 0 }
        ensures waits { result.waits ≡ 0 }
    {
        Socket {
            stream,
            reads: Faults::new(),
            writes: Faults::new(),
            waits: 0,
        }
    }

    /// Why the last read failed that did.
    pub fn read_reason(&self) -> Option<io::Error>
        ensures { result ≡ self.now.reads.last }
    {
        self.reads.reason()
    }

    /// Why the last write failed that did.
    pub fn write_reason(&self) -> Option<io::Error>
        ensures { result ≡ self.now.writes.last }
    {
        self.writes.reason()
    }
}

/// One read, tried again where a signal came.
#[tactic(auto, using(qs_host::proofs::KnownBytes::keeps_itself, qs_host::proofs::KnownBytes::keeps_on, qs_host::proofs::KnownBytes::reads_on))]
fn read_now<R: Read>(reader: &mut R, into: &mut [u8]) -> io::Result<usize>
    ensures bound { ReadsAtMost result into.new }
    ensures bytes { ReadConsumes (R.remaining reader.old) (R.remaining reader.new) result into.new }
{
    for _ in 0..u64::MAX {
        match reader.read(into) {
            Err(error) if error.kind() == io::ErrorKind::Interrupted => {}
            answer => return answer,
        }
    }
    Err(io::Error::from(io::ErrorKind::TimedOut))
}

/// One write, tried again where a signal came.
#[tactic(auto, using(qs_host::proofs::KnownBytes::keeps_itself, qs_host::proofs::KnownBytes::keeps_on, qs_host::proofs::KnownBytes::writes_on))]
fn write_now<W: Write>(writer: &mut W, piece: &[u8]) -> io::Result<usize>
    ensures bound { WritesAtMost result piece.now }
    ensures bytes { WriteAppends (W.contents writer.old) (W.contents writer.new) result piece.now }
{
    for _ in 0..u64::MAX {
        match writer.write(piece) {
            Err(error) if error.kind() == io::ErrorKind::Interrupted => {}
            answer => return answer,
        }
    }
    Err(io::Error::from(io::ErrorKind::TimedOut))
}

impl<S: Read + Write> Wire for Socket<S> {
    ghost left = { λ _. None };

    ghost sent = { λ _. None };

    ghost read_faults = { λ s. s.reads.count };

    ghost write_faults = { λ s. s.writes.count };

    ghost waits = { λ s. s.waits };

    fn try_read(&mut self, into: &mut [u8]) -> Tried
        ensures bound { MovesWithin (length into.new) result }
        ensures end { EndsRead None (length into.new) result }
        ensures cause { CountsIf (is_failed result) self.old.reads.count self.new.reads.count }
        ensures wait { CountsIf (is_not_ready result) self.old.waits self.new.waits }
        ensures beside_count { self.new.writes.count ≡ self.old.writes.count }

        // What is told of the stream's bytes is true of the try.
        ensures bytes { Consumes (S.remaining self.old.stream) (S.remaining self.new.stream)
            (moved_by result into.new) }
        ensures ended { EndsRead (S.remaining self.new.stream) (length into.new) result }
    {
        match read_now(&mut self.stream, into) {
            Ok(0) if !into.is_empty() => Tried::Ended,
            Ok(count) => Tried::Did(count),
            Err(error) if error.kind() == io::ErrorKind::WouldBlock => {
                self.waits = self.waits.saturating_add(1);
                Tried::NotReady
            }
            Err(error) => {
                self.reads.note(error);
                Tried::Failed
            }
        }
    }

    fn try_write(&mut self, piece: &[u8]) -> Tried
        ensures bound { MovesWithin (length piece.now) result }
        ensures endless { result ≢ Ended }
        ensures cause { CountsIf (is_failed result) self.old.writes.count self.new.writes.count }
        ensures wait { CountsIf (is_not_ready result) self.old.waits self.new.waits }
        ensures beside_count { self.new.reads.count ≡ self.old.reads.count }

        // What is told of the stream's bytes is true of the try.
        ensures bytes { Appends (S.contents self.old.stream) (S.contents self.new.stream) (moved_by result piece.now) }
    {
        match write_now(&mut self.stream, piece) {
            Ok(0) if !piece.is_empty() => {
                self.writes.note(io::Error::from(io::ErrorKind::WriteZero));
                Tried::Failed
            }
            Ok(count) => Tried::Did(count),
            Err(error) if error.kind() == io::ErrorKind::WouldBlock => {
                self.waits = self.waits.saturating_add(1);
                Tried::NotReady
            }
            Err(error) => {
                self.writes.note(error);
                Tried::Failed
            }
        }
    }
}

impl<S: Read + AsRawFd> Source for Socket<S> {
    ghost left = { λ _. None };

    ghost read_faults = { λ s. s.reads.count };

    ghost write_beside = { λ s. s.writes.count };

    fn read(&mut self, into: &mut [u8]) -> Result<usize, Failed>
        ensures bound { ReadsAtMost result into.new }
        ensures cause { HasCause self.old.reads.count self.new.reads.count result }
        ensures beside_count { self.new.writes.count ≡ self.old.writes.count }

        // What is told of the stream's bytes is true of the read.
        ensures bytes { ReadConsumes (S.remaining self.old.stream) (S.remaining self.new.stream) result into.new }
    {
        match read_on(&mut self.stream, into) {
            Ok(count) => Ok(count),
            Err(error) => Err(self.reads.note(error)),
        }
    }
}

impl<S: Write + AsRawFd> Sink for Socket<S> {
    ghost sent = { λ _. None };

    ghost write_faults = { λ s. s.writes.count };

    ghost read_beside = { λ s. s.reads.count };

    fn write(&mut self, piece: &[u8]) -> Result<usize, Failed>
        ensures bound { WritesAtMost result piece.now }
        ensures some { IfOk result (λ n. 0 < length piece.now → 0 < n) }
        ensures cause { HasCause self.old.writes.count self.new.writes.count result }
        ensures beside_count { self.new.reads.count ≡ self.old.reads.count }

        // What is told of the stream's bytes is true of the write.
        ensures bytes { WriteAppends (S.contents self.old.stream) (S.contents self.new.stream) result piece.now }
    {
        match write_on(&mut self.stream, piece) {
            Ok(0) if !piece.is_empty() => {
                Err(self.writes.note(io::Error::from(io::ErrorKind::WriteZero)))
            }
            Ok(count) => Ok(count),
            Err(error) => Err(self.writes.note(error)),
        }
    }
}

impl<S: Read + Write + AsRawFd> Link for Socket<S> {
    ghost sent_told = { λ _. refl };

    ghost write_told = { λ _. refl };

    ghost left_told = { λ _. refl };

    ghost read_told = { λ _. refl };
}

impl<S: Registered> Registered for Socket<S> {
    ghost use Rattle.std.specs.Prelude.{◌≡◌};

    // No count changes.
    ghost keeps = { λ a b. S.keeps a.stream b.stream × (b.reads ≡ a.reads) × (b.writes ≡ a.writes)
        × (b.waits ≡ a.waits) };

    fn register(
        &mut self,
        registry: &Registry,
        token: Token,
        interests: Interest,
    ) -> io::Result<()> {
        self.stream.register(registry, token, interests)
    }

    fn reregister(
        &mut self,
        registry: &Registry,
        token: Token,
        interests: Interest,
    ) -> io::Result<()> {
        self.stream.reregister(registry, token, interests)
    }

    fn deregister(&mut self, registry: &Registry) -> io::Result<()> {
        self.stream.deregister(registry)
    }
}
