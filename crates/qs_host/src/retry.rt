ghost use Rattle.std.specs.Io.{ReadsAtMost, WritesAtMost};
ghost use Rattle.std.specs.Io.KnownBytes.{ReadConsumes, WriteAppends};

use libc::net::{POLLIN, POLLOUT, poll};
use libc::types::pollfd;
use std::io::{self, Read, Write};
use std::os::fd::{AsRawFd, RawFd};

/// One read, tried again where a signal came or the reader wasn't ready.
#[tactic(auto, using(crate::proofs::KnownBytes::keeps_itself, crate::proofs::KnownBytes::keeps_on, crate::proofs::KnownBytes::reads_on))]
pub fn read_on<R: Read + AsRawFd>(reader: &mut R, into: &mut [u8]) -> io::Result<usize>
    ensures bound { ReadsAtMost result into.new }
    ensures bytes { ReadConsumes (R.remaining reader.old) (R.remaining reader.new) result into.new }
{
    for _ in 0..u64::MAX {
        match reader.read(into) {
            Ok(count) => return Ok(count),
            Err(error) => before_retry(error, reader.as_raw_fd(), Readiness::Read)?,
        }
    }
    Err(io::Error::from(io::ErrorKind::TimedOut))
}

/// One write, tried again where a signal came or the writer wasn't ready.
#[tactic(auto, using(crate::proofs::KnownBytes::keeps_itself, crate::proofs::KnownBytes::keeps_on, crate::proofs::KnownBytes::writes_on))]
pub fn write_on<W: Write + AsRawFd>(writer: &mut W, piece: &[u8]) -> io::Result<usize>
    ensures bound { WritesAtMost result piece.now }
    ensures bytes { WriteAppends (W.contents writer.old) (W.contents writer.new) result piece.now }
{
    for _ in 0..u64::MAX {
        match writer.write(piece) {
            Ok(count) => return Ok(count),
            Err(error) => before_retry(error, writer.as_raw_fd(), Readiness::Write)?,
        }
    }
    Err(io::Error::from(io::ErrorKind::TimedOut))
}

/// What a stream is waited for.
#[derive(Clone, Copy, Debug)]
enum Readiness {
    /// For bytes to read, or the end.
    Read,
    /// For room to write, or a reader that is gone.
    Write,
}

/// What is to be done where a call of a stream failed: nothing, after which it is tried again, or to fail.
///
/// An interrupted call is tried again. One that would have waited, since the stream is in non-blocking mode,
/// is tried again once the stream is ready.
fn before_retry(error: io::Error, stream: RawFd, readiness: Readiness) -> io::Result<()> {
    match error.kind() {
        io::ErrorKind::Interrupted => Ok(()),
        io::ErrorKind::WouldBlock => {
            wait_until(stream, readiness);
            Ok(())
        }
        _ => Err(error),
    }
}

/// Waits until the stream is ready, or a signal comes. Where it can't be waited for, the next call of the
/// stream tells why.
fn wait_until(stream: RawFd, readiness: Readiness) {
    let events = match readiness {
        Readiness::Read => POLLIN,
        Readiness::Write => POLLOUT,
    };
    let mut asked = [pollfd {
        fd: stream,
        events,
        revents: 0,
    }];
    let _ = poll(&mut asked, -1);
}
