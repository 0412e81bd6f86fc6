//! How a program ended, in words for people.
ghost use Rattle.std.specs.Prelude.{◌≡◌};

use crate::exit::exit_of;
use crate::streams::{Reading, Writing};
use qs_status::{OpenBad, SessionEnd, Status};
use std::{fmt, io};

/// How a run ended, and why the system refused the call that ended it.
#[derive(Clone, Copy, Debug)]
pub struct Ended {
    pub status: Status,
    pub reason: Option<io::Error>,
}

impl Ended {
    /// The end of a run that read from this input and wrote to this output.
    pub fn of<I, O>(status: Status, input: &Reading<I>, output: &Writing<O>) -> Ended
        ensures { result.status ≡ status }
    {
        let reason = match status {
            Status::ReadFault => input.reason(),
            Status::WriteFault => output.reason(),
            _ => None,
        };
        Ended { status, reason }
    }
}

/// The rule that an image breaks, for blocks of `align` bytes.
#[derive(Clone, Copy, Debug)]
pub struct BrokenRule {
    pub bad: OpenBad,
    pub align: u32,
}

impl fmt::Display for BrokenRule {
    fn fmt<W: fmt::Write>(&self, f: &mut fmt::Formatter<W>) -> fmt::Result {
        match self.bad {
            OpenBad::Count(count) => write!(f, "{count} disks hold the image, and not 8"),
            OpenBad::Different(disk) => write!(f, "disk {disk} is of another image than the first"),
            OpenBad::Align(align) => write!(
                f,
                "a block of {align} bytes, and neither 512 nor 4096"
            ),
            OpenBad::Length(length) => {
                let align = self.align;
                write!(f, "its length, {length} bytes, is no multiple of {align}")
            }
            OpenBad::TooLarge(length) => {
                write!(
                    f,
                    "its length, {length} bytes, is over 2^40, which is 1099511627776"
                )
            }
        }
    }
}

/// A call of a standard stream that the system refused.
fn write_refused<W: fmt::Write>(
    f: &mut fmt::Formatter<W>,
    what: &str,
    reason: Option<io::Error>,
) -> fmt::Result {
    match reason {
        Some(reason) => write!(f, "{what}: {reason}"),
        None => f.write_str(what),
    }
}

/// How a session ended.
fn write_end<W: fmt::Write>(f: &mut fmt::Formatter<W>, end: SessionEnd) -> fmt::Result {
    match end {
        SessionEnd::Done => f.write_str("the client left"),
        SessionEnd::Truncated => f.write_str("the input ended within a message"),
        SessionEnd::BadMagic(magic) => write!(
            f,
            "a message begins with the magic number {magic:08x}"
        ),
        SessionEnd::BadFlags(flags) => write!(f, "the client set the flags {flags:08x}"),
        SessionEnd::TooLong(length) => write!(f, "a message of {length} bytes is too long"),
        SessionEnd::NotFixed(option) => write!(
            f,
            "option {option} came from a client of the old style"
        ),
        SessionEnd::Aborted => f.write_str("the client aborted"),
        SessionEnd::NoExport => f.write_str("there is no such export"),
        SessionEnd::Crowded => f.write_str("the export has too many clients"),
        SessionEnd::Shutting => f.write_str("the export went away"),
        SessionEnd::LinkFault => f.write_str("the connection failed"),
        SessionEnd::Memory => f.write_str("memory was refused"),
    }
}

impl fmt::Display for Ended {
    fn fmt<W: fmt::Write>(&self, f: &mut fmt::Formatter<W>) -> fmt::Result {
        match self.status {
            Status::Done => f.write_str("the input was read to its end"),
            Status::Usage => f.write_str("the words aren't understood"),
            Status::OpenBad(_) => f.write_str("the disks are no image"),
            Status::ReadFault => write_refused(f, "standard input can't be read", self.reason),
            Status::WriteFault => write_refused(f, "standard output can't be written", self.reason),
            Status::BadLine(line) => write!(f, "line {line} isn't understood"),
            Status::NotNext(line) => write!(f, "line {line}: its event can't come now"),
            Status::Spent => f.write_str("2^32 messages or lines were read, which is the most"),
            Status::Memory => f.write_str("memory was refused"),
            Status::Ended(end) => write_end(f, end),
        }
    }
}

/// Tells on standard error how a program ended, where it didn't end well: a line with its exit status and one
/// in words. Answers the exit status.
pub fn report<R: Eprint, D: fmt::Display>(rt: &R, name: &str, exit: u8, words: &D) -> u8
    ensures { result ≡ exit }
{
    if exit != 0 {
        let _ = eprintln!(rt; "{name}: status {exit}");
        let _ = eprintln!(rt; "{name}: {words}");
    }
    exit
}

/// Prints a text, and answers the exit status.
pub fn tell<R: Print + Eprint>(rt: &R, name: &str, text: &str) -> u8 {
    match println!(rt; "{text}") {
        Ok(()) => 0,
        Err(reason) => {
            let status = Status::WriteFault;
            let ended = Ended {
                status,
                reason: Some(reason),
            };
            report(rt, name, exit_of(status), &ended)
        }
    }
}
