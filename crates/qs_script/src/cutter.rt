ghost use Rattle.std.specs.Prelude.{◌≡◌, ◌+◌, ◌-◌, ◌<◌, ◌≤◌, ◌++◌, [], length, min, take, IfOk, IfNone};
ghost use Rattle.qs_script.specs.Cuts.{Cuts, longest_line};
ghost use Rattle.qs_script.specs.Finds.{HasNo};

use crate::find::first_of;
use qs_bytes::{Fed, Memory};
use std::alloc::Global;
use std::marker::Model;

/// The most bytes of a line with its LF.
const LONGEST: usize = 65_536;

/// What stands at the end of the bytes that a cutter took.
#[derive(Clone, Copy, Debug, PartialEq, Eq)]
pub enum Cut {
    /// A line's end.
    Line,
    /// As many bytes as the longest line has, and no LF among them.
    TooLong,
}

/// Cuts lines out of the pieces of a source. It holds at most one, and is seen as the bytes of that line
/// that were taken, without its LF. Where the source ends, what it holds is the last line, if it is any.
#[derive(Debug, Drop)]
pub struct LineCutter {
    held: Vec<u8>,
}

impl Model for LineCutter {
    ghost use Rattle.std.specs.Prelude.{◌≤◌, List, ℕ, vec_capacity, vec_len};

    ghost Value = { List ℕ };

    ghost view = { λ c. c.held.items };

    ghost invariant = { λ c. (vec_len c.held ≤ 65536) × (65536 ≤ vec_capacity c.held) };
}

impl LineCutter {
    /// No byte was taken yet. All memory is taken here.
    pub fn new(alloc: Global) -> Result<Self, Memory>
        ensures { IfOk result (λ c. c ≡ []) }
    {
        match Vec::with_capacity(alloc, LONGEST) {
            Ok(held) => Ok(LineCutter { held }),
            Err(_) => Err(Memory),
        }
    }

    /// The line, without its LF.
    pub fn line(&self) -> &[u8]
        ensures { result.now ≡ self.now }
    {
        self.held.as_slice()
    }

    /// Lets the line go; the next byte begins another.
    pub fn clear(&mut self)
        ensures { self.new ≡ [] }
    {
        self.held.clear();
    }

    /// Takes bytes of the line.
    fn take(&mut self, bytes: &[u8])
        requires { length self.old + length bytes.now ≤ longest_line }
        ensures { self.new ≡ self.old ++ bytes.now }
    {
        match self.held.extend_from_slice(bytes) {
            Ok(()) => {}
            Err(_) => unreachable!(),
        }
    }

    /// Takes bytes up to the line's end, or until they are too many for a line. Without an event the
    /// whole piece was taken.
    pub fn feed(&mut self, piece: &[u8]) -> Fed<Cut>
        requires { length self.old < longest_line }
        ensures within { result.taken ≤ length piece.now }
        ensures whole { IfNone result.event (result.taken ≡ length piece.now) }
        ensures cuts { Cuts self.old (take result.taken piece.now) result.event self.new }
    {
        let count = piece.len().min(LONGEST - self.line().len());
        match first_of(&piece[..count], b'\n') {
            Some(end) => {
                self.take(&piece[..end]);
                Fed {
                    taken: end + 1,
                    event: Some(Cut::Line),
                }
            }
            None => self.take_on(piece, count),
        }
    }

    /// Takes bytes among which no line ends.
    fn take_on(&mut self, piece: &[u8], count: usize) -> Fed<Cut>
        requires front { count ≡ min (length piece.now) (longest_line - length self.old) }
        requires none { HasNo 10 (take count piece.now) }
        requires room { length self.old < longest_line }
        ensures within { result.taken ≤ length piece.now }
        ensures whole { IfNone result.event (result.taken ≡ length piece.now) }
        ensures cuts { Cuts self.old (take result.taken piece.now) result.event self.new }
    {
        self.take(&piece[..count]);
        if self.line().len() == LONGEST {
            return Fed {
                taken: count,
                event: Some(Cut::TooLong),
            };
        }
        Fed {
            taken: count,
            event: None,
        }
    }
}
