ghost use Rattle.std.specs.Prelude.{◌≡◌, ℕ, ◌<◌, List, Option, None, length, IfOk};
ghost use Rattle.std.specs.Io.{ReadsAtMost, WritesAtMost};
ghost use Rattle.std.specs.Io.KnownBytes.{ReadConsumes, WriteAppends};
ghost use Rattle.qs_outside.specs.Faults.{HasCause};

use std::error::Error;
use std::fmt;

/// A call to something outside failed. Its object's count of faults rose in that call.
#[derive(Clone, Copy, Debug, PartialEq, Eq)]
pub struct Failed;

impl fmt::Display for Failed {
    fn fmt<W: fmt::Write>(&self, f: &mut fmt::Formatter<W>) -> fmt::Result {
        f.write_str("the outside failed")
    }
}

impl Error for Failed {}

/// Where bytes come from.
///
/// `left` is what is still to come, where that is told; `read_faults` counts failed reads. An object
/// that is a sink too tells that side by the members `beside`, which a read keeps.
pub trait Source {
    ghost left: { Self → Option (List ℕ) };

    ghost read_faults: { Self → ℕ };

    ghost sent_beside: { Self → Option (List ℕ) } = { λ _. None };

    ghost write_beside: { Self → ℕ } = { λ _. 0 };

    /// Reads at most as many bytes as `into` has, into its front, and answers how many. 0 for a
    /// slice that isn't empty is the end of input. `Failed` takes nothing.
    fn read(&mut self, into: &mut [u8]) -> Result<usize, Failed>
        ensures bound { ReadsAtMost result into.new }
        ensures bytes { ReadConsumes (left self.old) (left self.new) result into.new }
        ensures cause { HasCause (read_faults self.old) (read_faults self.new) result }
        ensures beside { sent_beside self.new ≡ sent_beside self.old }
        ensures beside_count { write_beside self.new ≡ write_beside self.old };
}

/// Where bytes go.
///
/// `sent` is what was written, where that is told; `write_faults` counts failed writes. An object
/// that is a source too tells that side by the members `beside`, which a write keeps.
pub trait Sink {
    ghost sent: { Self → Option (List ℕ) };

    ghost write_faults: { Self → ℕ };

    ghost left_beside: { Self → Option (List ℕ) } = { λ _. None };

    ghost read_beside: { Self → ℕ } = { λ _. 0 };

    /// Writes bytes from the front of the piece and answers how many, at least one where there is
    /// one. `Failed` writes nothing.
    fn write(&mut self, piece: &[u8]) -> Result<usize, Failed>
        ensures bound { WritesAtMost result piece.now }
        ensures some { IfOk result (λ n. 0 < length piece.now → 0 < n) }
        ensures bytes { WriteAppends (sent self.old) (sent self.new) result piece.now }
        ensures cause { HasCause (write_faults self.old) (write_faults self.new) result }
        ensures beside { left_beside self.new ≡ left_beside self.old }
        ensures beside_count { read_beside self.new ≡ read_beside self.old };
}
