ghost use Rattle.std.specs.Prelude.{◌≡◌, ◌≢◌, ℕ, List, Option, length};
ghost use Rattle.std.specs.Io.KnownBytes.{Appends, Consumes};
ghost use Rattle.qs_links.specs.Tries.{CountsIf, EndsRead, MovesWithin, is_failed, is_not_ready, moved_by};
ghost use Rattle.qs_links.specs.declared.wire.Tried.TheVariants.{Ended};

/// How a read or a write that doesn't wait went.
#[derive(Clone, Copy, Debug, PartialEq, Eq)]
pub enum Tried {
    /// So many bytes were moved, at least one where there was room for any.
    Did(usize),
    /// Nothing can be moved now.
    NotReady,
    /// Nothing will come any more.
    Ended,
    /// It failed. The count of that side's faults rose in that call.
    Failed,
}

/// Both directions of a connection, whose calls don't wait.
///
/// `left` is what is still to come and `sent` what was written, where these are told. `read_faults` and
/// `write_faults` count the calls that failed, and `waits` those that found the wire not ready.
pub trait Wire {
    ghost left: { Self → Option (List ℕ) };

    ghost sent: { Self → Option (List ℕ) };

    ghost read_faults: { Self → ℕ };

    ghost write_faults: { Self → ℕ };

    ghost waits: { Self → ℕ };

    /// Reads at most as many bytes as `into` has, into its front. Only `Did` takes any. `Ended` comes only
    /// where `into` isn't empty, and then nothing is left.
    fn try_read(&mut self, into: &mut [u8]) -> Tried
        ensures bound { MovesWithin (length into.new) result }
        ensures bytes { Consumes (left self.old) (left self.new) (moved_by result into.new) }
        ensures end { EndsRead (left self.new) (length into.new) result }
        ensures cause { CountsIf (is_failed result) (read_faults self.old) (read_faults self.new) }
        ensures wait { CountsIf (is_not_ready result) (waits self.old) (waits self.new) }
        ensures beside { sent self.new ≡ sent self.old }
        ensures beside_count { write_faults self.new ≡ write_faults self.old };

    /// Writes bytes from the front of the piece. Only `Did` writes any. It never answers `Ended`.
    fn try_write(&mut self, piece: &[u8]) -> Tried
        ensures bound { MovesWithin (length piece.now) result }
        ensures bytes { Appends (sent self.old) (sent self.new) (moved_by result piece.now) }
        ensures endless { result ≢ Ended }
        ensures cause { CountsIf (is_failed result) (write_faults self.old) (write_faults self.new) }
        ensures wait { CountsIf (is_not_ready result) (waits self.old) (waits self.new) }
        ensures beside { left self.new ≡ left self.old }
        ensures beside_count { read_faults self.new ≡ read_faults self.old };
}
