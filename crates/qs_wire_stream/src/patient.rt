ghost use Rattle.std.specs.Prelude.{◌≡◌, false};
ghost use Rattle.qs_wire_stream.specs.Patience.{with_leave};

use qs_links::{Link, Tried, Wire};
use qs_outside::Failed;
use std::marker::Model;

/// A link as a wire. Its calls wait until they are done; it reads once for each leave that it was given, and is found not
/// ready by other reads.
#[derive(Debug, Drop)]
pub struct PatientLink<L> {
    link: L,
    may_read: bool,
    refused: u64,
}

impl<L> Model for PatientLink<L> {
    ghost use Rattle.qs_wire_stream.specs.Patience.{PatientValue};

    ghost Value = { PatientValue L };

    ghost view = { λ p. record { link = p.link; may_read = p.may_read; refused = p.refused } };
}

impl<L> PatientLink<L> {
    /// A wire over the link, without leave to read.
    pub fn new(link: L) -> Self
        ensures { result ≡ record { link = link; may_read = false; refused = 0 } }
    {
        PatientLink {
            link,
            may_read: false,
            refused: 0,
        }
    }

    /// The link, in whatever state it is.
    pub fn link(&self) -> &L
        ensures { result.now ≡ self.now.link }
    {
        &self.link
    }

    /// Gives leave for one read.
    pub(crate) fn give_leave(&mut self)
        ensures { self.new ≡ with_leave self.old }
    {
        self.may_read = true;
    }
}

impl<L: Link> Wire for PatientLink<L> {
    ghost left = { λ p. L.left p.link };

    ghost sent = { λ p. L.sent p.link };

    ghost read_faults = { λ p. L.read_faults p.link };

    ghost write_faults = { λ p. L.write_faults p.link };

    ghost waits = { λ p. p.refused };

    fn try_read(&mut self, into: &mut [u8]) -> Tried {
        if !self.may_read {
            self.refused = self.refused.saturating_add(1);
            return Tried::NotReady;
        }
        self.may_read = false;
        match self.link.read(into) {
            Ok(0) if !into.is_empty() => Tried::Ended,
            Ok(count) => Tried::Did(count),
            Err(Failed) => Tried::Failed,
        }
    }

    fn try_write(&mut self, piece: &[u8]) -> Tried {
        match self.link.write(piece) {
            Ok(count) => Tried::Did(count),
            Err(Failed) => Tried::Failed,
        }
    }
}
