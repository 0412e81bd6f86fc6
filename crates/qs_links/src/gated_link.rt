ghost use Rattle.std.specs.Prelude.{◌≡◌, ◌<◌, ◌↔◌, IsTrue};

use crate::gate::Gate;
use crate::link::Link;
use qs_outside::{Failed, Sink, Source};

/// A link that raises a gate once more than so many bytes were sent.
#[derive(Drop)]
pub struct GatedLink<L, G> {
    inner: L,
    gate: G,
    after: u64,
    passed: u64,
}

impl<L, G> GatedLink<L, G> {
    /// It raises the gate after each write that went well, and after which more than `after` bytes were sent
    /// over it in all.
    pub fn new(inner: L, gate: G, after: u64) -> Self
        ensures inner { result.inner ≡ inner }
        ensures gate { result.gate ≡ gate }
        ensures after { result.after ≡ after }
        ensures passed { result.passed ≡ 0 }
    {
        GatedLink {
            inner,
            gate,
            after,
            passed: 0,
        }
    }

    /// The link, in whatever state it is.
    pub fn link(&self) -> &L
        ensures { result.now ≡ self.now.inner }
    {
        &self.inner
    }

    /// Whether so many bytes were sent that the gate is to be raised.
    fn is_past(&self) -> bool
        ensures { IsTrue result ↔ (self.now.after < self.now.passed) }
    {
        self.after < self.passed
    }
}

impl<L: Link, G> Source for GatedLink<L, G> {
    ghost left = { λ l. L.left l.inner };

    ghost read_faults = { λ l. L.read_faults l.inner };

    ghost sent_beside = { λ l. L.sent_beside l.inner };

    ghost write_beside = { λ l. L.write_beside l.inner };

    fn read(&mut self, into: &mut [u8]) -> Result<usize, Failed> {
        self.inner.read(into)
    }
}

impl<L: Link, G: Gate> Sink for GatedLink<L, G> {
    ghost sent = { λ l. L.sent l.inner };

    ghost write_faults = { λ l. L.write_faults l.inner };

    ghost left_beside = { λ l. L.left_beside l.inner };

    ghost read_beside = { λ l. L.read_beside l.inner };

    fn write(&mut self, piece: &[u8]) -> Result<usize, Failed> {
        let count = self.inner.write(piece)?;
        self.passed = self.passed.saturating_add(count as u64);
        if self.is_past() {
            self.gate.raise();
        }
        Ok(count)
    }
}

impl<L: Link, G: Gate> Link for GatedLink<L, G> {
    ghost sent_told = { λ l. L.sent_told l.inner };

    ghost write_told = { λ l. L.write_told l.inner };

    ghost left_told = { λ l. L.left_told l.inner };

    ghost read_told = { λ l. L.read_told l.inner };
}
