ghost use Rattle.std.specs.Prelude.{◌≡◌, length};
ghost use Rattle.qs_outside.specs.Blocks.{IsBlock};
ghost use Rattle.qs_links.specs.Gated.{gated_seen};

use crate::gate::Gate;
use qs_outside::{Disk, Failed};

/// A disk whose loads wait for a gate.
///
/// It tells no plans.
#[derive(Drop)]
pub struct GatedDisk<D, G> {
    inner: D,
    begun: G,
    gate: G,
    looks: u64,
    /// The loads that failed since the gate was never raised.
    missed: u64,
}

impl<D, G> GatedDisk<D, G> {
    /// Each load first raises `begun`. Then it looks at `gate` up to `looks` times, and fails where it was
    /// never raised.
    pub fn new(inner: D, begun: G, gate: G, looks: u64) -> Self
        ensures inner { result.inner ≡ inner }
        ensures begun { result.begun ≡ begun }
        ensures gate { result.gate ≡ gate }
        ensures looks { result.looks ≡ looks }
        ensures missed { result.missed ≡ 0 }
    {
        GatedDisk {
            inner,
            begun,
            gate,
            looks,
            missed: 0,
        }
    }
}

/// Whether the gate was raised at one of so many looks.
fn sees_raised<G: Gate>(gate: &G, looks: u64) -> bool {
    for _ in 0..looks {
        if gate.raised() {
            return true;
        }
    }
    false
}

impl<D: Disk, G: Gate> Disk for GatedDisk<D, G> {
    ghost seen = { λ d. gated_seen d.missed (D.seen d.inner) };

    fn stripe(&self) -> u8 {
        self.inner.stripe()
    }

    fn align(&self) -> u32 {
        self.inner.align()
    }

    fn length(&self) -> u64 {
        self.inner.length()
    }

    fn load(&mut self, b: u64, into: &mut [u8]) -> Result<(), Failed> {
        self.begun.raise();
        if sees_raised(&self.gate, self.looks) {
            return self.inner.load(b, into);
        }
        self.missed = self.missed.saturating_add(1);
        Err(Failed)
    }

    fn store(&mut self, b: u64, bytes: &[u8]) -> Result<(), Failed> {
        self.inner.store(b, bytes)
    }

    fn sync(&mut self) -> Result<(), Failed> {
        self.inner.sync()
    }
}
