ghost use Rattle.std.specs.Prelude.{◌≡◌, ◌≢◌, ◌≤◌, ◌↔◌, IsTrue, Contains, length};
ghost use Rattle.std.specs.Io.KnownBytes.{Appends, Consumes};
ghost use Rattle.qs_links.specs.Ends.{after_try};
ghost use Rattle.qs_links.specs.Tries.{CountsIf, EndsRead, MovesWithin, is_failed, is_not_ready, moved_by};
ghost use Rattle.qs_links.specs.declared.wire.Tried.TheVariants.{Ended};

use crate::link::Link;
use crate::plan::Plan;
use crate::wire::{Tried, Wire};
use qs_outside::{Failed, Sink, Source};
use std::marker::Model;

/// A link as a wire that isn't ready at the tries that it is told.
#[derive(Debug, Drop)]
pub struct MemWire<L> {
    link: L,
    unready: Plan,
}

impl<L> Model for MemWire<L> {
    ghost use Rattle.qs_links.specs.Ends.{Wired};

    ghost Value = { Wired L };

    ghost view = { λ w. record { link = w.link; tries = w.unready } };
}

impl<L> MemWire<L> {
    /// A wire over this link. The tries whose numbers are in `unready`, reads and writes counted together
    /// from 0, find it not ready.
    pub fn new(link: L, unready: Vec<u64>) -> Self
        ensures { result ≡ record { link = link; tries = record { failing = unready.items; made = 0; faults = 0 } } }
    {
        MemWire {
            link,
            unready: Plan::new(unready),
        }
    }

    /// The link, in whatever state it is.
    pub fn link(&self) -> &L
        ensures { result.now ≡ self.now.link }
    {
        &self.link
    }

    /// Counts a try, and tells whether the wire isn't ready at it.
    fn is_unready(&mut self) -> bool
        ensures chosen { IsTrue result ↔ Contains self.old.tries.failing self.old.tries.made }
        ensures counted { self.new ≡ record self.old { tries = after_try result self.old.tries } }
        ensures later { self.old.tries.faults ≤ self.new.tries.faults }
    {
        self.unready.meets()
    }
}

impl<L: Link> Wire for MemWire<L> {
    ghost left = { λ w. L.left w.link };

    ghost sent = { λ w. L.sent w.link };

    ghost read_faults = { λ w. L.read_faults w.link };

    ghost write_faults = { λ w. L.write_faults w.link };

    ghost waits = { λ w. w.tries.faults };

    fn try_read(&mut self, into: &mut [u8]) -> Tried
        ensures bound { MovesWithin (length into.new) result }
        ensures bytes { Consumes (L.left self.old.link) (L.left self.new.link) (moved_by result into.new) }
        ensures end { EndsRead (L.left self.new.link) (length into.new) result }
        ensures cause { CountsIf (is_failed result) (L.read_faults self.old.link) (L.read_faults self.new.link) }
        ensures wait { CountsIf (is_not_ready result) self.old.tries.faults self.new.tries.faults }
        ensures beside { L.sent self.new.link ≡ L.sent self.old.link }
        ensures beside_count { L.write_faults self.new.link ≡ L.write_faults self.old.link }

        // It isn't ready exactly where it was told to, and then nothing happens to the link.
        ensures unready { IsTrue (is_not_ready result) ↔ Contains self.old.tries.failing self.old.tries.made }
        ensures same { IsTrue (is_not_ready result) → self.new.link ≡ self.old.link }
        ensures tries { self.new.tries ≡ after_try (is_not_ready result) self.old.tries }
    {
        if self.is_unready() {
            return Tried::NotReady;
        }
        match self.link.read(into) {
            Ok(0) if !into.is_empty() => Tried::Ended,
            Ok(count) => Tried::Did(count),
            Err(Failed) => Tried::Failed,
        }
    }

    fn try_write(&mut self, piece: &[u8]) -> Tried
        ensures bound { MovesWithin (length piece.now) result }
        ensures bytes { Appends (L.sent self.old.link) (L.sent self.new.link) (moved_by result piece.now) }
        ensures endless { result ≢ Ended }
        ensures cause { CountsIf (is_failed result) (L.write_faults self.old.link) (L.write_faults self.new.link) }
        ensures wait { CountsIf (is_not_ready result) self.old.tries.faults self.new.tries.faults }
        ensures beside { L.left self.new.link ≡ L.left self.old.link }
        ensures beside_count { L.read_faults self.new.link ≡ L.read_faults self.old.link }

        // It isn't ready exactly where it was told to, and then nothing happens to the link.
        ensures unready { IsTrue (is_not_ready result) ↔ Contains self.old.tries.failing self.old.tries.made }
        ensures same { IsTrue (is_not_ready result) → self.new.link ≡ self.old.link }
        ensures tries { self.new.tries ≡ after_try (is_not_ready result) self.old.tries }
    {
        if self.is_unready() {
            return Tried::NotReady;
        }
        match self.link.write(piece) {
            Ok(count) => Tried::Did(count),
            Err(Failed) => Tried::Failed,
        }
    }
}
