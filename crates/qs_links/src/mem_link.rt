ghost use Rattle.std.specs.Prelude.{◌≡◌, ◌↔◌, ◌<◌, ◌⊎◌, Some, length, min, refl, IsErr, IfOk, Contains};
ghost use Rattle.std.specs.Io.{ReadsAtMost, WritesAtMost};
ghost use Rattle.std.specs.Io.KnownBytes.{ReadConsumes, WriteAppends};
ghost use Rattle.qs_outside.specs.Faults.{HasCause};
ghost use Rattle.qs_outside.specs.Streams.{after_read, after_write, cut_of, room_left};

use crate::link::Link;
use qs_outside::{Failed, MemSink, MemSource, Sink, Source};
use std::marker::Model;

/// A link of known bytes, which holds what it was sent.
#[derive(Debug, Drop)]
pub struct MemLink {
    source: MemSource,
    sink: MemSink,
}

impl Model for MemLink {
    ghost use Rattle.qs_links.specs.Ends.{TwoWay};

    ghost Value = { TwoWay };

    ghost view = { λ l. record { incoming = l.source; outgoing = l.sink } };
}

impl MemLink {
    /// A link that reads from `source` and writes to `sink`.
    pub fn new(source: MemSource, sink: MemSink) -> Self
        ensures { result ≡ record { incoming = source; outgoing = sink } }
    {
        MemLink { source, sink }
    }

    /// What was sent.
    pub fn sent(&self) -> &[u8]
        ensures { result.now ≡ self.now.outgoing.sent }
    {
        self.sink.sent()
    }
}

impl Source for MemLink {
    ghost left = { λ l. Some l.incoming.left };

    ghost read_faults = { λ l. l.incoming.calls.faults };

    ghost sent_beside = { λ l. Some l.outgoing.sent };

    ghost write_beside = { λ l. l.outgoing.calls.faults };

    fn read(&mut self, into: &mut [u8]) -> Result<usize, Failed>
        ensures bound { ReadsAtMost result into.new }
        ensures bytes { ReadConsumes (Some self.old.incoming.left) (Some self.new.incoming.left) result into.new }
        ensures cause { HasCause self.old.incoming.calls.faults self.new.incoming.calls.faults result }

        // It fails exactly where it was told to, and else gives as much as there is, fits and isn't cut.
        ensures fails { IsErr result ↔ Contains self.old.incoming.calls.failing self.old.incoming.calls.made }
        ensures amount { IfOk result (λ n. n ≡ min (length into.new)
            (min (length self.old.incoming.left) (cut_of self.old.incoming))) }
        ensures after { self.new ≡ record self.old { incoming = after_read self.old.incoming result } }
    {
        self.source.read(into)
    }
}

impl Sink for MemLink {
    ghost sent = { λ l. Some l.outgoing.sent };

    ghost write_faults = { λ l. l.outgoing.calls.faults };

    ghost left_beside = { λ l. Some l.incoming.left };

    ghost read_beside = { λ l. l.incoming.calls.faults };

    fn write(&mut self, piece: &[u8]) -> Result<usize, Failed>
        ensures bound { WritesAtMost result piece.now }
        ensures some { IfOk result (λ n. 0 < length piece.now → 0 < n) }
        ensures bytes { WriteAppends (Some self.old.outgoing.sent) (Some self.new.outgoing.sent) result piece.now }
        ensures cause { HasCause self.old.outgoing.calls.faults self.new.outgoing.calls.faults result }

        // It fails exactly where it was told to or no room is left, and else takes what there is room for.
        ensures fails { IsErr result ↔ (Contains self.old.outgoing.calls.failing self.old.outgoing.calls.made
            ⊎ (room_left self.old.outgoing ≡ 0)) }
        ensures amount { IfOk result (λ n. n ≡ min (length piece.now) (room_left self.old.outgoing)) }
        ensures after { self.new ≡ record self.old { outgoing = after_write self.old.outgoing piece.now result } }
    {
        self.sink.write(piece)
    }
}

impl Link for MemLink {
    ghost sent_told = { λ _. refl };

    ghost write_told = { λ _. refl };

    ghost left_told = { λ _. refl };

    ghost read_told = { λ _. refl };
}
