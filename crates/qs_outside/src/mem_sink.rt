ghost use Rattle.std.specs.Prelude.{◌≡◌, ◌↔◌, ◌<◌, ◌⊎◌, Some, [], length, min, IsErr, IfOk, Contains};
ghost use Rattle.std.specs.Io.{WritesAtMost};
ghost use Rattle.std.specs.Io.KnownBytes.{WriteAppends};
ghost use Rattle.qs_outside.specs.Faults.{HasCause};
ghost use Rattle.qs_outside.specs.Streams.{room_left, after_write};

use crate::calls::CallPlan;
use crate::stream::{Failed, Sink};
use qs_bytes::Memory;
use std::alloc::Global;
use std::marker::Model;

/// A sink that holds what it was sent, up to the room that it took when it was made, and fails at the
/// calls that it is told.
#[derive(Debug, Drop)]
pub struct MemSink {
    bytes: Vec<u8>,
    room: usize,
    calls: CallPlan,
}

impl Model for MemSink {
    ghost use Rattle.std.specs.Prelude.{◌≤◌, vec_len, vec_capacity};
    ghost use Rattle.qs_outside.specs.Streams.{Outgoing};

    ghost Value = { Outgoing };

    ghost view = { λ s. record { sent = s.bytes.items; room = s.room; calls = s.calls } };

    ghost invariant = { λ s. (vec_len s.bytes ≤ s.room) × (s.room ≤ vec_capacity s.bytes) };
}

impl MemSink {
    /// A sink with room for so many bytes, which are taken here; no write takes memory. The writes whose
    /// numbers, from 0, are in `fails` fail.
    pub fn new(alloc: Global, room: usize, fails: Vec<u64>) -> Result<Self, Memory>
        ensures { IfOk result (λ s. s ≡ record {
          sent = [];
          room = room;
          calls = record { failing = fails.items; made = 0; faults = 0 };
        }) }
    {
        match Vec::with_capacity(alloc, room) {
            Ok(bytes) => Ok(MemSink {
                bytes,
                room,
                calls: CallPlan::new(fails),
            }),
            Err(_) => Err(Memory),
        }
    }

    /// What was sent.
    pub fn sent(&self) -> &[u8]
        ensures { result.now ≡ self.now.sent }
    {
        self.bytes.as_slice()
    }
}

impl Sink for MemSink {
    ghost sent = { λ s. Some s.sent };

    ghost write_faults = { λ s. s.calls.faults };

    fn write(&mut self, piece: &[u8]) -> Result<usize, Failed>
        ensures bound { WritesAtMost result piece.now }
        ensures some { IfOk result (λ n. 0 < length piece.now → 0 < n) }
        ensures bytes { WriteAppends (Some self.old.sent) (Some self.new.sent) result piece.now }
        ensures cause { HasCause self.old.calls.faults self.new.calls.faults result }

        // It fails exactly where it was told to or no room is left, and else takes what there is room for.
        ensures fails { IsErr result ↔ (Contains self.old.calls.failing self.old.calls.made
            ⊎ (room_left self.old ≡ 0)) }
        ensures amount { IfOk result (λ n. n ≡ min (length piece.now) (room_left self.old)) }
        ensures after { self.new ≡ after_write self.old piece.now result }
    {
        let planned = self.calls.begin();
        let room = self.room - self.bytes.len();
        if planned || room == 0 {
            self.calls.fail();
            return Err(Failed);
        }
        let n = piece.len().min(room);
        match self.bytes.extend_from_slice(&piece[..n]) {
            Ok(()) => Ok(n),
            Err(_) => unreachable!(),
        }
    }
}
