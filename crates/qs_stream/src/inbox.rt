ghost use Rattle.std.specs.Prelude.{◌≡◌, ◌≤◌, [], length, drop, IfOk, OnErr};
ghost use Rattle.std.specs.Io.KnownBytes.{Consumes, IsAtEnd};
ghost use Rattle.qs_stream.specs.Faults.{Counts};

use qs_bytes::Memory;
use qs_outside::{Failed, Source};
use std::alloc::Global;
use std::marker::Model;

/// The most bytes that one read takes.
const ROOM: usize = 65_536;

/// Bytes that were read and wait.
#[derive(Debug, Drop)]
pub struct Inbox {
    bytes: Vec<u8>,
    start: usize,
    end: usize,
}

impl Model for Inbox {
    ghost use Rattle.std.specs.Prelude.{◌≤◌, ◌-◌, ℕ, List, vec_len};
    ghost use Rattle.qs_bytes.specs.Pieces.{part};

    ghost Value = { List ℕ };

    ghost view = { λ i. part i.bytes.items i.start (i.end - i.start) };

    ghost invariant = { λ i. (i.start ≤ i.end) × (i.end ≤ vec_len i.bytes) × (65536 ≤ vec_len i.bytes) };
}

impl Inbox {
    /// Nothing was read.
    pub fn new(alloc: Global) -> Result<Self, Memory>
        ensures { IfOk result (λ i. i ≡ []) }
    {
        match vec![in alloc; 0; ROOM] {
            Ok(bytes) => Ok(Inbox {
                bytes,
                start: 0,
                end: 0,
            }),
            Err(_) => Err(Memory),
        }
    }

    /// The bytes that wait.
    pub fn waiting(&self) -> &[u8]
        ensures { result.now ≡ self.now }
    {
        &self.bytes[self.start..self.end]
    }

    /// Takes bytes away from the front.
    pub fn take(&mut self, count: usize)
        requires { count ≤ length self.old }
        ensures { self.new ≡ drop count self.old }
    {
        self.start += count;
    }

    /// Reads, once, where nothing waits, and answers how many bytes came. None are the end of input.
    pub fn fill<I: Source>(&mut self, input: &mut I) -> Result<usize, Failed>
        requires { self.old ≡ [] }
        ensures taken { Consumes (I.left input.old) (I.left input.new) self.new }
        ensures count { IfOk result (λ n. n ≡ length self.new) }
        ensures end { IfOk result (λ n. n ≡ 0 → IsAtEnd (I.left input.new)) }
        ensures failed { OnErr result (self.new ≡ []) }
        ensures counts { Counts (I.read_faults input.old) (I.read_faults input.new) result }
    {
        self.start = 0;
        self.end = 0;
        match input.read(self.bytes.as_mut_slice()) {
            Ok(count) => {
                self.end = count;
                Ok(count)
            }
            Err(failed) => Err(failed),
        }
    }
}
