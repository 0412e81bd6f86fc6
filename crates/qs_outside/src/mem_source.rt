ghost use Rattle.std.specs.Prelude.{◌≡◌, ◌↔◌, ◌≤◌, ◌+◌, ◌-◌, ◌++◌, Some, length, min, take, drop, IsErr, IfOk, Contains};
ghost use Rattle.std.specs.Io.{ReadsAtMost};
ghost use Rattle.std.specs.Io.KnownBytes.{ReadConsumes};
ghost use Rattle.qs_outside.specs.Faults.{HasCause};
ghost use Rattle.qs_outside.specs.Streams.{cut_of, after_read};

use crate::calls::CallPlan;
use crate::stream::{Failed, Source};
use qs_bytes::Bytes;
use std::marker::Model;

/// A source of known bytes, cut into reads as it is told to, and failing at the calls that it is told.
#[derive(Debug, Drop)]
pub struct MemSource {
    bytes: Bytes,
    at: usize,
    cuts: Vec<usize>,
    calls: CallPlan,
}

impl Model for MemSource {
    ghost use Rattle.std.specs.Prelude.{◌≤◌, drop, length};
    ghost use Rattle.qs_outside.specs.Streams.{Incoming};

    ghost Value = { Incoming };

    ghost view = { λ s. record { left = drop s.at s.bytes; cuts = s.cuts.items; calls = s.calls } };

    ghost invariant = { λ s. s.at ≤ length s.bytes };
}

/// Copies the bytes from `at` on to the front of `into`, as many as fit and at most `most`, and answers
/// how many.
fn copy_front(bytes: &[u8], at: usize, into: &mut [u8], most: usize) -> usize
    requires { at ≤ length bytes.now }
    ensures amount { result ≡ min (length into.old) (min (length bytes.now - at) most) }
    ensures copied { drop at bytes.now ≡ take result into.new ++ drop (at + result) bytes.now }
{
    let from = &bytes[at..];
    let n = into.len().min(from.len().min(most));
    into[..n].copy_from_slice(&from[..n]);
    n
}

impl MemSource {
    /// A source of these bytes. Read `i`, counted from 0, gives at most `cuts[i]` bytes, but one where
    /// that is 0; behind the end of `cuts` nothing is cut. The reads whose numbers are in `fails` fail.
    pub fn new(bytes: Bytes, cuts: Vec<usize>, fails: Vec<u64>) -> Self
        ensures { result ≡ record {
          left = bytes;
          cuts = cuts.items;
          calls = record { failing = fails.items; made = 0; faults = 0 };
        } }
    {
        MemSource {
            bytes,
            at: 0,
            cuts,
            calls: CallPlan::new(fails),
        }
    }

    /// The most bytes that the next read gives.
    fn cut(&self) -> usize
        ensures { result ≡ cut_of self.now }
    {
        let number = self.calls.number() as usize;
        if number < self.cuts.len() {
            self.cuts[number].max(1)
        } else {
            usize::MAX
        }
    }
}

impl Source for MemSource {
    ghost left = { λ s. Some s.left };

    ghost read_faults = { λ s. s.calls.faults };

    fn read(&mut self, into: &mut [u8]) -> Result<usize, Failed>
        ensures bound { ReadsAtMost result into.new }
        ensures bytes { ReadConsumes (Some self.old.left) (Some self.new.left) result into.new }
        ensures cause { HasCause self.old.calls.faults self.new.calls.faults result }

        // It fails exactly where it was told to, and else gives as much as there is, fits and isn't cut.
        ensures fails { IsErr result ↔ Contains self.old.calls.failing self.old.calls.made }
        ensures amount { IfOk result (λ n. n ≡ min (length into.new) (min (length self.old.left) (cut_of self.old))) }
        ensures after { self.new ≡ after_read self.old result }
    {
        let most = self.cut();
        if self.calls.begin() {
            self.calls.fail();
            return Err(Failed);
        }
        let n = copy_front(self.bytes.as_slice(), self.at, into, most);
        self.at += n;
        Ok(n)
    }
}
