//! Runs of single operations.
ghost use Rattle.std.specs.Prelude.{◌≡◌, ℕ, ◌+◌, ◌*◌, ◌%◌, ◌≤◌, ◌<◌, length, MatchResult};
ghost use Rattle.qs_bytes.specs.Pieces.{part};
ghost use Rattle.qs_outside.specs.Blocks.{Fixed};
ghost use Rattle.qs_outside.specs.Runs.{EndsAt, InOrder, IsRun, LoadsAt, LoadsEnd, StoresAt, StoresEnd};
ghost use Rattle.qs_stripe.specs.Holds.{IsFirstHeld, IsFreeFor, holds_of};
ghost use Rattle.qs_stripe.specs.Runs.{FitsRun, IsOver, IsWholeRun, NotStored, StoredAt, run_answers};
ghost use Rattle.qs_stripe.specs.Table.{geometry, value_of};

use crate::stripe::Stripe;
use qs_bytes::Bytes;
use qs_outside::{Disk, FailedAt};
use qs_part::runs::{RunOp, RunReply};

/// Where a run stands: its blocks, and their bytes in a buffer from place `at` on.
#[derive(Clone, Copy, Debug)]
struct Run {
    b: u64,
    n: u8,
    at: usize,
    size: usize,
}

/// Reads a run into its part of a buffer. The buffer comes back either way.
fn read_run<D: Disk>(disk: &mut D, run: Run, buf: Bytes) -> Result<Bytes, (u8, Bytes)>
    requires run { IsRun (D.seen disk.old) run.b run.n }
    requires size { run.size ≡ run.n * (D.seen disk.old).align }
    requires inside { run.at + run.size ≤ length buf }
    ensures fixed { Fixed (D.seen disk.old) (D.seen disk.new) }
    ensures over { MatchResult result (λ got. IsOver run.at run.size buf got) (λ e. IsOver run.at run.size buf e.1) }
    ensures loads { MatchResult result
        (λ got. InOrder (LoadsAt (D.seen disk.old).align run.b (part got run.at run.size)) run.n (D.seen disk.old) (D.seen disk.new))
        (λ e. LoadsEnd (D.seen disk.old).align run.b run.n (part e.1 run.at run.size) e.0 (D.seen disk.old) (D.seen disk.new)) }
{
    let mut bytes = buf.into_vec();
    match disk.load_run(run.b, run.n, &mut bytes[run.at..run.at + run.size]) {
        Ok(()) => Ok(Bytes::of(bytes)),
        Err(FailedAt { done }) => Err((done, Bytes::of(bytes))),
    }
}

/// Writes a run from its part of a buffer.
fn write_run<D: Disk>(disk: &mut D, run: Run, buf: &Bytes) -> Result<(), FailedAt>
    requires run { IsRun (D.seen disk.old) run.b run.n }
    requires size { run.size ≡ run.n * (D.seen disk.old).align }
    requires inside { run.at + run.size ≤ length buf.now }
    ensures fixed { Fixed (D.seen disk.old) (D.seen disk.new) }
    ensures stores { MatchResult result
        (λ _. InOrder (StoresAt (D.seen disk.old).align run.b (part buf.now run.at run.size)) run.n (D.seen disk.old) (D.seen disk.new))
        (λ e. StoresEnd (D.seen disk.old).align run.b run.n (part buf.now run.at run.size) e.done (D.seen disk.old) (D.seen disk.new)) }
{
    disk.store_run(run.b, run.n, &buf.as_slice()[run.at..run.at + run.size])
}

impl<D: Disk + Drop> Stripe<D> {
    /// Where a run of `n` blocks stands in a buffer.
    fn place_of(&self, b: u64, n: u8, at: u64) -> Run
        requires { at + n * (D.seen self.now.disk).align ≤ 18446744073709551615 }
        ensures b { result.b ≡ b }
        ensures n { result.n ≡ n }
        ensures at { result.at ≡ at }
        ensures size { result.size ≡ n * (D.seen self.now.disk).align }
    {
        Run {
            b,
            n,
            at: at as usize,
            size: usize::from(n) * self.disk.align() as usize,
        }
    }

    /// Loads a run.
    fn load_run(&mut self, b: u64, k: u8, n: u8, at: u64, buf: Bytes) -> RunReply
        requires { IsWholeRun (geometry (value_of D.seen self.old)) b n at buf }
        ensures row { run_answers (value_of D.seen self.old) (RunOp.Load b k n at buf) result
            (value_of D.seen self.new) }
        ensures same { geometry (value_of D.seen self.new) ≡ geometry (value_of D.seen self.old) }
    {
        let run = self.place_of(b, n, at);
        match read_run(&mut self.disk, run, buf) {
            Ok(got) => RunReply::Filled(got),
            Err((done, back)) => return RunReply::Fault(done, back),
        }
    }

    /// Stores a run of which no other place holds a block.
    fn store_free(
        &mut self,
        b: u64,
        k: u8,
        n: u8,
        at: u64,
        buf: Bytes,
    ) -> Result<Bytes, (u8, Bytes)>
        requires run { IsWholeRun (geometry (value_of D.seen self.old)) b n at buf }
        requires free { (i : ℕ) → i < n → IsFreeFor (holds_of self.old.places) k (b + i) }
        ensures row { MatchResult result
            (λ back. (back ≡ buf)
            × InOrder (StoredAt (D.seen self.old.disk).align b k at buf) n (value_of D.seen self.old)
            (value_of D.seen self.new))
            (λ e. (e.1 ≡ buf) × (e.0 < n)
            × EndsAt (StoredAt (D.seen self.old.disk).align b k at buf)
            (NotStored (D.seen self.old.disk).align b k at buf) e.0
            (value_of D.seen self.old) (value_of D.seen self.new)) }
        ensures same { geometry (value_of D.seen self.new) ≡ geometry (value_of D.seen self.old) }
    {
        let run = self.place_of(b, n, at);
        self.clean = false;
        match write_run(&mut self.disk, run, &buf) {
            Ok(()) => {
                self.holds.let_go_run(k, b, n);
                Ok(buf)
            }
            Err(FailedAt { done }) => {
                self.holds.let_go_run(k, b, done + 1);
                return Err((done, buf));
            }
        }
    }

    /// Stores a run of which no other place holds a block, and answers it.
    fn store_whole(&mut self, b: u64, k: u8, n: u8, at: u64, buf: Bytes) -> RunReply
        requires run { IsWholeRun (geometry (value_of D.seen self.old)) b n at buf }
        requires free { (i : ℕ) → i < n → IsFreeFor (holds_of self.old.places) k (b + i) }
        ensures row { run_answers (value_of D.seen self.old) (RunOp.Store b k n at buf) result
            (value_of D.seen self.new) }
        ensures same { geometry (value_of D.seen self.new) ≡ geometry (value_of D.seen self.old) }
    {
        match self.store_free(b, k, n, at, buf) {
            Ok(back) => RunReply::Done(back),
            Err((done, back)) => return RunReply::Fault(done, back),
        }
    }

    /// Stores a run of `n` blocks of which place `j` holds the one behind the first `free`.
    fn store_up_to(
        &mut self,
        b: u64,
        k: u8,
        n: u8,
        free: u8,
        j: u8,
        at: u64,
        buf: Bytes,
    ) -> RunReply
        requires run { IsWholeRun (geometry (value_of D.seen self.old)) b n at buf }
        requires held { IsFirstHeld (holds_of self.old.places) k b n free j }
        ensures row { run_answers (value_of D.seen self.old) (RunOp.Store b k n at buf) result
            (value_of D.seen self.new) }
        ensures same { geometry (value_of D.seen self.new) ≡ geometry (value_of D.seen self.old) }
    {
        if free == 0 {
            return RunReply::HeldBy(0, j, buf);
        }
        match self.store_free(b, k, free, at, buf) {
            Ok(back) => RunReply::HeldBy(free, j, back),
            Err((done, back)) => return RunReply::Fault(done, back),
        }
    }

    /// Stores a run, up to the first block that another place holds.
    fn store_run(&mut self, b: u64, k: u8, n: u8, at: u64, buf: Bytes) -> RunReply
        requires { IsWholeRun (geometry (value_of D.seen self.old)) b n at buf }
        ensures row { run_answers (value_of D.seen self.old) (RunOp.Store b k n at buf) result
            (value_of D.seen self.new) }
        ensures same { geometry (value_of D.seen self.new) ≡ geometry (value_of D.seen self.old) }
    {
        match self.holds.first_held(b, k, n) {
            Some((free, j)) => self.store_up_to(b, k, n, free, j, at, buf),
            None => return self.store_whole(b, k, n, at, buf),
        }
    }

    /// Does a run and answers it.
    pub fn run(&mut self, op: RunOp) -> RunReply
        requires { FitsRun (geometry (value_of D.seen self.old)) op }
        ensures row { run_answers (value_of D.seen self.old) op result (value_of D.seen self.new) }
        ensures same { geometry (value_of D.seen self.new) ≡ geometry (value_of D.seen self.old) }
    {
        match op {
            RunOp::Load { b, k, n, at, buf } => self.load_run(b, k, n, at, buf),
            RunOp::Store { b, k, n, at, buf } => self.store_run(b, k, n, at, buf),
        }
    }
}
