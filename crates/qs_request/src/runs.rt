//! Runs of whole blocks, each one call of a stripe, with the request's own buffer or with zeros.
ghost use Rattle.std.specs.Prelude.{◌≡◌, ◌*◌, [], true, false, Some, MatchOption, IfSome, IfNone};
ghost use Rattle.qs_bytes.specs.Geometry.{stripe_of};
ghost use Rattle.qs_model.specs.Requests.{brings_bytes, span_of};
ghost use Rattle.qs_part.specs.declared.event.NoteReply.TheVariants.{Stripe as OfStripe};
ghost use Rattle.qs_stripe.specs.Table.{geometry, value_of as stripe_value};
ghost use Rattle.qs_request.specs.declared.whole_run.WholeRun.{WholeRun as Run};
ghost use Rattle.qs_request.specs.Inside.{IsFree, IsReached, client_of, request_of};
ghost use Rattle.qs_request.specs.RunSteps.{AreZeros, IsNextRun, RanOut, geometry_for};
ghost use Rattle.qs_request_state.specs.Shapes.{IsShape};
ghost use Rattle.qs_request.specs.WholeRuns.{IsNotWhole, IsWholeRun};

use crate::machine::Machine;
use crate::whole_run::WholeRun;
use qs_bytes::{Bytes, Errno};
use qs_outside::Disk;
use qs_part::event::{Note, NoteReply, OpKind, StripeNote};
use qs_part::runs::{RunOp, RunReply};
use qs_request_state::{Ending, Stage, Step, brings_bytes};
use qs_stripe::stripe::Stripe;
use std::mem;

/// How an operation on a block is told.
fn note_of(kind: OpKind, b: u64, reply: StripeNote) -> Note
    ensures { result ≡ record { kind = kind; at = Some b; reply = OfStripe reply } }
{
    Note {
        kind,
        at: Some(b),
        reply: NoteReply::Stripe(reply),
    }
}

impl Machine {
    /// The whole blocks from `b` on, for the request at place `k`, up to the end of their group.
    fn run_from(&self, k: u8, b: u64) -> Option<WholeRun>
        requires shape { IsShape self.now.shape }
        requires reached { IsReached self.now b }
        ensures { MatchOption result
            (IsNotWhole self.now.shape.align (span_of (client_of self.now)) b)
            (λ run. (run.k ≡ k) × (run.b ≡ b) × IsWholeRun self.now.shape.align (span_of (client_of self.now)) run) }
    {
        let span = self.span();
        let align = u64::from(self.shape.align);
        let start = self.start(b);
        if start < span.lo() || span.hi() < start + align {
            return None;
        }
        let whole = (span.hi() - start) / align;
        let n = whole.min(16 - b % 16) as u8;
        let at = start - span.lo();
        Some(WholeRun { k, b, n, at })
    }

    /// The run that is next.
    pub fn whole_run(&self) -> Option<WholeRun>
        requires { IsFree self.now }
        ensures some { IfSome result (λ run. IsNextRun self.now.shape.align (request_of self.now) run) }
        ensures none { IfNone result ((run : Run) → IsNextRun self.now.shape.align (request_of self.now) run → ⊥) }
    {
        match self.stage {
            Stage::In(k, Step::Load(b)) => self.run_from(k, b),
            Stage::In(k, Step::Store(b)) => self.run_from(k, b),
            _ => None,
        }
    }

    fn lend_body(&mut self) -> Bytes
        ensures body { result ≡ self.old.body }
        ensures same { self.new ≡ record self.old { body = [] } }
    {
        mem::replace(&mut self.body, Bytes::of(Vec::new(self.alloc)))
    }

    /// A READ loads a run into its buffer.
    fn load_run<D: Disk + Drop>(&mut self, run: WholeRun, stripe: &mut Stripe<D>) -> Note
        requires free { IsFree self.old }
        requires stage { self.old.stage ≡ Stage.In run.k (Step.Load run.b) }
        requires whole { IsWholeRun self.old.shape.align (span_of (client_of self.old)) run }
        requires stripe { geometry (stripe_value D.seen stripe.old) ≡ geometry_for self.old.shape run.b }
        ensures ran { RanOut self.old.shape (stripe_of run.b) run.n result
            (record { request = request_of self.old; stripe = stripe_value D.seen stripe.old })
            (record { request = request_of self.new; stripe = stripe_value D.seen stripe.new }) }
        ensures free { IsFree self.new }
        ensures shape { self.new.shape ≡ self.old.shape }
        ensures same { geometry (stripe_value D.seen stripe.new) ≡ geometry (stripe_value D.seen stripe.old) }
    {
        let last = run.b + u64::from(run.n - 1);
        let next = self.after_load(last);
        let WholeRun { k, b, n, at } = run;
        let buf = self.lend_body();
        match stripe.run(RunOp::Load { b, k, n, at, buf }) {
            RunReply::Filled(got) => {
                self.body = got;
                self.stage = Stage::In(k, next);
                note_of(OpKind::Load, last, StripeNote::Filled)
            }
            RunReply::Fault(done, back) => {
                self.body = back;
                self.stage = Stage::In(k, Step::End(Ending::Failed(Errno::Io)));
                return note_of(OpKind::Load, b + u64::from(done), StripeNote::Fault);
            }
            _ => unreachable!(),
        }
    }

    /// A WRITE stores a run from its body.
    fn store_run<D: Disk + Drop>(&mut self, run: WholeRun, stripe: &mut Stripe<D>) -> Note
        requires free { IsFree self.old }
        requires stage { self.old.stage ≡ Stage.In run.k (Step.Store run.b) }
        requires brings { brings_bytes self.old.ask.kind ≡ true }
        requires whole { IsWholeRun self.old.shape.align (span_of (client_of self.old)) run }
        requires stripe { geometry (stripe_value D.seen stripe.old) ≡ geometry_for self.old.shape run.b }
        ensures ran { RanOut self.old.shape (stripe_of run.b) run.n result
            (record { request = request_of self.old; stripe = stripe_value D.seen stripe.old })
            (record { request = request_of self.new; stripe = stripe_value D.seen stripe.new }) }
        ensures free { IsFree self.new }
        ensures shape { self.new.shape ≡ self.old.shape }
        ensures same { geometry (stripe_value D.seen stripe.new) ≡ geometry (stripe_value D.seen stripe.old) }
    {
        let WholeRun { k, b, n, at } = run;
        let buf = self.lend_body();
        match stripe.run(RunOp::Store { b, k, n, at, buf }) {
            RunReply::Done(back) => {
                let last = b + u64::from(n - 1);
                self.body = back;
                self.stage = Stage::In(k, self.stored(last));
                note_of(OpKind::Store, last, StripeNote::Done)
            }
            RunReply::Fault(done, back) => {
                let last = b + u64::from(done);
                self.body = back;
                self.stage = Stage::In(k, self.store_failed(last));
                return note_of(OpKind::Store, last, StripeNote::Fault);
            }
            RunReply::HeldBy(done, j, back) => {
                let last = b + u64::from(done);
                self.body = back;
                self.stage = Stage::In(k, Step::Store(last));
                return note_of(OpKind::Store, last, StripeNote::HeldBy(j));
            }
            _ => unreachable!(),
        }
    }

    /// A WRITE_ZEROES stores a run of zeros.
    fn zero_run<D: Disk + Drop>(
        &mut self,
        run: WholeRun,
        zeros: &mut Bytes,
        stripe: &mut Stripe<D>,
    ) -> Note
        requires free { IsFree self.old }
        requires stage { self.old.stage ≡ Stage.In run.k (Step.Store run.b) }
        requires brings { brings_bytes self.old.ask.kind ≡ false }
        requires whole { IsWholeRun self.old.shape.align (span_of (client_of self.old)) run }
        requires zeros { AreZeros (run.n * self.old.shape.align) zeros.old }
        requires stripe { geometry (stripe_value D.seen stripe.old) ≡ geometry_for self.old.shape run.b }
        ensures ran { RanOut self.old.shape (stripe_of run.b) run.n result
            (record { request = request_of self.old; stripe = stripe_value D.seen stripe.old })
            (record { request = request_of self.new; stripe = stripe_value D.seen stripe.new }) }
        ensures free { IsFree self.new }
        ensures shape { self.new.shape ≡ self.old.shape }
        ensures zeros { zeros.new ≡ zeros.old }
        ensures same { geometry (stripe_value D.seen stripe.new) ≡ geometry (stripe_value D.seen stripe.old) }
    {
        let WholeRun { k, b, n, .. } = run;
        let buf = mem::replace(zeros, Bytes::of(Vec::new(self.alloc)));
        match stripe.run(RunOp::Store {
            b,
            k,
            n,
            at: 0,
            buf,
        }) {
            RunReply::Done(back) => {
                let last = b + u64::from(n - 1);
                *zeros = back;
                self.stage = Stage::In(k, self.stored(last));
                note_of(OpKind::Store, last, StripeNote::Done)
            }
            RunReply::Fault(done, back) => {
                let last = b + u64::from(done);
                *zeros = back;
                self.stage = Stage::In(k, self.store_failed(last));
                return note_of(OpKind::Store, last, StripeNote::Fault);
            }
            RunReply::HeldBy(done, j, back) => {
                let last = b + u64::from(done);
                *zeros = back;
                self.stage = Stage::In(k, Step::Store(last));
                return note_of(OpKind::Store, last, StripeNote::HeldBy(j));
            }
            _ => unreachable!(),
        }
    }

    /// Does the run that is next.
    pub fn run<D: Disk + Drop>(
        &mut self,
        run: WholeRun,
        zeros: &mut Bytes,
        stripe: &mut Stripe<D>,
    ) -> Note
        requires free { IsFree self.old }
        requires next { IsNextRun self.old.shape.align (request_of self.old) run }
        requires zeros { AreZeros (run.n * self.old.shape.align) zeros.old }
        requires stripe { geometry (stripe_value D.seen stripe.old) ≡ geometry_for self.old.shape run.b }
        ensures ran { RanOut self.old.shape (stripe_of run.b) run.n result
            (record { request = request_of self.old; stripe = stripe_value D.seen stripe.old })
            (record { request = request_of self.new; stripe = stripe_value D.seen stripe.new }) }
        ensures free { IsFree self.new }
        ensures shape { self.new.shape ≡ self.old.shape }
        ensures zeros { zeros.new ≡ zeros.old }
        ensures same { geometry (stripe_value D.seen stripe.new) ≡ geometry (stripe_value D.seen stripe.old) }
    {
        match self.stage {
            Stage::In(_, Step::Load(_)) => self.load_run(run, stripe),
            _ if brings_bytes(self.ask.kind) => return self.store_run(run, stripe),
            _ => return self.zero_run(run, zeros, stripe),
        }
    }
}
