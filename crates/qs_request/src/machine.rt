ghost use Rattle.std.specs.Prelude.{◌≡◌, [], length, true, false};
ghost use Rattle.qs_model.specs.Requests.{abandon, brings_bytes};
ghost use Rattle.qs_request_state.specs.Shapes.{IsShape};
ghost use Rattle.qs_request.specs.Table.{FitsPart, IsMerged, WantsAt};
ghost use Rattle.qs_request.specs.Value.{Gave};
ghost use Rattle.qs_request.specs.Inside.{Goes, HasBuffers, IsFree, IsGoing, IsLoading, IsSound, IsStoring, client_of, lends, request_of, stage_of, value_of, verdict_of};

use crate::todo::Todo;
use qs_bytes::{Ask, Bytes, Verdict, stripe_of};
use qs_part::graph::Route;
use qs_part::stripe::{Side, StripeOp};
use qs_part::tracker::TrackerOp;
use qs_request_state::{
    Blocks, Ending, PadBuffer, Shape, Stage, Step, brings_bytes, cleared, is_flush, is_read, merged,
};
use std::alloc::Global;
use std::mem;

/// The fields of a request.
#[derive(Debug, Drop)]
pub struct Machine {
    pub session: u32,
    pub export: u8,
    pub ask: Ask,
    pub buffered: bool,
    /// The way to the image, once the graph told it.
    pub route: Option<Route>,
    pub shape: Shape,
    /// The session has left.
    pub dropped: bool,
    pub stage: Stage,
    /// A READ's buffer, or a WRITE's bytes.
    pub body: Bytes,
    /// The block that operations are lent.
    pub work: Bytes,
    pub pads: PadBuffer,
    /// An operation waits for its reply.
    pub waits: bool,
    pub answered: bool,
    /// Makes buffers of no bytes, which take no memory.
    pub alloc: Global,
}

/// The next operations.
impl Machine {
    fn lend(&mut self) -> Bytes
        ensures work { result ≡ self.old.work }
        ensures same { self.new ≡ record self.old { work = [] } }
    {
        mem::replace(&mut self.work, Bytes::of(Vec::new(self.alloc)))
    }

    /// What block `b` is stored with: the covered bytes, those of a WRITE_ZEROES zero, and the kept
    /// pad's where the request doesn't cover it.
    fn content(&self, b: u64, work: Bytes) -> Bytes
        requires shape { IsShape self.now.shape }
        requires storing { IsStoring self.now b }
        requires body { brings_bytes self.now.ask.kind ≡ true → length self.now.body ≡ self.now.ask.length }
        requires whole { length work ≡ self.now.shape.align }
        ensures whole { length result ≡ self.now.shape.align }
        ensures merged { IsMerged self.now.shape.align (client_of self.now) self.now.pads.pads b result }
    {
        let side = self.side_of(b);
        let span = self.span();
        let pad = self.pads.kept(side);
        if brings_bytes(self.ask.kind) {
            merged(work, pad, b, &span, self.body.as_slice())
        } else {
            cleared(work, pad, b, &span)
        }
    }

    fn listing(&self, k: u8) -> Todo
        requires shape { IsShape self.now.shape }
        requires going { IsGoing self.now }
        ensures wants { WantsAt self.now.shape.align (client_of self.now) self.now.pads.pads
            (stage_of self.now (Stage.In k Step.List)) result }
        ensures fits { FitsPart self.now.shape result }
    {
        Todo::Tracker(TrackerOp::List {
            k,
            span: self.plan().whole,
            serial: self.is_serial(),
        })
    }

    fn load(&mut self, k: u8, b: u64) -> Todo
        requires shape { IsShape self.old.shape }
        requires loading { IsLoading self.old b }
        requires work { length self.old.work ≡ self.old.shape.align }
        ensures wants { WantsAt self.old.shape.align (client_of self.old) self.old.pads.pads
            (stage_of self.old (Stage.In k (Step.Load b))) result }
        ensures fits { FitsPart self.old.shape result }
        ensures same { self.new ≡ record self.old { work = [] } }
    {
        let buf = self.lend();
        Todo::Stripe(stripe_of(b), StripeOp::Load { b, k, buf })
    }

    fn hold(&mut self, k: u8, end: Side) -> Todo
        requires shape { IsShape self.old.shape }
        requires going { IsGoing self.old }
        requires work { length self.old.work ≡ self.old.shape.align }
        ensures wants { WantsAt self.old.shape.align (client_of self.old) self.old.pads.pads
            (stage_of self.old (Stage.In k (Step.Hold end))) result }
        ensures fits { FitsPart self.old.shape result }
        ensures same { self.new ≡ record self.old { work = [] } }
    {
        let b = self.edge(end);
        let buf = self.lend();
        Todo::Stripe(stripe_of(b), StripeOp::Hold { b, k, end, buf })
    }

    fn store(&mut self, k: u8, b: u64) -> Todo
        requires shape { IsShape self.old.shape }
        requires storing { IsStoring self.old b }
        requires body { brings_bytes self.old.ask.kind ≡ true → length self.old.body ≡ self.old.ask.length }
        requires work { length self.old.work ≡ self.old.shape.align }
        ensures wants { WantsAt self.old.shape.align (client_of self.old) self.old.pads.pads
            (stage_of self.old (Stage.In k (Step.Store b))) result }
        ensures fits { FitsPart self.old.shape result }
        ensures same { self.new ≡ record self.old { work = [] } }
    {
        let work = self.lend();
        let buf = self.content(b, work);
        Todo::Stripe(stripe_of(b), StripeOp::Store { b, k, buf })
    }

    fn free(&self, k: u8, side: Side) -> Todo
        requires shape { IsShape self.now.shape }
        requires going { IsGoing self.now }
        ensures wants { WantsAt self.now.shape.align (client_of self.now) self.now.pads.pads
            (stage_of self.now (Stage.In k (Step.Free side))) result }
        ensures fits { FitsPart self.now.shape result }
    {
        let b = self.edge(side);
        Todo::Stripe(stripe_of(b), StripeOp::Free { b, k })
    }

    /// The operation of a request in flight.
    fn next_of(&mut self, k: u8, step: Step) -> Todo
        requires shape { IsShape self.old.shape }
        requires goes { Goes self.old step }
        requires buffers { HasBuffers self.old false }
        ensures wants { WantsAt self.old.shape.align (client_of self.old) self.old.pads.pads
            (stage_of self.old (Stage.In k step)) result }
        ensures fits { FitsPart self.old.shape result }
        ensures same { self.new ≡ record self.old { work = self.new.work } }
        ensures work { lends step ≡ false → self.new.work ≡ self.old.work }
    {
        match step {
            Step::Route => Todo::Route { e: self.export },
            Step::List => self.listing(k),
            Step::Start => Todo::Tracker(TrackerOp::Start { k }),
            Step::Load(b) => self.load(k, b),
            Step::Hold(side) => self.hold(k, side),
            Step::Store(b) => self.store(k, b),
            Step::Sync(s) => Todo::Stripe(s, StripeOp::Sync),
            Step::Free(side) => self.free(k, side),
            Step::End(_) => Todo::Tracker(TrackerOp::End { k }),
        }
    }

    /// What a request answers that ends so. A READ's bytes are given away.
    pub fn answer(&mut self, ending: Ending) -> Verdict
        ensures verdict { result ≡ verdict_of self.old ending }
        ensures same { self.new ≡ record self.old { body = self.new.body } }
    {
        match ending {
            Ending::Success => {
                if is_read(self.ask.kind) {
                    let empty = Bytes::of(Vec::new(self.alloc));
                    Verdict::Got(mem::replace(&mut self.body, empty))
                } else {
                    Verdict::Fine
                }
            }
            Ending::Failed(errno) => Verdict::Refused(errno),
            Ending::Dropped => Verdict::Dropped,
        }
    }

    /// What the request does next.
    pub fn next(&mut self) -> Todo
        requires { IsFree self.old }
        ensures wants { WantsAt self.old.shape.align (client_of self.old) self.old.pads.pads
            (stage_of self.old self.old.stage) result }
        ensures fits { FitsPart self.old.shape result }
        ensures leaves { Gave (value_of self.old) result (value_of self.new) }
        ensures sound { self.new.answered ≡ false → IsSound self.new }
    {
        match self.stage {
            Stage::Ready(ending) => {
                self.answered = true;
                Todo::Answer(self.answer(ending))
            }
            Stage::Entering => {
                self.waits = true;
                Todo::Tracker(TrackerOp::Enter)
            }
            Stage::In(k, step) => {
                self.waits = true;
                self.next_of(k, step)
            }
        }
    }

    /// The session has left.
    pub fn abandon(&mut self)
        requires { IsFree self.old }
        ensures request { request_of self.new ≡ abandon (request_of self.old) }
        ensures shape { self.new.shape ≡ self.old.shape }
        ensures free { IsFree self.new }
    {
        self.dropped = true;
        self.stage = match self.stage {
            Stage::Ready(_) | Stage::Entering => Stage::Ready(Ending::Dropped),
            Stage::In(k, Step::Route | Step::List) => Stage::In(k, Step::End(Ending::Dropped)),
            Stage::In(k, Step::Sync(_)) if is_flush(self.ask.kind) => {
                Stage::In(k, Step::End(Ending::Dropped))
            }
            stage => stage,
        };
    }

    /// The blocks that the request worked in, whatever stands in them. It is over with that.
    pub fn take_blocks(&mut self) -> Blocks
        ensures { self.new.answered ≡ true }
    {
        self.answered = true;
        let empty = PadBuffer::empty(self.alloc);
        let (head, tail) = mem::replace(&mut self.pads, empty).into_buffers();
        let work = self.lend();
        Blocks { work, head, tail }
    }

    /// The body that is left in the request. It is over with that.
    pub fn take_body(&mut self) -> Bytes
        ensures { self.new.answered ≡ true }
    {
        self.answered = true;
        mem::replace(&mut self.body, Bytes::of(Vec::new(self.alloc)))
    }
}
