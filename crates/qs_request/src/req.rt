ghost use Rattle.std.specs.Prelude.{◌≡◌, ◌↔◌, ◌*◌, IfNone, IfSome, IsTrue, length, false, true};
ghost use Rattle.std.specs.Option.{ForSome};
ghost use Rattle.qs_bytes.specs.Geometry.{stripe_of};
ghost use Rattle.qs_stripe.specs.Table.{geometry, value_of as stripe_value};
ghost use Rattle.qs_model.specs.Requests.{abandon, new_request};
ghost use Rattle.qs_request.specs.declared.whole_run.WholeRun.{WholeRun as Run};
ghost use Rattle.qs_request.specs.RunSteps.{AreZeros, IsNextRun, RanOut, geometry_for};
ghost use Rattle.qs_request_state.specs.Shapes.{IsShape, IsRoom};
ghost use Rattle.qs_request.specs.Table.{FitsPart, MayReply, Wants, followed};
ghost use Rattle.qs_request.specs.Value.{IsReady, Gave, client_for};

use crate::machine::Machine;
use crate::todo::{PartReply, Todo};
use crate::whole_run::WholeRun;
use qs_bytes::{Ask, Bytes};
use qs_outside::Disk;
use qs_part::event::Note;
use qs_request_state::{Blocks, Shape, Stage};
use qs_stripe::stripe::Stripe;
use std::alloc::Global;
use std::marker::Model;

/// One client's READ, WRITE, WRITE_ZEROES, TRIM or FLUSH, at any offset: it gives the operation of a part that comes
/// next, takes the part's reply, and gives its answer at the end (the request table; for padded writes QEMU's
/// block/io.c). Nothing here takes memory.
#[derive(Debug, Drop)]
pub struct Req {
    machine: Machine,
}

impl Model for Req {
    ghost use Rattle.std.specs.Prelude.{◌≡◌, false};
    ghost use Rattle.qs_request.specs.Value.{RequestValue};

    ghost Value = { RequestValue };

    ghost use Rattle.qs_request.specs.Inside.{IsSound, value_of};

    ghost view = { λ r. value_of r.machine };

    ghost invariant = { λ r. r.machine.answered ≡ false → IsSound r.machine };
}

impl Req {
    /// The request of a session to the export at place `e`.
    ///
    /// The body is a READ's buffer or a WRITE's bytes. A READ or WRITE of some length without a body,
    /// and a READ, WRITE or WRITE_ZEROES of some length without blocks had its memory refused, and
    /// answers so; others want neither. The allocator makes buffers of no bytes alone, which take no
    /// memory.
    pub fn new(
        alloc: Global,
        session: u32,
        ask: Ask,
        e: u8,
        body: Option<Bytes>,
        blocks: Option<Blocks>,
        shape: Shape,
    ) -> Req
        requires shape { IsShape shape }
        requires body { ForSome body (λ bytes. length bytes ≡ ask.length) }
        requires blocks { ForSome blocks (IsRoom shape.align) }
        ensures { result ≡ record {
          request = new_request (client_for session ask e body blocks);
          shape = shape;
          waits = false;
          answered = false;
        } }
    {
        Req {
            machine: Machine::new(alloc, session, ask, e, body, blocks, shape),
        }
    }

    /// The session that asked.
    pub fn session(&self) -> u32
        ensures { result ≡ self.now.request.client.session }
    {
        self.machine.session
    }

    /// The place of the session's export.
    pub fn export(&self) -> u8
        ensures { result ≡ self.now.request.client.export }
    {
        self.machine.export
    }

    /// What the client asked for.
    pub fn ask(&self) -> Ask
        ensures { result ≡ self.now.request.client.ask }
    {
        self.machine.ask
    }

    /// The image that it goes to.
    pub fn shape(&self) -> Shape
        ensures { result ≡ self.now.shape }
    {
        self.machine.shape
    }

    /// Whether the answer is next.
    pub fn is_ready(&self) -> bool
        ensures { IsTrue result ↔ IsReady self.now.request.stage }
    {
        matches!(self.machine.stage, Stage::Ready(_))
    }

    /// Whether an operation waits for its reply.
    pub fn is_waiting(&self) -> bool
        ensures { result ≡ self.now.waits }
    {
        self.machine.waits
    }

    /// Whether the answer was given.
    pub fn is_answered(&self) -> bool
        ensures { result ≡ self.now.answered }
    {
        self.machine.answered
    }

    /// What the request does next. `now` is the clock's reading in nanoseconds, which nothing wants
    /// yet. The operation fits the part that it names, where that part is of this shape.
    pub fn next(&mut self, now: u64) -> Todo
        requires free { self.old.waits ≡ false }
        requires unanswered { self.old.answered ≡ false }
        ensures wants { Wants self.old.shape.align self.old.request result }
        ensures fits { FitsPart self.old.shape result }
        ensures leaves { Gave self.old result self.new }
    {
        let _ = now;
        self.machine.next()
    }

    /// Takes the reply to the operation that was given last. An answer that isn't in the request
    /// table leaves the stage as it was, so the same operation comes next.
    pub fn after(&mut self, reply: PartReply)
        requires waits { self.old.waits ≡ true }
        requires unanswered { self.old.answered ≡ false }
        requires may { MayReply self.old.shape self.old.request reply }
        ensures { self.new ≡ record self.old {
          request = followed self.old.shape.align self.old.request reply;
          waits = false;
        } }
    {
        self.machine.after(reply);
    }

    /// The whole blocks of one group of sixteen that a READ loads next, or a WRITE or WRITE_ZEROES stores, as many as
    /// there are. None exactly where the next operation is another, or on a block that the span doesn't cover
    /// wholly.
    pub fn whole_run(&self) -> Option<WholeRun>
        requires free { self.now.waits ≡ false }
        requires unanswered { self.now.answered ≡ false }
        ensures some { IfSome result (λ run. IsNextRun self.now.shape.align self.now.request run) }
        ensures none { IfNone result ((run : Run) → IsNextRun self.now.shape.align self.now.request run → ⊥) }
    {
        self.machine.whole_run()
    }

    /// Does the run that is next on its stripe, in the request's own buffer or for a WRITE_ZEROES with these
    /// zeros, and says how the last of its operations was answered: those that would come one by one, up to the
    /// first that isn't done. The zeros stay.
    pub fn run<D: Disk + Drop>(
        &mut self,
        run: WholeRun,
        zeros: &mut Bytes,
        stripe: &mut Stripe<D>,
    ) -> Note
        requires free { self.old.waits ≡ false }
        requires unanswered { self.old.answered ≡ false }
        requires next { IsNextRun self.old.shape.align self.old.request run }
        requires zeros { AreZeros (run.n * self.old.shape.align) zeros.old }
        requires stripe { geometry (stripe_value D.seen stripe.old) ≡ geometry_for self.old.shape run.b }
        ensures ran { RanOut self.old.shape (stripe_of run.b) run.n result
            (record { request = self.old.request; stripe = stripe_value D.seen stripe.old })
            (record { request = self.new.request; stripe = stripe_value D.seen stripe.new }) }
        ensures rest { self.new ≡ record self.old { request = self.new.request } }
        ensures zeros { zeros.new ≡ zeros.old }
        ensures same { geometry (stripe_value D.seen stripe.new) ≡ geometry (stripe_value D.seen stripe.old) }
    {
        self.machine.run(run, zeros, stripe)
    }

    /// The session has left: a request that hasn't entered is dropped at once, one without a span
    /// ends, also a FLUSH that syncs, and another runs on. Its verdict is Dropped.
    pub fn abandon(&mut self)
        requires free { self.old.waits ≡ false }
        requires unanswered { self.old.answered ≡ false }
        ensures { self.new ≡ record self.old { request = abandon self.old.request } }
    {
        self.machine.abandon();
    }

    /// Gives the blocks of a request that isn't needed any more, where all three have a block's length. It is
    /// over with that. It takes no memory.
    pub fn take_blocks(&mut self) -> Option<Blocks>
        ensures over { self.new.answered ≡ true }
        ensures room { ForSome result (IsRoom self.old.shape.align) }
    {
        let align = self.machine.shape.align;
        let blocks = self.machine.take_blocks();
        if blocks.are_of(align) {
            Some(blocks)
        } else {
            None
        }
    }

    /// Gives the body that is left in a request that isn't needed any more: a WRITE's bytes, and none of a READ that
    /// has answered with them. It is over with that. It takes no memory.
    pub fn take_body(&mut self) -> Bytes
        ensures { self.new.answered ≡ true }
    {
        self.machine.take_body()
    }
}
