ghost use Rattle.std.specs.Prelude.{◌≡◌, ◌+◌, ◌-◌, ◌^◌, ◌<◌, ◌≤◌, length, max, min, false, take, None, Some};
ghost use Rattle.qs_bytes.specs.Pieces.{overlay};
ghost use Rattle.qs_part.specs.declared.stripe.StripeReply.{StripeReply as Reply};
ghost use Rattle.qs_model.specs.Requests.{held, keep, loaded, piece, In as InFlight};
ghost use Rattle.qs_request.specs.Table.{MayTrack, after_tracker};
ghost use Rattle.qs_request.specs.Inside.{AwaitsReply, TakesReply, Goes, HasBuffers, IsHolding, IsLoading, IsSound, IsAtStage, before, client_of, stage_of, step_of};
ghost use Rattle.qs_request_state.specs.Shapes.{IsShape};

use crate::machine::Machine;
use crate::todo::PartReply;
use qs_bytes::{Bytes, Errno, write_over};
use qs_part::graph::GraphReply;
use qs_part::stripe::{Side, StripeReply};
use qs_part::tracker::TrackerReply;
use qs_request_state::{Ending, Stage, Step};

/// Where the covered bytes of a block are: at `from` to `to` in the block, and from `at` on in the
/// bytes that the request covers.
#[derive(Clone, Copy, Debug)]
struct Cut {
    at: usize,
    from: usize,
    to: usize,
}

/// The bytes that the span from `lo` to `hi` covers of the block of `align` bytes at `start`.
fn cut_of(lo: u64, hi: u64, start: u64, align: u64) -> Cut
    requires some { lo < hi }
    requires begins { lo < start + align }
    requires ends { start < hi }
    requires small { start + align ≤ 2 ^ 40 }
    ensures at { result.at ≡ max lo start - lo }
    ensures from { result.from ≡ max lo start - start }
    ensures to { result.to ≡ min hi (start + align) - start }
    ensures order { result.from ≤ result.to }
    ensures inside { result.to ≤ align }
    ensures whole { result.at + (result.to - result.from) ≤ hi - lo }
{
    let from = lo.max(start);
    let to = hi.min(start + align);
    Cut {
        at: (from - lo) as usize,
        from: (from - start) as usize,
        to: (to - start) as usize,
    }
}

/// What follows an answer of a part.
impl Machine {
    /// The stage after an answer of the tracker.
    fn tracked(&self, reply: TrackerReply) -> Stage
        requires shape { IsShape self.now.shape }
        requires stands { IsAtStage self.now self.now.stage }
        requires may { MayTrack reply (stage_of self.now self.now.stage) }
        ensures stage { stage_of self.now result
            ≡ after_tracker self.now.shape.align (client_of self.now) self.now.dropped reply
            (stage_of self.now self.now.stage) }
        ensures stands { IsAtStage self.now result }
    {
        match (self.stage, reply) {
            (Stage::Entering, TrackerReply::Entered(k)) => Stage::In(k, Step::Route),
            (Stage::In(k, Step::List), TrackerReply::Listed(_)) => Stage::In(k, Step::Start),
            (Stage::In(k, Step::Start), TrackerReply::Started) => Stage::In(k, self.started()),
            (Stage::In(_, Step::End(ending)), TrackerReply::Ended) => {
                Stage::Ready(if self.dropped {
                    Ending::Dropped
                } else {
                    ending
                })
            }
            (stage, _) => stage,
        }
    }

    fn after_tracker(&mut self, reply: TrackerReply)
        requires { AwaitsReply self.old (PartReply.Tracker reply) }
        ensures { TakesReply self.old (PartReply.Tracker reply) self.new }
    {
        self.stage = self.tracked(reply);
        self.waits = false;
    }

    fn after_graph(&mut self, reply: GraphReply)
        requires { AwaitsReply self.old (PartReply.Graph reply) }
        ensures { TakesReply self.old (PartReply.Graph reply) self.new }
    {
        self.waits = false;
        match (self.stage, reply) {
            (Stage::In(k, Step::Route), GraphReply::Routed(route)) => {
                self.route = Some(route);
                self.stage = Stage::In(k, self.routed());
            }
            (Stage::In(k, Step::Route), GraphReply::Shutting) => {
                self.stage = Stage::In(k, Step::End(Ending::Failed(Errno::Shutdown)));
            }
            _ => {}
        }
    }

    /// Copies the covered bytes of block `b`, which was read, to the READ's buffer.
    fn copy_covered(&mut self, b: u64)
        requires shape { IsShape self.old.shape }
        requires loading { IsLoading self.old b }
        requires body { length self.old.body ≡ self.old.ask.length }
        requires work { length self.old.work ≡ self.old.shape.align }
        ensures { self.new ≡ record self.old {
          body = overlay self.old.body (before self.old b) (piece self.old.shape.align (client_of self.old) b self.old.work);
        } }
    {
        let span = self.span();
        let start = self.start(b);
        let part = cut_of(span.lo(), span.hi(), start, u64::from(self.shape.align));
        let piece = &self.work.as_slice()[part.from..part.to];
        write_over(self.body.as_mut_slice(), part.at, piece);
    }

    /// A READ has block `b`.
    fn loaded(&mut self, k: u8, b: u64)
        requires shape { IsShape self.old.shape }
        requires loading { IsLoading self.old b }
        requires buffers { HasBuffers self.old false }
        ensures step { stage_of self.new self.new.stage
            ≡ InFlight k (loaded self.old.shape.align (client_of self.old) b (take (before self.old b) self.old.body)
            self.old.work) }
        ensures stands { IsAtStage self.new self.new.stage }
        ensures buffers { HasBuffers self.new false }
        ensures same { self.new ≡ record self.old { body = self.new.body; stage = self.new.stage } }
    {
        self.copy_covered(b);
        self.stage = Stage::In(k, self.after_load(b));
    }

    /// A WRITE holds the block of this end.
    fn kept(&mut self, k: u8, side: Side)
        requires shape { IsShape self.old.shape }
        requires holding { IsHolding self.old side }
        requires buffers { HasBuffers self.old false }
        ensures step { stage_of self.new self.new.stage
            ≡ InFlight k (held self.old.shape.align (client_of self.old) side) }
        ensures stands { IsAtStage self.new self.new.stage }
        ensures buffers { HasBuffers self.new false }
        ensures same { self.new ≡ record self.old {
          pads = record self.old.pads { pads = keep self.old.pads.pads side self.old.work };
          work = self.new.work;
          stage = self.new.stage;
        } }
    {
        self.pads.keep(side, &mut self.work);
        self.stage = Stage::In(k, self.held(side));
    }

    /// A Load or a Hold gave the block.
    fn filled(&mut self, buf: Bytes)
        requires { AwaitsReply self.old (PartReply.Stripe (Reply.Filled buf)) }
        ensures { TakesReply self.old (PartReply.Stripe (Reply.Filled buf)) self.new }
    {
        self.work = buf;
        self.waits = false;
        match self.stage {
            Stage::In(k, Step::Load(b)) => self.loaded(k, b),
            Stage::In(k, Step::Hold(side)) => self.kept(k, side),
            _ => {}
        }
    }

    /// A Store is done.
    fn done(&mut self, buf: Bytes)
        requires { AwaitsReply self.old (PartReply.Stripe (Reply.Done buf)) }
        ensures { TakesReply self.old (PartReply.Stripe (Reply.Done buf)) self.new }
    {
        self.work = buf;
        self.waits = false;
        if let Stage::In(k, Step::Store(b)) = self.stage {
            self.stage = Stage::In(k, self.stored(b));
        }
    }

    /// The disk refused.
    fn failed(&mut self, buf: Bytes)
        requires { AwaitsReply self.old (PartReply.Stripe (Reply.Fault (Some buf))) }
        ensures { TakesReply self.old (PartReply.Stripe (Reply.Fault (Some buf))) self.new }
    {
        self.work = buf;
        self.waits = false;
        self.stage = match self.stage {
            Stage::In(k, Step::Load(_)) => Stage::In(k, Step::End(Ending::Failed(Errno::Io))),
            Stage::In(k, Step::Hold(side)) => Stage::In(k, self.hold_failed(side)),
            Stage::In(k, Step::Store(b)) => Stage::In(k, self.store_failed(b)),
            stage => stage,
        };
    }

    /// A stripe was clean.
    fn clean(&mut self)
        requires { AwaitsReply self.old (PartReply.Stripe Reply.Clean) }
        ensures { TakesReply self.old (PartReply.Stripe Reply.Clean) self.new }
    {
        self.waits = false;
        if let Stage::In(k, Step::Sync(s)) = self.stage {
            self.stage = Stage::In(k, self.after_sync(s));
        }
    }

    /// A stripe is synced.
    fn synced(&mut self)
        requires { AwaitsReply self.old (PartReply.Stripe Reply.Synced) }
        ensures { TakesReply self.old (PartReply.Stripe Reply.Synced) self.new }
    {
        self.waits = false;
        if let Stage::In(k, Step::Sync(s)) = self.stage {
            self.stage = Stage::In(k, self.after_sync(s));
        }
    }

    /// The disk refused to sync.
    fn sync_failed(&mut self)
        requires { AwaitsReply self.old (PartReply.Stripe (Reply.Fault None)) }
        ensures { TakesReply self.old (PartReply.Stripe (Reply.Fault None)) self.new }
    {
        self.waits = false;
        if let Stage::In(k, Step::Sync(_)) = self.stage {
            self.stage = Stage::In(k, Step::End(Ending::Failed(Errno::Io)));
        }
    }

    /// A hold was given up.
    fn freed(&mut self)
        requires { AwaitsReply self.old (PartReply.Stripe Reply.Freed) }
        ensures { TakesReply self.old (PartReply.Stripe Reply.Freed) self.new }
    {
        self.waits = false;
        if let Stage::In(k, Step::Free(_)) = self.stage {
            self.stage = Stage::In(k, Step::End(Ending::Failed(Errno::Io)));
        }
    }

    fn held_by(&mut self, j: u8, buf: Bytes)
        requires { AwaitsReply self.old (PartReply.Stripe (Reply.HeldBy j buf)) }
        ensures { TakesReply self.old (PartReply.Stripe (Reply.HeldBy j buf)) self.new }
    {
        self.work = buf;
        self.waits = false;
    }

    fn taken(&mut self, b: u64, buf: Bytes)
        requires { AwaitsReply self.old (PartReply.Stripe (Reply.Taken b buf)) }
        ensures { TakesReply self.old (PartReply.Stripe (Reply.Taken b buf)) self.new }
    {
        self.work = buf;
        self.waits = false;
    }

    fn after_stripe(&mut self, reply: StripeReply)
        requires { AwaitsReply self.old (PartReply.Stripe reply) }
        ensures { TakesReply self.old (PartReply.Stripe reply) self.new }
    {
        match reply {
            StripeReply::Filled(buf) => self.filled(buf),
            StripeReply::Fault(Some(buf)) => self.failed(buf),
            StripeReply::Fault(None) => self.sync_failed(),
            StripeReply::HeldBy(j, buf) => self.held_by(j, buf),
            StripeReply::Taken(b, buf) => self.taken(b, buf),
            StripeReply::Done(buf) => self.done(buf),
            StripeReply::Freed => self.freed(),
            StripeReply::NotHeld => self.waits = false,
            StripeReply::Clean => self.clean(),
            StripeReply::Synced => self.synced(),
        }
    }

    /// Takes the reply to the operation that was given last.
    pub fn after(&mut self, reply: PartReply)
        requires { AwaitsReply self.old reply }
        ensures { TakesReply self.old reply self.new }
    {
        match reply {
            PartReply::Tracker(reply) => self.after_tracker(reply),
            PartReply::Graph(reply) => self.after_graph(reply),
            PartReply::Stripe(reply) => self.after_stripe(reply),
        }
    }
}
