ghost use Rattle.std.specs.Prelude.{◌≡◌, ◌≢◌, ◌+◌, ◌-◌, ◌^◌, ◌<◌, ◌≤◌, ◌⊎◌, length, Some, true, false};
ghost use Rattle.std.specs.Prelude.{nat_lt, is_some, ◌*◌, ◌==◌, if◌then◌else◌};
ghost use Rattle.qs_bytes.specs.Spans.{aligned_out};
ghost use Rattle.qs_part.specs.declared.stripe.Side.TheVariants.{Head as HeadSide, Tail as TailSide};
ghost use Rattle.qs_model.specs.Requests.{edge, has, held, hold_failed, is_flush, is_read, routed, serial, span_of, started, store_failed, stored, stores_bytes, syncs, synced, to_sync, ToStore};
ghost use Rattle.qs_request_state.specs.Shapes.{IsShape};
ghost use Rattle.qs_request.specs.Inside.{Goes, HasKeptTo, HasPads, IsAsked, IsGoing, IsLoading, IsPlaced, IsReached, IsStoring, IsSyncing, client_of, step_of, way_of};

use crate::machine::Machine;
use qs_bytes::{Errno, STRIPES, Span};
use qs_padding::padding::plan;
use qs_padding::planned::Plan;
use qs_part::stripe::Side;
use qs_request_state::{
    Ending, Step, is_flush, is_read, is_trim, stores_bytes, touches, wants_writable,
};

/// Whether the bytes from an offset on pass a size. A sum above 2^64 - 1 passes each.
fn passes(offset: u64, length: u64, size: u64) -> bool
    ensures { result ≡ nat_lt size (offset + length) }
{
    match offset.checked_add(length) {
        Some(end) => size < end,
        None => true,
    }
}

/// The choices of the request table.
impl Machine {
    fn route_offset(&self) -> u64
        ensures { result ≡ (way_of self.now.route).offset }
    {
        match self.route {
            Some(route) => route.offset,
            None => 0,
        }
    }

    fn route_size(&self) -> u64
        ensures { result ≡ (way_of self.now.route).size }
    {
        match self.route {
            Some(route) => route.size,
            None => 0,
        }
    }

    fn may_write(&self) -> bool
        ensures { result ≡ (way_of self.now.route).writable }
    {
        match self.route {
            Some(route) => route.writable,
            None => false,
        }
    }

    /// The places of the image that the request covers.
    pub fn span(&self) -> Span
        requires shape { IsShape self.now.shape }
        requires going { IsGoing self.now }
        ensures { result ≡ span_of (client_of self.now) }
    {
        let lo = self.route_offset() + self.ask.offset;
        match Span::of(lo, self.ask.length) {
            Some(span) => span,
            None => unreachable!(),
        }
    }

    /// The whole blocks that the span reaches, and those of its ends that it covers in part.
    pub fn plan(&self) -> Plan
        requires shape { IsShape self.now.shape }
        requires going { IsGoing self.now }
        ensures whole { result.whole ≡ aligned_out (span_of (client_of self.now)) self.now.shape.align }
        ensures head { is_some result.head ≡ has self.now.shape.align (client_of self.now) HeadSide }
        ensures tail { is_some result.tail ≡ has self.now.shape.align (client_of self.now) TailSide }
    {
        plan(&self.span(), self.shape.align)
    }

    /// The block at an end of the span.
    #[tactic(auto, unfolding(qs_model::specs::Requests::edge))]
    pub fn edge(&self, side: Side) -> u64
        requires shape { IsShape self.now.shape }
        requires going { IsGoing self.now }
        ensures { result ≡ edge self.now.shape.align (client_of self.now) side }
    {
        let span = self.span();
        let align = u64::from(self.shape.align);
        match side {
            Side::Head => span.lo() / align,
            Side::Tail => (span.hi() - 1) / align,
        }
    }

    /// Whether the span covers the block at this end only in part. A span inside one block has no tail.
    pub fn has(&self, side: Side) -> bool
        requires shape { IsShape self.now.shape }
        requires going { IsGoing self.now }
        ensures { result ≡ has self.now.shape.align (client_of self.now) side }
    {
        let plan = self.plan();
        match side {
            Side::Head => plan.head.is_some(),
            Side::Tail => plan.tail.is_some(),
        }
    }

    /// Whether the request is serialising (QEMU block/io.c).
    #[tactic(auto, unfolding(qs_model::specs::Requests::serial))]
    pub fn is_serial(&self) -> bool
        requires shape { IsShape self.now.shape }
        requires going { IsGoing self.now }
        ensures { result ≡ serial self.now.shape.align (client_of self.now) }
    {
        stores_bytes(self.ask.kind) && !self.span().is_aligned(self.shape.align)
    }

    /// What a request does that has its way: the first rule that refuses it, the syncs of a FLUSH, or
    /// no place to do anything to, or List (NBD proto.md, "Error values").
    #[tactic(auto, unfolding(qs_model::specs::Requests::routed))]
    pub fn routed(&self) -> Step
        requires asked { IsAsked self.now }
        requires body { is_read self.now.ask.kind ≡ true → length self.now.body ≡ self.now.ask.length }
        requires inside { (way_of self.now.route).offset + (way_of self.now.route).size ≤ self.now.shape.size }
        ensures step { step_of self.now result ≡ routed (client_of self.now) }
        ensures goes { Goes self.now result }
    {
        let kind = self.ask.kind;
        if wants_writable(kind) && !self.may_write() {
            return Step::End(Ending::Failed(Errno::Perm));
        }
        if is_flush(kind) {
            return Step::Sync(0);
        }
        if passes(self.ask.offset, self.ask.length, self.route_size()) {
            let stores = stores_bytes(kind);
            return Step::End(Ending::Failed(if stores { Errno::NoSpace } else { Errno::Inval }));
        }
        if self.ask.length == 0 || is_trim(kind) {
            return Step::End(Ending::Success);
        }
        Step::List
    }

    /// A write that has all its pads begins to store.
    fn first_store(&self) -> Step
        requires shape { IsShape self.now.shape }
        requires going { IsGoing self.now }
        requires writing { stores_bytes self.now.ask.kind ≡ true }
        requires kept { HasPads self.now }
        ensures step { step_of self.now result ≡ ToStore (edge self.now.shape.align (client_of self.now) HeadSide) }
        ensures goes { Goes self.now result }
    {
        Step::Store(self.edge(Side::Head))
    }

    /// What a write does once it has the pad of this end, or wants none.
    #[tactic(auto, unfolding(qs_model::specs::Requests::held))]
    pub fn held(&self, side: Side) -> Step
        requires shape { IsShape self.now.shape }
        requires going { IsGoing self.now }
        requires writing { stores_bytes self.now.ask.kind ≡ true }
        requires kept { HasKeptTo self.now side }
        ensures step { step_of self.now result ≡ held self.now.shape.align (client_of self.now) side }
        ensures goes { Goes self.now result }
    {
        match side {
            Side::Head => {
                if self.has(Side::Tail) {
                    Step::Hold(Side::Tail)
                } else {
                    self.first_store()
                }
            }
            Side::Tail => self.first_store(),
        }
    }

    /// What a request does that has started: a READ loads, a write holds its ends and stores.
    #[tactic(auto, unfolding(qs_model::specs::Requests::started))]
    pub fn started(&self) -> Step
        requires shape { IsShape self.now.shape }
        requires going { IsGoing self.now }
        ensures step { step_of self.now result ≡ started self.now.shape.align (client_of self.now) }
        ensures goes { Goes self.now result }
    {
        if is_read(self.ask.kind) {
            Step::Load(self.edge(Side::Head))
        } else if self.has(Side::Head) {
            Step::Hold(Side::Head)
        } else {
            self.held(Side::Head)
        }
    }

    /// What a READ does that has block `b`.
    pub fn after_load(&self, b: u64) -> Step
        requires shape { IsShape self.now.shape }
        requires loading { IsLoading self.now b }
        ensures step { result ≡ (if b == edge self.now.shape.align (client_of self.now) TailSide
            then Step.End Ending.Success else Step.Load (b + 1)) }
        ensures goes { Goes self.now result }
    {
        if b == self.edge(Side::Tail) {
            Step::End(Ending::Success)
        } else {
            Step::Load(b + 1)
        }
    }

    /// The end whose pad a block may have.
    pub fn side_of(&self, b: u64) -> Side
        requires shape { IsShape self.now.shape }
        requires going { IsGoing self.now }
        ensures { result ≡ (if b == edge self.now.shape.align (client_of self.now) HeadSide then HeadSide
            else TailSide) }
    {
        if b == self.edge(Side::Head) {
            Side::Head
        } else {
            Side::Tail
        }
    }

    /// The place where block `b` begins.
    pub fn start(&self, b: u64) -> u64
        requires shape { IsShape self.now.shape }
        requires reached { IsReached self.now b }
        ensures start { result ≡ b * self.now.shape.align }
        ensures placed { IsPlaced (span_of (client_of self.now)) self.now.shape.align result }
    {
        b * u64::from(self.shape.align)
    }

    /// What a write does that has stored block `b`.
    #[tactic(auto, unfolding(qs_model::specs::Requests::stored))]
    pub fn stored(&self, b: u64) -> Step
        requires shape { IsShape self.now.shape }
        requires storing { IsStoring self.now b }
        ensures step { step_of self.now result ≡ stored self.now.shape.align (client_of self.now) b }
        ensures goes { Goes self.now result }
    {
        if b != self.edge(Side::Tail) {
            Step::Store(b + 1)
        } else if self.ask.fua {
            self.next_sync(0)
        } else {
            Step::End(Ending::Success)
        }
    }

    /// Whether the request syncs stripe `s`: a FLUSH syncs all, a write with FUA those of its blocks.
    #[tactic(auto, unfolding(qs_model::specs::Requests::syncs))]
    fn syncs(&self, s: u8) -> bool
        requires shape { IsShape self.now.shape }
        requires syncing { IsSyncing self.now }
        requires stripe { s < 8 }
        ensures { result ≡ syncs self.now.shape.align (client_of self.now) s }
    {
        is_flush(self.ask.kind) || touches(self.edge(Side::Head), self.edge(Side::Tail), s)
    }

    /// What a request does that has synced stripe `s`.
    #[tactic(auto, using(crate::proofs::NextSync::sync_next))]
    pub fn after_sync(&self, s: u8) -> Step
        requires shape { IsShape self.now.shape }
        requires syncing { IsSyncing self.now }
        requires stripe { s < 8 }
        ensures step { step_of self.now result ≡ synced self.now.shape.align (client_of self.now) s }
        ensures goes { Goes self.now result }
    {
        self.next_sync(s + 1)
    }

    /// From stripe `from` on, the first that the request syncs, or its end.
    fn next_sync(&self, from: u8) -> Step
        requires shape { IsShape self.now.shape }
        requires syncing { IsSyncing self.now }
        requires from { from ≤ 8 }
        ensures step { step_of self.now result ≡ to_sync self.now.shape.align (client_of self.now) (8 - from) }
        ensures goes { Goes self.now result }
    {
        for s in from..STRIPES {
            if self.syncs(s) {
                return Step::Sync(s);
            }
        }
        Step::End(Ending::Success)
    }

    /// What a write does whose Hold of this end was refused: the hold that is still open is given up.
    #[tactic(auto, unfolding(qs_model::specs::Requests::hold_failed))]
    pub fn hold_failed(&self, side: Side) -> Step
        requires shape { IsShape self.now.shape }
        requires going { IsGoing self.now }
        ensures step { step_of self.now result ≡ hold_failed self.now.shape.align (client_of self.now) side }
        ensures goes { Goes self.now result }
    {
        match side {
            Side::Tail if self.has(Side::Head) => Step::Free(Side::Head),
            _ => Step::End(Ending::Failed(Errno::Io)),
        }
    }

    /// The same where the Store of block `b` was refused.
    #[tactic(auto, unfolding(qs_model::specs::Requests::store_failed))]
    pub fn store_failed(&self, b: u64) -> Step
        requires shape { IsShape self.now.shape }
        requires going { IsGoing self.now }
        ensures step { step_of self.now result ≡ store_failed self.now.shape.align (client_of self.now) b }
        ensures goes { Goes self.now result }
    {
        if self.has(Side::Tail) && b != self.edge(Side::Tail) {
            Step::Free(Side::Tail)
        } else {
            Step::End(Ending::Failed(Errno::Io))
        }
    }
}
