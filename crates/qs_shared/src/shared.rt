//! The parts behind their turns, and the calls of them.
ghost use Rattle.std.specs.Prelude.{◌≡◌, ◌<◌, true, map, IfOk, MatchResult};
ghost use Rattle.qs_image.specs.Opening.{IsImage};
ghost use Rattle.qs_part.specs.Histories.{call};
ghost use Rattle.qs_part.specs.declared.runs.StripeAnswer.TheVariants.{One as OneAnswer};
ghost use Rattle.qs_part.specs.declared.runs.StripeCall.TheVariants.{One as OneCall};
ghost use Rattle.qs_request.specs.Operations.{MayReplyTo};
ghost use Rattle.qs_request.specs.Table.{FitsPart};
ghost use Rattle.qs_stripe.specs.Runs.{FitsCall};
ghost use Rattle.qs_stripe.specs.Table.{Fits as FitsStripe};
ghost use Rattle.qs_group.specs.Table.{Fits as FitsGroup};
ghost use Rattle.qs_graph.specs.Table.{Fits as FitsGraph};
ghost use Rattle.qs_tracker.specs.Table.{Fits as FitsTracker};
ghost use Rattle.qs_task.specs.Books.{IsOperation, notes};
ghost use Rattle.qs_shared.specs.Calling.{CallsGraph, CallsGroup, CallsPart, CallsStripe, CallsTracker};
ghost use Rattle.qs_shared.specs.Hall.{ClosesAll, IsSessionPass, OpensShared, RefusesDisks, geometry_at};
ghost use Rattle.qs_shared.specs.Passes.{FollowsAll, is_first_pass, own_book, passes_out};

use crate::closing::take_disks;
use crate::opening::{open_groups, open_stripes};
use crate::parts::{PartPasses, PartTurns, SessionPass, Shared};
use qs_bytes::{Memory, Name};
use qs_graph::graph::Graph;
use qs_image::open_fault;
use qs_outside::Disk;
use qs_part::graph::{GraphOp, GraphReply};
use qs_part::group::{GroupOp, GroupReply};
use qs_part::runs::{StripeAnswer, StripeCall};
use qs_part::stripe::{StripeOp, StripeReply};
use qs_part::tracker::{TrackerOp, TrackerReply};
use qs_request::{PartReply, Todo};
use qs_request_state::Shape;
use qs_status::OpenBad;
use qs_tracker::tracker::Tracker;
use qs_turn::turn::Turn;
use qs_turn_rows::rows::{call_at, close_all};
use std::alloc::Global;
use std::marker::PhantomData;
use std::sync::Wait;

impl<D: Disk + Drop> Shared<D> {
    /// The turns over the image that these disks hold. Its only error is refused memory.
    fn open(
        alloc: Global,
        mut disks: Vec<D>,
        file: Name,
        read_only: bool,
    ) -> Result<(Shared<D>, SessionPass<D>), Memory>
        requires { IsImage (map D.seen disks.items) }
        ensures { IfOk result (λ r. OpensShared D.seen disks.items file read_only r.0 r.1) }
    {
        let shape = Shape {
            align: disks[0].align(),
            size: disks[0].length(),
        };
        let (tracker, track) = Turn::new(alloc, Tracker::new(alloc, 0)?)?;
        let (graph, way) = Turn::new(alloc, Graph::new(alloc, shape.size, file, read_only)?)?;
        let (groups, waits) = open_groups(alloc)?;
        let stripe_room = Vec::with_capacity(alloc, disks.len())?;
        let (stripes, blocks) = open_stripes(alloc, &mut disks)?;
        let shared = PartTurns {
            shape,
            tracker,
            graph,
            groups,
            stripes,
            fixed: PhantomData,
        };
        let first = PartPasses {
            tracker: track,
            graph: way,
            groups: waits,
            stripes: blocks,
            stripe_room,
            disk_room: disks,
        };
        Ok((shared, first))
    }

    /// The turns over the image that the disks hold, with a file node of that name and no export, and the first pass,
    /// which has seen no call.
    ///
    /// The error is the first rule of an image that the disks break, or None for want of memory. Refused disks are
    /// dropped.
    pub fn new(
        alloc: Global,
        disks: Vec<D>,
        file: Name,
        read_only: bool,
    ) -> Result<(Shared<D>, SessionPass<D>), Option<OpenBad>>
        ensures { MatchResult result
            (λ r. OpensShared D.seen disks.items file read_only r.0 r.1)
            (RefusesDisks D.seen disks.items) }
    {
        match open_fault(&disks) {
            Some(bad) => return Err(Some(bad)),
            None => {}
        }
        match Shared::open(alloc, disks, file, read_only) {
            Ok(both) => Ok(both),
            Err(Memory) => Err(None),
        }
    }

    /// The image: the bytes of a block, and those of the whole.
    pub fn shape(&self) -> Shape
        ensures { result ≡ self.now.shape }
    {
        self.shape
    }

    /// Makes one call of the tracker. `request` is the caller's number for it, which stands in the history.
    ///
    /// Here and below: it may wait for the turn, takes no memory, and has no refusal of its own. After 2^63 - 1 calls
    /// of one turn the next one never returns.
    pub fn call_tracker<R: Wait>(
        &self,
        rt: &R,
        pass: &mut SessionPass<D>,
        request: u64,
        op: TrackerOp,
    ) -> TrackerReply
        requires of { IsSessionPass D.seen self.now pass.old }
        requires fits { FitsTracker op }
        ensures of { IsSessionPass D.seen self.now pass.new }
        ensures calls { CallsTracker self.now pass.old request op result pass.new }
        ensures later { FollowsAll pass.old pass.new }
    {
        self.tracker.call(rt, &mut pass.tracker, request, op)
    }

    /// Makes one call of the graph.
    pub fn call_graph<R: Wait>(
        &self,
        rt: &R,
        pass: &mut SessionPass<D>,
        request: u64,
        op: GraphOp,
    ) -> GraphReply
        requires of { IsSessionPass D.seen self.now pass.old }
        requires fits { FitsGraph self.now.shape.size op }
        ensures of { IsSessionPass D.seen self.now pass.new }
        ensures calls { CallsGraph self.now pass.old request op result pass.new }
        ensures later { FollowsAll pass.old pass.new }
    {
        self.graph.call(rt, &mut pass.graph, request, op)
    }

    /// Makes one call of the group at a place.
    pub fn call_group<R: Wait>(
        &self,
        rt: &R,
        pass: &mut SessionPass<D>,
        place: usize,
        request: u64,
        op: GroupOp,
    ) -> GroupReply
        requires of { IsSessionPass D.seen self.now pass.old }
        requires fits { (place < 16) × FitsGroup op }
        ensures of { IsSessionPass D.seen self.now pass.new }
        ensures calls { CallsGroup self.now pass.old place request op result pass.new }
        ensures later { FollowsAll pass.old pass.new }
    {
        call_at(rt, &self.groups, &mut pass.groups, place, request, op)
    }

    /// Makes one call of a stripe: a single operation, or a run of them.
    pub fn call_stripe<R: Wait>(
        &self,
        rt: &R,
        pass: &mut SessionPass<D>,
        stripe: usize,
        request: u64,
        call: StripeCall,
    ) -> StripeAnswer
        requires of { IsSessionPass D.seen self.now pass.old }
        requires fits { (stripe < 8) × FitsCall (geometry_at self.now.shape stripe) call }
        ensures of { IsSessionPass D.seen self.now pass.new }
        ensures calls { CallsStripe D.seen self.now pass.old stripe request call result pass.new }
        ensures later { FollowsAll pass.old pass.new }
    {
        call_at(rt, &self.stripes, &mut pass.stripes, stripe, request, call)
    }

    /// Does a single operation of a stripe.
    fn call_single<R: Wait>(
        &self,
        rt: &R,
        pass: &mut SessionPass<D>,
        stripe: usize,
        request: u64,
        op: StripeOp,
    ) -> StripeReply
        requires of { IsSessionPass D.seen self.now pass.old }
        requires fits { (stripe < 8) × FitsStripe (geometry_at self.now.shape stripe) op }
        ensures of { IsSessionPass D.seen self.now pass.new }
        ensures calls { CallsStripe D.seen self.now pass.old stripe request (OneCall op) (OneAnswer result) pass.new }
        ensures later { FollowsAll pass.old pass.new }
    {
        match self.call_stripe(rt, pass, stripe, request, StripeCall::One(op)) {
            StripeAnswer::One(reply) => reply,
            StripeAnswer::Run(_) => unreachable!(),
        }
    }

    /// Does an operation of a request on the part that it names.
    pub fn call<R: Wait>(
        &self,
        rt: &R,
        pass: &mut SessionPass<D>,
        request: u64,
        todo: Todo,
    ) -> PartReply
        requires of { IsSessionPass D.seen self.now pass.old }
        requires operation { IsOperation todo }
        requires fits { FitsPart self.now.shape todo }
        ensures of { IsSessionPass D.seen self.now pass.new }
        ensures calls { CallsPart D.seen self.now pass.old request todo result pass.new }
        ensures booked { own_book pass.new ≡ notes (call request todo result) (own_book pass.old) }
        ensures may { MayReplyTo self.now.shape todo result }
        ensures later { FollowsAll pass.old pass.new }
    {
        match todo {
            Todo::Tracker(op) => PartReply::Tracker(self.call_tracker(rt, pass, request, op)),
            Todo::Route { e } => {
                PartReply::Graph(self.call_graph(rt, pass, request, GraphOp::Route { e }))
            }
            Todo::Stripe(stripe, op) => {
                let place = usize::from(stripe);
                PartReply::Stripe(self.call_single(rt, pass, place, request, op))
            }
            Todo::Answer(_) => unreachable!(),
        }
    }

    /// Gives the disks, in their order, and the tracker back, once every other pass was joined into this one.
    ///
    /// It takes no memory.
    pub fn close(self, pass: SessionPass<D>) -> (Vec<D>, Tracker)
        requires of { IsSessionPass D.seen self pass }
        requires first { (is_first_pass pass ≡ true) × (passes_out pass ≡ 0) }
        ensures { ClosesAll D.seen self pass result.0.items result.1 }
    {
        let tracker = self.tracker.close(pass.tracker);
        let stripes = close_all(self.stripes, pass.stripes, pass.stripe_room);
        (take_disks(stripes, pass.disk_room), tracker)
    }
}
