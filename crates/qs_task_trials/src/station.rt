ghost use Rattle.std.specs.Prelude.{◌≡◌, ◌+◌, ◌≤◌, ◌++◌, ◌∷◌, []};
ghost use Rattle.qs_task.specs.Books.{IsOperation};
ghost use Rattle.qs_task_trials.specs.Kept.{part_answer, kept_book, stripe_answer, tracker_answer};

use crate::copies::{todo_copy, wait_for_ever};
use qs_part::graph::{GraphReply, Route};
use qs_part::stripe::{StripeOp, StripeReply};
use qs_part::tracker::{TrackerOp, TrackerReply};
use qs_request::{PartReply, Todo};
use qs_request_state::Shape;
use qs_task::Station;
use std::alloc::Global;
use std::sync::Wait;

/// A call that was made.
#[derive(Debug, Drop)]
pub struct KeptCall {
    pub request: u64,
    pub todo: Todo,
    pub reply: PartReply,
}

/// A station that answers as parts on which nobody else works, and keeps its calls. So many of the first tries to
/// start are answered by NotYet.
#[derive(Debug, Drop)]
pub struct KeepingStation {
    pub alloc: Global,
    pub way: Route,
    pub busy: u64,
    pub kept: Vec<KeptCall>,
}

fn tracker_answer(busy: bool, op: TrackerOp) -> TrackerReply
    ensures { result ≡ tracker_answer busy op }
{
    match op {
        TrackerOp::Enter => TrackerReply::Entered(0),
        TrackerOp::List { .. } => TrackerReply::Listed(0),
        TrackerOp::Start { .. } if busy => TrackerReply::NotYet(0),
        TrackerOp::Start { .. } => TrackerReply::Started,
        TrackerOp::End { .. } => TrackerReply::Ended,
        _ => TrackerReply::Strange,
    }
}

fn stripe_answer(op: StripeOp) -> StripeReply
    ensures { result ≡ stripe_answer op }
{
    match op {
        StripeOp::Load { buf, .. } => StripeReply::Filled(buf),
        StripeOp::Hold { buf, .. } => StripeReply::Filled(buf),
        StripeOp::Store { buf, .. } => StripeReply::Done(buf),
        StripeOp::Free { .. } => StripeReply::Freed,
        StripeOp::Sync => StripeReply::Synced,
    }
}

/// How the parts answer.
pub fn answer(busy: bool, way: Route, todo: Todo) -> PartReply
    requires { IsOperation todo }
    ensures { result ≡ part_answer busy way todo }
{
    match todo {
        Todo::Tracker(op) => PartReply::Tracker(tracker_answer(busy, op)),
        Todo::Route { .. } => PartReply::Graph(GraphReply::Routed(way)),
        Todo::Stripe(_, op) => PartReply::Stripe(stripe_answer(op)),
        Todo::Answer(_) => unreachable!(),
    }
}

/// Keeps a call. Where memory is refused it waits for ever.
fn keep<R: Wait>(rt: &R, kept: &mut Vec<KeptCall>, call: KeptCall)
    ensures { kept.new.items ≡ kept.old.items ++ call ∷ [] }
{
    match kept.push(call) {
        Ok(()) => {}
        Err(_) => wait_for_ever(rt),
    }
}

fn is_start(todo: &Todo) -> bool {
    matches!(todo, Todo::Tracker(TrackerOp::Start { .. }))
}

impl Station for KeepingStation {
    type Hall = Shape;

    ghost book = { λ s. kept_book s.kept.items };

    ghost shape = { λ hall. hall };

    ghost is_of = { λ hall s. s.way.offset + s.way.size ≤ hall.size };

    ghost follows = { λ s t. Unit {0} };

    #[tactic(auto, using(crate::proofs::Keeping::kept_more, crate::proofs::Keeping::answer_may))]
    fn call<R: Wait>(&mut self, rt: &R, hall: &Shape, request: u64, todo: Todo) -> PartReply {
        let _hall = *hall;
        let busy = self.busy > 0;
        if busy && is_start(&todo) {
            self.busy -= 1;
        }
        let same = todo_copy(rt, self.alloc, &todo);
        let kept = todo_copy(rt, self.alloc, &todo);
        let reply = answer(busy, self.way, same);
        let call = KeptCall {
            request,
            todo: kept,
            reply,
        };
        keep(rt, &mut self.kept, call);
        answer(busy, self.way, todo)
    }

    ghost follows_self = { λ s. tt };

    ghost follows_on = { λ s t u a b. tt };
}
