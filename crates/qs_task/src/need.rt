ghost use Rattle.std.specs.Prelude.{◌≡◌};
ghost use Rattle.qs_task.specs.Walks.{is_wait, part_of, stripe_waits, tracker_waits};

use qs_bytes::Verdict;
use qs_part::stripe::StripeReply;
use qs_part::tracker::TrackerReply;
use qs_request::{PartReply, Todo};

/// The part for which a request has to wait.
#[derive(Clone, Copy, Debug, PartialEq, Eq)]
pub enum Need {
    Tracker,
    /// The stripe with this number.
    Stripe(u8),
}

/// How a poll of a request ended.
#[derive(Debug, Drop)]
pub enum Polled {
    /// The request is answered so.
    Ready(Verdict),
    /// It can't go on before this part answers otherwise.
    Pending(Need),
}

/// The part of an operation for which a request may have to wait. None for the graph, which never lets a request
/// wait, and for an answer.
pub(crate) fn part_of(todo: &Todo) -> Option<Need>
    ensures { result ≡ part_of todo.now }
{
    match todo {
        Todo::Tracker(_) => Some(Need::Tracker),
        Todo::Stripe(s, _) => Some(Need::Stripe(*s)),
        _ => None,
    }
}

fn tracker_waits(reply: &TrackerReply) -> bool
    ensures { result ≡ tracker_waits reply.now }
{
    matches!(
        reply,
        TrackerReply::Quiesced
            | TrackerReply::Full
            | TrackerReply::NotYet(_)
            | TrackerReply::Strange
    )
}

fn stripe_waits(reply: &StripeReply) -> bool
    ensures { result ≡ stripe_waits reply.now }
{
    matches!(
        reply,
        StripeReply::HeldBy(..) | StripeReply::Taken(..) | StripeReply::NotHeld
    )
}

/// Whether an answer leaves a request where it is.
pub(crate) fn is_wait(reply: &PartReply) -> bool
    ensures { result ≡ is_wait reply.now }
{
    match reply {
        PartReply::Tracker(reply) => tracker_waits(reply),
        PartReply::Stripe(reply) => stripe_waits(reply),
        PartReply::Graph(_) => false,
    }
}
