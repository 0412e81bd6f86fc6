ghost use Rattle.std.specs.Prelude.{◌≡◌};
ghost use Rattle.qs_world.specs.Notes.{detach_note, note_place, route_note, short, stripe_kind, stripe_note, tracker_kind, tracker_note};

use qs_part::event::{GraphNote, Note, NoteReply, OpKind, StripeNote};
use qs_part::graph::GraphReply;
use qs_part::stripe::{StripeOp, StripeReply};
use qs_part::tracker::{TrackerOp, TrackerReply};

/// The kind of an operation that a request does on the tracker.
pub fn tracker_kind(op: &TrackerOp) -> OpKind
    ensures { result ≡ tracker_kind op.now }
{
    match op {
        TrackerOp::Enter => OpKind::Enter,
        TrackerOp::List { .. } => OpKind::List,
        TrackerOp::Start { .. } => OpKind::Start,
        _ => OpKind::End,
    }
}

/// The note of an operation of this kind on the tracker.
pub fn tracker_note(kind: OpKind, reply: TrackerReply) -> Note
    ensures { result ≡ tracker_note kind reply }
{
    Note {
        kind,
        at: None,
        reply: NoteReply::Tracker(reply),
    }
}

/// The note of a Route.
pub fn route_note(reply: &GraphReply) -> Note
    ensures { result ≡ route_note reply.now }
{
    let answer = match reply {
        GraphReply::Routed(way) => GraphNote::Routed(*way),
        _ => GraphNote::Shutting,
    };
    Note {
        kind: OpKind::Route,
        at: None,
        reply: NoteReply::Graph(answer),
    }
}

/// The kind of an operation on stripe `s`, and its block, or the stripe where it is on no block.
pub fn stripe_kind(s: u8, op: &StripeOp) -> (OpKind, u64)
    ensures kind { result.0 ≡ stripe_kind op.now }
    ensures place { result.1 ≡ note_place s op.now }
{
    match op {
        StripeOp::Load { b, .. } => (OpKind::Load, *b),
        StripeOp::Hold { b, .. } => (OpKind::Hold, *b),
        StripeOp::Store { b, .. } => (OpKind::Store, *b),
        StripeOp::Free { b, .. } => (OpKind::Free, *b),
        StripeOp::Sync => (OpKind::Sync, u64::from(s)),
    }
}

/// A stripe's answer without its buffer.
fn short(reply: &StripeReply) -> StripeNote
    ensures { result ≡ short reply.now }
{
    match reply {
        StripeReply::Filled(_) => StripeNote::Filled,
        StripeReply::Fault(_) => StripeNote::Fault,
        StripeReply::HeldBy(j, _) => StripeNote::HeldBy(*j),
        StripeReply::Taken(b, _) => StripeNote::Taken(*b),
        StripeReply::Done(_) => StripeNote::Done,
        StripeReply::Freed => StripeNote::Freed,
        StripeReply::NotHeld => StripeNote::NotHeld,
        StripeReply::Clean => StripeNote::Clean,
        StripeReply::Synced => StripeNote::Synced,
    }
}

/// The note of an operation of this kind, on this block or stripe.
pub fn stripe_note(kind: OpKind, at: u64, reply: &StripeReply) -> Note
    ensures { result ≡ stripe_note kind at reply.now }
{
    Note {
        kind,
        at: Some(at),
        reply: NoteReply::Stripe(short(reply)),
    }
}

/// The note of a Detach.
pub fn detach_note(reply: &GraphReply) -> Note
    ensures { result ≡ detach_note reply.now }
{
    let answer = match reply {
        GraphReply::Detached => GraphNote::Detached,
        _ => GraphNote::NotAttached,
    };
    Note {
        kind: OpKind::Detach,
        at: None,
        reply: NoteReply::Graph(answer),
    }
}
