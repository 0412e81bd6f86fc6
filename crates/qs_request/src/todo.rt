use qs_bytes::Verdict;
use qs_part::graph::GraphReply;
use qs_part::stripe::{StripeOp, StripeReply};
use qs_part::tracker::{TrackerOp, TrackerReply};

/// What a request does next: an operation of a part, or its answer.
#[derive(Debug, Drop)]
pub enum Todo {
    /// An operation of the tracker of requests.
    Tracker(TrackerOp),
    /// The graph's operation Route, for the export at place `e`.
    Route { e: u8 },
    /// An operation of the stripe with this number.
    Stripe(u8, StripeOp),
    /// The request is answered so. Nothing more is asked of it.
    Answer(Verdict),
}

/// What the part answered to the operation that a request did.
#[derive(Debug, Drop)]
pub enum PartReply {
    Tracker(TrackerReply),
    Graph(GraphReply),
    Stripe(StripeReply),
}
