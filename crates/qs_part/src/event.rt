use crate::graph::{ExportInfo, Route};
use crate::tracker::TrackerReply;
use qs_bytes::{Ask, Bytes, Name, Verdict};

/// Who does the next step: a session that has left, or a request by its number.
#[derive(Clone, Copy, Debug, PartialEq, Eq)]
pub enum Actor {
    Session(u32),
    Request(u64),
}

/// What happens to the core. `now` is the clock's reading in nanoseconds.
#[derive(Debug, Drop)]
pub enum Event {
    /// A session begins, at the export of that name.
    Attach {
        session: u32,
        name: Name,
    },
    /// A session leaves; its requests are abandoned.
    Leave {
        session: u32,
    },
    /// A session asks for something. The body is a WRITE's bytes or a READ's buffer.
    Ask {
        session: u32,
        ask: Ask,
        body: Option<Bytes>,
    },
    /// An actor does its next operation.
    Step {
        actor: Actor,
        now: u64,
    },
}

/// The kinds of operations.
#[derive(Clone, Copy, Debug, PartialEq, Eq)]
pub enum OpKind {
    Enter,
    List,
    Start,
    End,
    Load,
    Hold,
    Store,
    Free,
    Sync,
    Detach,
    Route,
}

/// A stripe's answer without its buffer.
#[derive(Clone, Copy, Debug, PartialEq, Eq)]
pub enum StripeNote {
    Filled,
    Fault,
    HeldBy(u8),
    Taken(u64),
    Done,
    Freed,
    NotHeld,
    Clean,
    Synced,
}

/// What the graph answers to a request or to a session that has left.
#[derive(Clone, Copy, Debug, PartialEq, Eq)]
pub enum GraphNote {
    NotAttached,
    Detached,
    Shutting,
    Routed(Route),
}

/// A part's answer without buffers and tables.
#[derive(Debug, PartialEq, Eq, Drop)]
pub enum NoteReply {
    Tracker(TrackerReply),
    Graph(GraphNote),
    Stripe(StripeNote),
}

/// One operation and its answer; `at` is the block of Load, Hold, Store and Free, and the stripe of Sync.
#[derive(Debug, PartialEq, Eq, Drop)]
pub struct Note {
    pub kind: OpKind,
    pub at: Option<u64>,
    pub reply: NoteReply,
}

/// What the core answers to an event.
#[derive(Debug, Drop)]
pub enum Outcome {
    /// Attach: the session is live.
    Attached(ExportInfo),
    /// Attach: no export of that name stands.
    NoExport,
    /// Attach: the export has 1,024 clients.
    Crowded,
    /// Leave: the session has left.
    Left,
    /// Ask: the number of the request.
    Made(u64),
    /// Step: the operation and its answer.
    Moved(Note),
    /// Step: the request's verdict, and the operation that the step did, if it did one.
    Answered(Verdict, Option<Note>),
    /// The event can't come now, and changed nothing.
    NotNext,
    /// Memory was refused, and nothing changed.
    Memory,
}
