use qs_status::SessionEnd;
use qs_task::Need;

/// What a session that can't go on waits for.
#[derive(Clone, Copy, Debug, PartialEq, Eq)]
pub enum Awaited {
    /// Its wire.
    Wire,
    /// This part, for which one of its requests has to wait.
    Part(Need),
}

/// How a turn of a session ended.
#[derive(Clone, Copy, Debug, PartialEq, Eq)]
pub enum SessionTurn {
    /// It can't go on before this changes.
    Pending(Awaited),
    /// The session has ended so.
    Ended(SessionEnd),
}
