use qs_command::Command;
use serde_json::Value;

/// What a message asks for.
#[derive(Clone, Copy, Debug, PartialEq, Eq)]
pub enum QmpCommand {
    /// The end of the negotiation.
    Capabilities,
    Job(Command),
}

/// A message that was read: what it asks for, and its id.
#[derive(Debug, Drop)]
pub struct QmpAsked {
    pub command: QmpCommand,
    pub id: Option<Value>,
}
