//! The handshake phase of a session, driven by readiness: it greets, reads a client's options from a wire and answers them
//! by what the graph tells, turn by turn, without waiting for the wire, up to where requests follow or the session ends.
#![tactic(auto)]

mod answering;
mod asking;
mod end;
pub mod laws;
mod phase;
mod turns;

pub use end::HandshakeEnd;
pub use phase::HandshakePhase;
