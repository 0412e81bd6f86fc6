//! The transmission phase of a session, driven by readiness: it reads requests from a wire, polls up to sixteen of them
//! at once over a station, and writes their replies, turn by turn, without waiting for the wire.
#![tactic(auto)]

mod listen;
mod phase;
mod polls;
mod replies;
mod requests;
mod serve;
mod spare;
mod turns;

pub use phase::TransmissionPhase;
