//! The handshake of NBD as the server has it: the client's flags and options read from pieces of
//! any size, and what answers them (NBD proto.md, "Fixed newstyle negotiation").
#![tactic(auto)]

mod answer;
mod event;
mod handshake;
mod inquiry;
pub mod laws;
mod stage;
mod wish;

pub use event::{HandEvent, HandStep, Told, Want};
pub use handshake::Handshake;

#[cfg(test)]
mod tests;
