//! A byte stream with two sides: bytes that were read and wait, bytes that wait to be written, and
//! whether a side failed. Sessions of every protocol stand on it.
#![tactic(auto)]

mod inbox;
mod outbox;
mod state;
mod stream;

pub use state::State;
pub use stream::Stream;

#[cfg(test)]
mod tests;
