//! The opening of a client's session over a byte stream: the server greets, answers the client's options by
//! what the core's exports are, and attaches the session, up to where requests follow or the session ends.
#![tactic(auto)]

mod answer;
mod event;
mod laws;
mod opening;
mod telling;
mod turn;

pub use laws::whole_handshakes;
pub use opening::open_session;
pub use turn::Opened;

#[cfg(test)]
mod tests;
