//! The transmission phase of a session, as a value and the events that change it; from where it calls the graph; and
//! how a turn of it ends.
#![tactic(auto)]

pub mod laws;
pub mod station;
pub mod turned;

pub use station::SessionStation;
pub use turned::{Awaited, SessionTurn};
