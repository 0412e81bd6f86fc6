//! The phases of a session, tried over a station that answers from a table and keeps its calls.
#![tactic(auto)]

pub mod drive;
#[cfg(test)]
mod handshake_tests;
pub mod station;
#[cfg(test)]
mod tests;
