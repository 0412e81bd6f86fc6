//! The words of the command that replays scripts.
#![tactic(auto)]

pub mod laws;
mod words;

pub use words::{Expected, Reading, ReplayWords, replay_words};

#[cfg(test)]
mod tests;
