//! QMP, the protocol of a management tool: the answers to its messages, and the event.
#![tactic(auto)]

pub mod laws;
mod texts;
mod write;

pub use write::{write_end, write_fault};

#[cfg(test)]
mod tests;
