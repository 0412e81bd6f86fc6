//! The words of the daemon: option words in the form of QEMU's storage daemon, read from the left.
#![tactic(auto)]

pub mod laws;
mod reading;
mod told;
mod values;
mod words;

pub use told::{DaemonWords, ImageFile, Listen, Text, WordCommand, WordCommands, WordFault};
pub use words::daemon_words;

#[cfg(test)]
mod tests;
