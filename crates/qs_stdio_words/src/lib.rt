//! The words of the command that serves one client on standard streams.
#![tactic(auto)]

mod words;

pub use words::{Expected, Reading, StdioWords, stdio_words};

#[cfg(test)]
mod tests;
