//! Padded requests: which blocks a span covers in part, and how its bytes are merged into a block.
#![tactic(auto)]

pub mod padding;
pub mod planned;
#[cfg(test)]
mod tests;
