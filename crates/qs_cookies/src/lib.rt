//! The cookies that a script's sessions used, kept as runs.
#![tactic(auto)]

mod used;

pub use used::UsedCookies;

#[cfg(test)]
mod tests;
