//! The worked rows of polled requests, tried over a station that keeps its calls.
#![tactic(auto)]

pub mod copies;
pub mod station;
#[cfg(test)]
mod tests;
