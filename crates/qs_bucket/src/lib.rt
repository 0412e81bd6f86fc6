//! Leaky buckets: levels that leak at a rate, and the requests that they let go.
#![tactic(auto)]

pub mod bucket;
pub mod laws;
mod level;
