//! What the events of a transmission phase tell of its requests, its bytes and its end: a law of every list of them.
#![tactic(auto)]

pub mod laws;
