//! The tracker of requests in flight: 256 places, and the order in which conflicting requests go.
#![tactic(auto)]

pub mod laws;
mod places;
pub mod seat;
pub mod tracker;
