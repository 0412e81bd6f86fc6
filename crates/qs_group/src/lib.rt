//! Throttle groups: requests of many members share the limits of one group, and take turns.
#![tactic(auto)]

pub mod budget;
pub mod group;
pub mod laws;
pub mod queue;
pub mod turns;
