//! The trait of the daemon's parts, the operations and replies of each part, and the events and
//! outcomes of the core.
#![tactic(auto)]

pub mod event;
pub mod graph;
pub mod group;
pub mod limits;
pub mod part;
pub mod runs;
pub mod stripe;
pub mod table;
pub mod tracker;
