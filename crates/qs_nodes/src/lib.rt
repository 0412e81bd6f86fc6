//! The tree of nodes over the image, and the throttle groups that its nodes stand in.
#![tactic(auto)]

pub mod laws;
pub mod node;
pub mod nodes;
mod scan;
mod walk;
pub mod way;
