//! The parts of the daemon behind turns, shared by the sessions of many threads, and the passes with which a session
//! calls them.
#![tactic(auto)]

mod closing;
pub mod crossing;
mod opening;
pub mod parts;
pub mod passes;
pub mod shared;
pub mod station;
#[cfg(test)]
mod tests;

pub use parts::{GROUPS, PartPasses, PartTurns, SessionPass, Shared};
