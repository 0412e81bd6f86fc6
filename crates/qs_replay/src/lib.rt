//! A script of events against the core: its lines are read, each makes its events, and what came of
//! them is printed.
#![tactic(auto)]

mod disks;
mod lines;
mod replay;
mod run;

pub use disks::memory_disks;
pub use run::{replay_disks, run_replay};

#[cfg(test)]
mod tests;
