//! A replay is a function of its script and of what its disks held: the law of two replays side by side.
#![tactic(auto)]

pub mod laws;
