//! Stripes of the image: each has its disk, and the blocks that requests hold while they write a
//! part of them.
#![tactic(auto)]

pub mod geometry;
pub mod holds;
pub mod laws;
mod run_holds;
pub mod run_laws;
pub mod stripe;
