//! Laws of crashes over the core's model: nothing on the disks is older than an acknowledged flush.
//!
//! The definitions stand in `specs/`; the functions of this crate do nothing, their contracts are the laws.
#![tactic(auto)]

pub mod laws;
