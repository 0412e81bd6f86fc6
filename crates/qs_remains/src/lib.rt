//! What a crash may leave of the bytes behind a request that is alone: asked where no request is live, and followed
//! by its own steps only.
//!
//! The definitions stand in `specs/`; the functions of this crate do nothing, their contracts are the laws.
#![tactic(auto)]

pub mod laws;
