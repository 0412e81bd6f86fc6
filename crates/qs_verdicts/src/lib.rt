//! Laws that judge the core's model: each answer by the table of replies, each step and byte a client's
//! own, and what holds at every position of a run.
//!
//! The definitions stand in `specs/`; the functions of this crate do nothing, their contracts are the laws.
#![tactic(auto)]

pub mod laws;
