//! A step of the core's model is fixed by what comes from outside: the law of two runs side by side.
//!
//! The definitions stand in `specs/`; the function of this crate does nothing, its contract is the law.
#![tactic(auto)]

pub mod laws;
