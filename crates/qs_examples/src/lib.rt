//! Worked runs of the core's model: a READ, a WRITE that a disk fails, a request whose session leaves, one
//! that is refused, a FLUSH, a WRITE_ZEROES with FUA, and a TRIM that may not be.
//!
//! The runs stand in `specs/`; the functions of this crate do nothing: their contracts say what comes of
//! each run.
#![tactic(auto)]

pub mod laws;
