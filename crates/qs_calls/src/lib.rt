//! What happened to the core, one call after the other, as a run of its model; a core over disks with one
//! export; and the steps of one actor, up to the last one that it can make now.
#![tactic(auto)]

mod blocks;
mod open;
mod run;

pub use blocks::run_blocks;
pub use open::open_core;
pub use run::{StepsMade, run_counted, run_out};
