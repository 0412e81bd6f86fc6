//! The exports of a daemon: which stand, by which names, over which nodes, and how many clients each has.
#![tactic(auto)]

mod export;
mod exports;
pub mod laws;

pub use export::{Export, NewExport, Refused};
pub use exports::{Exports, MOST_CLIENTS, PLACES};
