//! Histories as values: what happened to one byte of the image, and what happened to one block.
#![tactic(auto)]

mod block;
mod cell;

pub use block::BlockEntry;
pub use cell::{CellEntry, legal_cell};
