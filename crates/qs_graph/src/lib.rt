//! The graph of nodes and exports: one node over the image, and up to 64 exports over it.
#![tactic(auto)]

pub mod export;
pub mod graph;
pub mod laws;
mod places;
