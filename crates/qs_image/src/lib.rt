//! The image that eight disks hold: whether they are one, and reading and writing its bytes.
#![tactic(auto)]

mod access;
mod opening;

pub use access::{load_block, load_span, store_block, store_span};
pub use opening::open_fault;

#[cfg(test)]
mod tests;
