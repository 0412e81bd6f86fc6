//! A pool in which links wait for workers. What is proved of it: a link that was put is taken at most once,
//! and first in first out.
#![tactic(auto)]

mod crossing;
mod ledger;
mod pool;
mod rule;
#[cfg(test)]
mod tests;

pub use crossing::cross_threads;
pub use pool::{Pool, PoolPass, ROOM};
