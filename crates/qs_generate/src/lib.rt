//! A made-up run of the replay program: what its rounds draw from a seed, line by line.
#![tactic(auto)]

mod draws;
pub mod laws;
mod live;
mod request;
mod run;
mod totals;

pub use draws::{Draws, RoundDraws};
pub use live::{LiveRequest, NextMove};
pub use request::{Wanted, request_line};
pub use run::GeneratedRun;
pub use totals::{RunTotals, add_weighted, put_totals};

#[cfg(test)]
mod tests;
