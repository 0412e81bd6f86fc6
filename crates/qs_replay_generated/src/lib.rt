//! A made-up run against the core: its lines are made from a seed, each makes its events, and what all of
//! it comes to is counted.
#![tactic(auto)]

mod change;
mod counts;
mod making;
mod sum;
mod whole;

pub use change::{Change, change_of};
pub use counts::Counts;
pub use making::make_run;
pub use sum::sum_of_disks;
pub use whole::generate_disks;
