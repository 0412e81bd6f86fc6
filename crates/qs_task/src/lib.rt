//! A session's requests over the parts of the daemon, polled by hand: a station that makes their calls and keeps a
//! book of them, and tasks that do a request's operations until it has its answer or has to wait.
#![tactic(auto)]

pub mod crew;
pub mod laws;
pub mod need;
pub mod station;
pub mod task;

pub use crew::{Crew, CrewPoll, MOST};
pub use need::{Need, Polled};
pub use station::Station;
pub use task::{RequestTask, poll_alone};
