//! The core over many sessions: sessions that come and go, their requests, and the parts that these do
//! their operations on, one operation of one actor at a time.
#![tactic(auto)]

mod asking;
mod crash;
mod disks;
mod inner;
pub mod live;
mod notes;
mod running;
mod spare;
#[cfg(test)]
mod tests;
pub mod world;
mod zeros;
