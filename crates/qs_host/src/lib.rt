//! What programs share of their host: the words behind a program's name, standard streams and files as
//! the objects outside, and the exit status that stands for the end of a run.
#![tactic(auto)]

mod command;
mod exit;
mod faults;
mod file_disk;
mod file_syncs;
mod image;
mod retry;
mod start_fault;
mod streams;
mod sync_log;
mod telling;
#[cfg(test)]
mod tests;

pub use command::{About, asked, words};
pub use exit::exit_of;
pub use faults::Faults;
pub use file_disk::{FileDisk, file_disks};
pub use image::FileKind;
pub use retry::{read_on, write_on};
pub use start_fault::{StartFault, Unfit};
pub use streams::{Reading, Writing};
pub use sync_log::{SyncLog, SyncNeed};
pub use telling::{BrokenRule, Ended, report, tell};
