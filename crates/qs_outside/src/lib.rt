//! What lies outside: streams, disks and clocks as traits, each with the meanings that proofs
//! speak of, and objects in memory that tell all of them.
#![tactic(auto)]

mod block_store;
mod calls;
mod clock;
mod crash;
mod disk;
mod failed_at;
mod mem_clock;
mod mem_disk;
mod mem_sink;
mod mem_source;
mod quiet_disk;
mod rigged_disk;
mod store_log;
mod stream;

pub use clock::Clock;
pub use crash::{CrashChoice, Picks};
pub use disk::Disk;
pub use failed_at::FailedAt;
pub use mem_clock::MemClock;
pub use mem_disk::MemDisk;
pub use mem_sink::MemSink;
pub use mem_source::MemSource;
pub use quiet_disk::QuietDisk;
pub use rigged_disk::{Fail, Plans, RiggedDisk};
pub use stream::{Failed, Sink, Source};
