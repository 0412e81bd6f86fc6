//! How a program's run ended, how a session did, and why disks are no image.
#![tactic(auto)]

mod status;

pub use status::{OpenBad, SessionEnd, Status};
