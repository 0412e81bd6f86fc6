//! What users of a node take of it and share with each other, after QEMU's block.c.
#![tactic(auto)]

mod perms;
mod users;

pub use perms::Perms;
pub use users::{UserPerms, check, join_all};
