//! The users of nodes: what each takes of its node and shares with the others, and the first two on a
//! way down that conflict.
#![tactic(auto)]

mod perms;
mod users;

pub use perms::perms_at;
pub use users::Users;
