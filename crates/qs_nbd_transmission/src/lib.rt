//! The transmission phase of NBD: requests read from pieces of any size, and the heads of their
//! replies. Nothing here takes memory.
#![tactic(auto)]

mod event;
mod head;
pub mod laws;
mod reader;
mod reply;
mod stage;

pub use event::{Room, WireEvent, awaits_data};
pub use reader::Transmission;
pub use reply::{ReplyHead, data_head, reply_head};

#[cfg(test)]
mod tests;
