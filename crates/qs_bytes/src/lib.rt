//! Numbers in bytes, buffers, names, spans, and the words that a client's request and its answer
//! are made of. Everything else in the repository stands on this crate.
#![tactic(auto)]

mod ask;
mod buffer;
mod fed;
mod geometry;
mod memory;
mod name;
mod numbers;
mod pieces;
mod span;

pub use ask::{Ask, Errno, Kind, MAX_PAYLOAD, Mode, Verdict};
pub use buffer::Bytes;
pub use fed::Fed;
pub use geometry::{STRIPES, stripe_of};
pub use memory::Memory;
pub use name::{Name, NameList};
pub use numbers::{be16, be32, be64, put16, put32, put64, u16_at, u32_at, u64_at};
pub use pieces::{write_into, write_over};
pub use span::Span;

#[cfg(test)]
mod tests;
