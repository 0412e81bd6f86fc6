//! JSON objects cut from a stream of bytes, as QMP sends them. The bytes come in pieces of any size.
#![tactic(auto)]

mod framer;
pub mod laws;
mod place;
mod stage;

pub use framer::Framer;
pub use stage::FrameEvent;

#[cfg(test)]
mod tests;
