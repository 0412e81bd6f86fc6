//! Option words of the daemon, as QEMU's storage daemon takes them: `key=value` items parted by
//! commas, or one JSON object.
#![tactic(auto)]

mod cutting;
mod fault;
mod key;
pub mod laws;
mod nesting;
mod word;

pub use fault::KeyvalFault;
pub use word::read_word;

#[cfg(test)]
mod tests;
