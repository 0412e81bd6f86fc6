//! A wire with the bytes that were read of it and wait, and those that wait to be written. No call waits. Sessions that
//! are driven by readiness stand on it, whatever their protocol.
#![tactic(auto)]

mod gathered;
pub mod laws;
mod patient;
mod stream;
mod window;

pub use gathered::Sending;
pub use patient::PatientLink;
pub use stream::WireStream;

#[cfg(test)]
mod tests;
