//! Sockets of the host as the objects outside: connections as wires and as links, and what clients connect
//! to.
#![tactic(auto)]

mod acceptors;
mod bind_fault;
mod old_file;
mod socket;
#[cfg(test)]
mod tests;

pub use acceptors::{TcpAcceptor, UnixAcceptor};
pub use bind_fault::BindFault;
pub use socket::Socket;
