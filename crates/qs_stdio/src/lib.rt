//! One client on standard input and output: its options are answered by what the core exports, and its
//! requests in order by the core, over the image that eight disks hold.
#![tactic(auto)]

mod answer;
mod event;
mod run;
mod serve;
mod session;

pub use run::{run_stdio, serve_client, serve_stream};

#[cfg(test)]
mod plain;
#[cfg(test)]
mod tests;
