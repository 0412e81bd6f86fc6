//! What lies outside, tried: disks, streams and clocks in memory, and what their traits say of them.
#![tactic(auto)]

#[cfg(test)]
mod tests;
