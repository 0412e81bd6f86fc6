//! Turns as the crates above use them: calls in a row, a part that is generic in its device, and
//! threads that call one turn of a tally, a tracker or a stripe.
#![tactic(auto)]

pub mod calls;
pub mod stripes;
pub mod tally;
#[cfg(test)]
mod tests;
pub mod threads;
