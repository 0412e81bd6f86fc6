//! The worked rows of a request's machine, tried: the operations of each kind of request, one by one.
#![tactic(auto)]

#[cfg(test)]
mod tests;
