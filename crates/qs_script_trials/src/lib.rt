//! The worked lines of a script, tried: each kind of line, read and told in other words.
#![tactic(auto)]

#[cfg(test)]
mod tests;
