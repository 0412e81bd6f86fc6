//! Rows of turns of one kind, each with a row of passes beside it, one for each turn.
#![tactic(auto)]

pub mod rows;
