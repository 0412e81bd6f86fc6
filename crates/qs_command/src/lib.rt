//! Commands of a management tool: what each asks for, and how one ended.
#![tactic(auto)]

mod checked;
mod command;
mod end;

pub use checked::CheckedLimits;
pub use command::Command;
pub use end::{JobEnd, Refusal};
pub use qs_part::table::{Driver, ExportRow, NodeRow, ROWS, Table};

#[cfg(test)]
mod tests;
