//! The replay script's lines: cut out of the pieces of a source, read, and printed.
#![tactic(auto)]

mod actor;
mod cutter;
mod data;
mod find;
pub mod laws;
mod line;
pub mod number;
mod picks;
mod print;
mod read;
mod session_name;

pub use actor::{ScriptActor, actor_of};
pub use cutter::{Cut, LineCutter};
pub use line::{Line, LineFault};
pub use print::{SessionNews, put_answer, put_session, put_step};
pub use read::{is_quiet, read_line};
pub use session_name::SessionName;

#[cfg(test)]
mod tests;
