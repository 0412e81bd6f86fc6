//! QMP, the protocol of a management tool: its messages read into commands.
#![tactic(auto)]

mod asked;
mod fault;
mod floats;
mod read;

pub use asked::{QmpAsked, QmpCommand};
pub use fault::QmpFault;
pub use qs_qmp_arguments::Class;
pub use read::{read_command, read_message};
