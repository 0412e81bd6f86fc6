//! The machine of one request: which operation a client's READ, WRITE, WRITE_ZEROES, TRIM or FLUSH
//! does next on a part of the daemon, and what the part's answer makes of it.
#![tactic(auto)]

pub mod laws;
mod machine;
mod making;
mod moves;
mod replies;
pub mod req;
pub mod run_laws;
mod runs;
pub mod todo;
mod whole_run;

pub use req::Req;
pub use todo::{PartReply, Todo};
pub use whole_run::WholeRun;
