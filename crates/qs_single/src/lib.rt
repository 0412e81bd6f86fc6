//! One client's requests over the core, one after the other: its session is attached, each request is
//! asked, and its steps are done up to its answer. It is the plain service over the whole image.
#![tactic(auto)]

mod asking;
mod joining;

pub use asking::answer;
pub use joining::{attach, attach_by};
