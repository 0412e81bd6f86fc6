//! A line of a script against the core: the calls that it makes, what it prints, and the names after it.
#![tactic(auto)]

mod desk;
mod play;
mod stop;
mod table;
mod told;

pub use desk::{Desk, Found, actor_for, happen};
pub use stop::Stop;
pub use table::Table;
pub use told::LineTold;
