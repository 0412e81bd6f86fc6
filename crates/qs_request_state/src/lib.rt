//! What a client's request is made of: what its kind wants, how far it is, the blocks that it works in
//! with the pads that its holds gave, and what a block is stored with.
#![tactic(auto)]

mod content;
mod kinds;
mod pads;
mod shape;
mod stage;
mod stripes;

pub use content::{cleared, merged};
pub use kinds::{
    brings_bytes, is_flush, is_form_error, is_known, is_read, is_trim, stores_bytes, wants_writable,
};
pub use pads::PadBuffer;
pub use shape::{Blocks, Shape};
pub use stage::{Ending, Stage, Step};
pub use stripes::touches;
