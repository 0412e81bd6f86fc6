//! The messages of NBD as bytes: the greeting, options and what answers them (NBD proto.md, "Fixed
//! newstyle negotiation"), and a client's requests ("Request message").
#![tactic(auto)]

mod export;
pub mod laws;
mod opening;
mod option;
mod reply;
mod request;

pub use export::{ExportInfo2, flags_told, put_export_answer};
pub use opening::{ClientFlags, client_flags, greeting};
pub use option::{OPTION_HEAD_BYTES, OPTION_MAGIC, OptionHead, option_head};
pub use reply::{OptionError, OptionReply, put_option_reply, put_reply};
pub use request::{
    DF, DISC, FLUSH, FUA, NO_HOLE, READ, REQUEST_HEAD_BYTES, REQUEST_MAGIC, RequestHead, TRIM,
    WRITE, WRITE_ZEROES, request_head,
};

#[cfg(test)]
mod tests;
