//! That turns may be shared among threads and passes sent to one, for every part that may be sent.
//!
//! It is asked here, so that a change that breaks it fails in this crate and not where threads are
//! started.

use crate::turn::{Pass, Turn};
use qs_part::part::Part;

fn is_shared<T: Sync>(_value: &T) {}

fn is_sent<T: Send>(_value: &T) {}

/// Nothing happens; the types of both are such that threads may have them.
pub fn cross_threads<P>(turn: &Turn<P>, pass: &Pass<P>)
where
    P: Part + Send,
    P::Op: Send,
    P::Reply: Send,
{
    is_shared(turn);
    is_sent(turn);
    is_sent(pass);
}
