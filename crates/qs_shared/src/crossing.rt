//! That the turns may be shared among threads and a session's pass sent to one, for every disk that may be sent.
//!
//! It is asked here, so that a change that breaks it fails in this crate and not where threads are started.

use crate::parts::{SessionPass, Shared};
use qs_outside::Disk;

fn is_shared<T: Sync>(_value: &T) {}

fn is_sent<T: Send>(_value: &T) {}

/// Nothing happens; the types of both are such that threads may have them.
pub fn cross_sessions<D: Disk + Drop + Send>(shared: &Shared<D>, pass: &SessionPass<D>) {
    is_shared(shared);
    is_sent(shared);
    is_sent(pass);
}
