//! The threads that sleep until a turn is given back.
//!
//! Nothing is proved of waiting. Why no wake is lost:
//!
//! - A thread that found the turn taken puts the flag up, looks at the word once more, and lies down
//!   only where the turn is still taken. The kernel compares the flag and lays the thread down in one
//!   step, so it lies down only while the flag is up.
//! - Whoever gives the turn back writes the word first, and looks at the flag then. Where the flag is
//!   up, it takes it down and wakes one sleeper.
//! - Now let a thread lie down, and take the last time before that the flag was put up, by whichever
//!   thread. If a giver takes it down later, a wake follows, and finds this sleeper or another, who
//!   puts the flag up again before it looks. If none does, then none looks at the flag any more. But
//!   whoever put it up looked at the word afterwards. Where that was taken, its giver is still to
//!   look at the flag; where it was free, it or who was faster takes the turn, and is to look at the
//!   flag when it gives.
//!
//! The flag is a word of its own. Sleepers on the turn's word, beside a flag, would lose wakes: a
//! giver that took the flag down and is slow to wake would wake nobody, while the next thread lies
//! down with the flag down.
//!
//! The flag may stay up with nobody asleep, which costs one wake for nothing. Nothing is said of who
//! comes first.

use std::sync::Wait;
use std::sync::atomic::{AtomicU64, Ordering};

/// Whether threads may sleep until a turn is given back.
///
/// It lies between words that are never used, so that a change of it slows nobody who uses what
/// lies around.
#[derive(Drop)]
pub(crate) struct Sleepers {
    before: [u64; 8],
    flag: AtomicU64,
    after: [u64; 8],
}

impl Sleepers {
    /// Nobody sleeps.
    pub(crate) fn none() -> Sleepers {
        Sleepers {
            before: [0; 8],
            flag: AtomicU64::new(0),
            after: [0; 8],
        }
    }

    /// Says that a thread may sleep from now on.
    pub(crate) fn announce(&self) {
        self.flag.store(1, Ordering::SeqCst);
    }

    /// Sleeps, where nobody was woken since it was announced. It may return for no reason.
    pub(crate) fn sleep<R: Wait>(&self, rt: &R) {
        self.flag.park(rt, 1);
    }

    /// Wakes a thread, where one may sleep. Where none does it makes no system call.
    pub(crate) fn wake_one(&self) {
        if self.flag.load(Ordering::SeqCst) != 0 && self.flag.swap(0, Ordering::SeqCst) != 0 {
            self.flag.wake_one();
        }
    }
}
