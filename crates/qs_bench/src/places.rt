//! The order in which a thread wanders over a row of locks: the same in each run, and another for
//! each thread.

/// A place in a row.
#[derive(Clone, Copy, Debug)]
pub struct Place {
    state: u64,
}

/// Where the thread of this number begins.
pub fn first_place(thread: u64) -> Place {
    Place { state: thread }.next().next()
}

impl Place {
    /// The next place, by Knuth's linear congruential generator for 64 bits.
    pub fn next(self) -> Place {
        let state = self
            .state
            .wrapping_mul(6364136223846793005)
            .wrapping_add(1442695040888963407);
        Place { state }
    }

    /// The place in a row that is so long; 0 in an empty row.
    pub fn of(self, long: usize) -> usize {
        if long == 0 {
            0
        } else {
            (self.state >> 33) as usize % long
        }
    }
}
