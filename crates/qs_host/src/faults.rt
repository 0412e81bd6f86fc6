ghost use Rattle.std.specs.Prelude.{◌≡◌, ◌≤◌, None, Some};
ghost use Rattle.qs_outside.specs.Faults.{Rose};
ghost use Rattle.qs_outside.specs.Streams.{next_count};

use qs_outside::Failed;
use std::io;

/// How many calls of a file or a stream have failed, and the reason of the last that did. The count stands
/// still at 2^64 - 1.
#[derive(Debug, Drop)]
pub struct Faults {
    count: u64,
    last: Option<io::Error>,
}

impl Faults {
    /// No call was made yet.
    pub fn new() -> Faults
        ensures count { result.count ≡ 0 }
        ensures last { result.last ≡ None }
    {
        Faults {
            count: 0,
            last: None,
        }
    }

    /// Counts a failed call.
    pub fn note(&mut self, reason: io::Error) -> Failed
        ensures counted { self.new.count ≡ next_count self.old.count }
        ensures last { self.new.last ≡ Some reason }
        ensures rose { Rose self.old.count self.new.count }
        ensures later { self.old.count ≤ self.new.count }
    {
        self.count = self.count.saturating_add(1);
        self.last = Some(reason);
        Failed
    }

    /// Why the last call failed that did.
    pub fn reason(&self) -> Option<io::Error>
        ensures { result ≡ self.now.last }
    {
        self.last
    }
}
