//! What the handles of one file know together of its syncs.
ghost use Rattle.std.specs.Prelude.{◌≡◌, ◌<◌, false, List, []};
ghost use Rattle.qs_host.specs.Syncs.{Act, InTurn, logged_after, is_going, log_of, needed};
ghost use Rattle.qs_host.specs.Syncs.Act.{Began, Ended, Stored};

/// What a sync through one handle has to do.
#[derive(Clone, Copy, Debug, PartialEq, Eq)]
pub enum SyncNeed {
    /// To fail: a sync of the file has failed, and the system may have dropped what it couldn't write.
    Fails,
    /// Nothing: a sync that succeeded began after the last store through this handle.
    Nothing,
    /// To call the file.
    Call,
}

/// Through which of a file's eight handles something was stored since its last sync began, and whether a
/// sync of it has failed.
#[derive(Debug, Drop)]
pub struct SyncLog {
    unsynced: [bool; 8],
    failed: bool,
}

impl SyncLog {
    /// Nothing was stored, and no sync began.
    pub fn new() -> Self
        ensures { result ≡ log_of [] }
    {
        SyncLog {
            unsynced: [false; 8],
            failed: false,
        }
    }

    /// A store through handle `k` was done, or was tried.
    pub fn store(&mut self, k: usize)
        requires { k < 8 }
        ensures { self.new ≡ logged_after (Stored k) self.old }
    {
        self.unsynced[k] = true;
    }

    /// What a sync through handle `k` has to do, while none goes on.
    pub fn need(&self, k: usize) -> SyncNeed
        requires { k < 8 }
        ensures { (history : List Act) → InTurn history → is_going history ≡ false → self.now ≡ log_of history →
            result ≡ needed history k }
    {
        if self.failed {
            SyncNeed::Fails
        } else if self.unsynced[k] {
            SyncNeed::Call
        } else {
            SyncNeed::Nothing
        }
    }

    /// A sync begins.
    pub fn begin(&mut self)
        ensures { self.new ≡ logged_after Began self.old }
    {
        self.unsynced = [false; 8];
    }

    /// The sync that went on ended, with success or without.
    pub fn end(&mut self, well: bool)
        ensures { self.new ≡ logged_after (Ended well) self.old }
    {
        self.failed = !well || self.failed;
    }
}
