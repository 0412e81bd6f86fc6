//! The syncs of one file, through eight handles, also of several threads.
//!
//! The log is looked at for a moment each time. One sync is made at a time, since the system tells of a page
//! that it couldn't write to one sync alone: a second one at the same time would succeed.
ghost use Rattle.std.specs.Prelude.{◌<◌};

use crate::sync_log::{SyncLog, SyncNeed};
use std::fs::File;
use std::io;
use std::sync::{Mutex, Wait};

/// The log of a file's syncs, and who makes one.
#[derive(Drop)]
pub struct FileSyncs {
    turn: Mutex<()>,
    log: Mutex<SyncLog>,
}

impl FileSyncs {
    /// Nothing was stored, and no sync began.
    pub fn new() -> Self {
        FileSyncs {
            turn: Mutex::new(()),
            log: Mutex::new(SyncLog::new()),
        }
    }

    /// A store through handle `k` was done, or was tried.
    pub fn stored<R: Wait>(&self, rt: &R, k: usize)
        requires { k < 8 }
    {
        self.log.lock(rt).store(k);
    }

    /// Puts on the medium what was stored through handle `k`, unless a sync has done so that began after it.
    /// Once one has failed, each fails.
    pub fn sync<R: Wait>(&self, rt: &R, file: &File, k: usize) -> io::Result<()>
        requires { k < 8 }
    {
        let turn = self.turn.lock(rt);
        let done = self.sync_in_turn(rt, file, k);
        drop(turn);
        done
    }

    /// The same, while nobody else makes a sync.
    fn sync_in_turn<R: Wait>(&self, rt: &R, file: &File, k: usize) -> io::Result<()>
        requires { k < 8 }
    {
        let need = self.log.lock(rt).need(k);
        match need {
            SyncNeed::Fails => Err(io::Error::other("a sync of the image has failed before")),
            SyncNeed::Nothing => Ok(()),
            SyncNeed::Call => {
                self.log.lock(rt).begin();
                let done = file.sync_data();
                self.log.lock(rt).end(done.is_ok());
                done
            }
        }
    }
}
