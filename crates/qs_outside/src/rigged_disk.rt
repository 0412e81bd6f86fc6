ghost use Rattle.std.specs.Prelude.{◌≡◌, Some};
ghost use Rattle.qs_outside.specs.Crashes.{Crashes};
ghost use Rattle.qs_outside.specs.Rigged.{planned_too, plans_of};

use crate::crash::CrashChoice;
use crate::disk::Disk;

/// A call of a disk that is planned to fail, once.
#[derive(Clone, Copy, Debug, PartialEq, Eq)]
pub enum Fail {
    /// The next load.
    Load,
    /// The next store, which leaves the old content.
    StoreOld,
    /// The next store, which leaves the new content all the same.
    StoreNew,
    /// The next sync.
    Sync,
}

/// The failures that are planned.
#[derive(Clone, Copy, Debug, PartialEq, Eq)]
pub struct Plans {
    /// The next load fails.
    pub load: bool,
    /// The next store fails, and whether it writes its block all the same.
    pub store: Option<bool>,
    /// The next sync fails.
    pub sync: bool,
}

impl Plans {
    /// No failure is planned.
    pub const NONE: Plans = Plans {
        load: false,
        store: None,
        sync: false,
    };

    /// These plans and one more, in place of the one of its kind.
    pub fn with(self, fail: Fail) -> Plans
        ensures { result ≡ planned_too fail self }
    {
        match fail {
            Fail::Load => Plans { load: true, ..self },
            Fail::StoreOld => Plans {
                store: Some(false),
                ..self
            },
            Fail::StoreNew => Plans {
                store: Some(true),
                ..self
            },
            Fail::Sync => Plans { sync: true, ..self },
        }
    }
}

/// A disk whose failures and crashes can be planned, for tests and for replaying a script.
///
/// It tells its plans (`planned`) and whether it is full (`full`). A load, store or sync spends the
/// plan of its own kind.
pub trait RiggedDisk: Disk {
    /// The next call of this kind fails once. A later plan of the same kind replaces an earlier one;
    /// the two failures of a store are one kind. Nothing else changes.
    fn plan(&mut self, fail: Fail)
        ensures { Self.seen self.new ≡ record
            (Self.seen self.old) { planned = Some (planned_too fail (plans_of (Self.seen self.old).planned)) } };

    /// The power fails: each block holds the content that is chosen of those that a crash may leave, and
    /// that alone may be left by another one. No failure is planned any more.
    fn crash(&mut self, choice: &CrashChoice)
        ensures { Crashes choice.now (Self.seen self.old) (Self.seen self.new) };
}
