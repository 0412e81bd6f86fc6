ghost use Rattle.std.specs.Prelude.{List, Option, ℕ};
ghost use Rattle.qs_status.specs.declared.status.Status.{Status};
ghost use Rattle.qs_replay.specs.Runs.{IsReplayed};
ghost use Rattle.qs_same_replay.specs.Same.{IsFunction};

use qs_outside::RiggedDisk;

/// Two replays of one script, over disks of one shape and content with the same failures planned, did
/// the same: where neither input, output nor memory failed, no disk failed but by a plan, no request
/// was refused its buffers, and each crash found the same contents that it might leave.
pub fn one_replay<D: RiggedDisk + Drop>()
    ensures { (disks : List D) (left sent : Option (List ℕ)) (result : Status) (after : List D)
        (left' sent' : Option (List ℕ))
        (one : IsReplayed D.Disk.seen disks left sent result after left' sent') → IsFunction one }
{}
