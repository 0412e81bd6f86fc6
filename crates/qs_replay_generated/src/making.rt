ghost use Rattle.std.specs.Prelude.{◌≡◌, [], OnOk};
ghost use Rattle.qs_generate.specs.Rounds.{LineComes};
ghost use Rattle.qs_replay_lines.specs.Numbers.{each};
ghost use Rattle.qs_replay_generated.specs.Changes.{lives_after, live_without};
ghost use Rattle.qs_script.specs.Lines.{IsLineFault};
ghost use Rattle.qs_replay_generated.specs.Making.{IsMade, LineDone, PlaysSome, RunMade, place};
ghost use Rattle.qs_script.specs.declared.line.Line.{Line as ALine};

use crate::change::{Change, change_of};
use crate::counts::{Counts, counted};
use qs_bytes::Memory;
use qs_generate::{GeneratedRun, LiveRequest};
use qs_outside::RiggedDisk;
use qs_replay_lines::{Desk, LineTold, Stop};
use qs_script::{Line, LineFault};

/// The request with this cookie isn't live any more.
fn forget(live: &mut Vec<LiveRequest>, cookie: u64)
    ensures { live.new.items ≡ live_without live.old.items cookie }
{
    live.retain(|r| r.cookie != cookie);
}

/// The requests behind a line that brought this answer, or none.
fn renew(live: &mut Vec<LiveRequest>, change: Change, ended: Option<bool>) -> Result<(), Memory>
    ensures { OnOk result (live.new.items ≡ lives_after live.old.items change (each ended)) }
{
    match (change, ended) {
        (Change::Asks(request), _) => live.push(request)?,
        (Change::Drives(cookie), Some(_)) => forget(live, cookie),
        _ => {}
    }
    Ok(())
}

/// A WRITE whose bytes found no memory is done without them.
fn play_lost<D: RiggedDisk + Drop>(desk: &mut Desk<D>, fault: &LineFault) -> Result<LineTold, Stop>
    ensures { (wanted : ALine) → IsLineFault (λ l. l ≡ wanted) fault.now →
        PlaysSome D.Disk.seen desk.old wanted result desk.new }
{
    match fault {
        LineFault::NoBody {
            session,
            cookie,
            offset,
            length,
            fua,
        } => desk.write_lost(*session, *cookie, *offset, *length, *fua),
        _ => Err(Stop::Memory),
    }
}

/// A line that was made is done; of a WRITE whose bytes found no memory the request has none.
fn play_made<D: RiggedDisk + Drop>(
    desk: &mut Desk<D>,
    made: Result<Line, LineFault>,
) -> Result<LineTold, Stop>
    requires { IsMade made }
    ensures { (wanted : ALine) → LineComes wanted made → PlaysSome D.Disk.seen desk.old wanted result desk.new }
{
    match made {
        Ok(line) => desk.play(line),
        Err(fault) => play_lost(desk, &fault),
    }
}

/// A line that was made is done, and counted.
fn do_made<D: RiggedDisk + Drop>(
    desk: &mut Desk<D>,
    live: &mut Vec<LiveRequest>,
    counts: &mut Counts,
    made: Result<Line, LineFault>,
) -> Result<(), Stop>
    requires { IsMade made }
    ensures { (wanted : ALine) → LineComes wanted made →
        LineDone D.Disk.seen desk.old live.old.items counts.old wanted result desk.new live.new.items counts.new }
{
    let change = change_of(&made);
    let told = play_made(desk, made)?;
    desk.out.clear();
    renew(live, change, told.ended)?;
    *counts = counted(*counts, told);
    Ok(())
}

/// The lines of a made-up run are done and counted, to the end of its rounds. They end sooner at a line
/// whose event can't come, or for which memory is refused; the counts are then those of the lines before.
pub fn make_run<D: RiggedDisk + Drop>(
    desk: &mut Desk<D>,
    run: &mut GeneratedRun,
    live: &mut Vec<LiveRequest>,
    counts: &mut Counts,
) -> Result<(), Stop>
    ensures { RunMade D.Disk.seen (place run.old live.old.items desk.old) result
        (place run.new live.new.items desk.new) counts.new }
{
    *counts = Counts {
        errors: 0,
        steps: 0,
        lines: 0,
    };
    'lines: while let Some(made) = run.next_line(desk.alloc, live.as_slice()) {
        do_made(desk, live, counts, made)?;
    }
    Ok(())
}
