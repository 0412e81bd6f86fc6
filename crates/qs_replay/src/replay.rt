ghost use Rattle.std.specs.Prelude.{◌≡◌, ◌<◌, ◌-◌, ◌^◌, [], List, ℕ};
ghost use Rattle.qs_script.specs.Lines.{IsLineFault, ReadsLine};
ghost use Rattle.qs_stream.specs.declared.state.State.TheVariants.{Open};
ghost use Rattle.qs_stream.specs.Flows.{Puts, side};
ghost use Rattle.qs_replay.specs.Scripts.{Finishes, PlaysText, PutsText, Replays, Turns, done_of, fault_turn, is_silent as the_silent, scene, status_of};

use crate::lines::{Came, next_line};
use qs_outside::{RiggedDisk, Sink, Source};
use qs_replay_lines::{Desk, LineTold, Stop};
use qs_script::{LineCutter, LineFault, is_quiet, read_line};
use qs_status::Status;
use qs_stream::{State, Stream};

/// What came of one line of a script.
#[derive(Clone, Copy, Debug, PartialEq, Eq)]
pub enum LineOutcome {
    /// It was done.
    Goes,
    /// The last line, which has no end, was done.
    Last,
    /// There was no line more.
    End,
    /// It wasn't done to its end.
    Stops(Stop),
    ReadFault,
    WriteFault,
}

/// What came of a line, without its numbers.
fn done(played: Result<LineTold, Stop>) -> Result<(), Stop>
    ensures { result ≡ done_of played }
{
    match played {
        Ok(_) => Ok(()),
        Err(stop) => Err(stop),
    }
}

/// A text that isn't read as a line: it spells none, or a WRITE or a crash for which memory was refused.
fn play_fault<D: RiggedDisk + Drop>(desk: &mut Desk<D>, fault: &LineFault) -> Result<(), Stop>
    ensures { (text : List ℕ) → IsLineFault (ReadsLine text) fault.now →
        PlaysText D.Disk.seen desk.old text result desk.new }
{
    match fault {
        LineFault::OutOfForm => Err(Stop::BadLine),
        LineFault::NoBody {
            session,
            cookie,
            offset,
            length,
            fua,
        } => done(desk.write_lost(*session, *cookie, *offset, *length, *fua)),
        LineFault::NoPicks => Err(Stop::Memory),
    }
}

/// The line that a text spells is done.
fn play_text<D: RiggedDisk + Drop>(desk: &mut Desk<D>, text: &[u8]) -> Result<(), Stop>
    ensures { PlaysText D.Disk.seen desk.old text.now result desk.new }
{
    match read_line(desk.alloc, text) {
        Ok(line) => done(desk.play(line)),
        Err(fault) => play_fault(desk, &fault),
    }
}

/// Puts what was printed behind the bytes that wait to be written.
fn print<O: Sink, D: RiggedDisk + Drop>(desk: &mut Desk<D>, stream: &mut Stream, output: &mut O)
    ensures puts { Puts desk.old.out (side O.sent O.write_faults output.old) stream.old
        (side O.sent O.write_faults output.new) stream.new }
    ensures desk { desk.new ≡ record desk.old { out = [] } }
{
    stream.put(output, desk.out.as_slice());
    desk.out.clear();
}

/// The line that a text spells is done, and what it printed is put.
fn do_spelled<O: Sink, D: RiggedDisk + Drop>(
    desk: &mut Desk<D>,
    stream: &mut Stream,
    output: &mut O,
    text: &[u8],
) -> Result<(), Stop>
    requires { desk.old.out ≡ [] }
    ensures puts { PutsText D.Disk.seen desk.old (side O.sent O.write_faults output.old) stream.old text.now result
        desk.new (side O.sent O.write_faults output.new) stream.new }
    ensures empty { desk.new.out ≡ [] }
{
    play_text(desk, text)?;
    print(desk, stream, output);
    Ok(())
}

/// A line is done, and what it printed is put; an empty line or a comment does nothing.
fn do_line<O: Sink, D: RiggedDisk + Drop>(
    desk: &mut Desk<D>,
    stream: &mut Stream,
    output: &mut O,
    text: &[u8],
) -> Result<(), Stop>
    requires { desk.old.out ≡ [] }
    ensures puts { PutsText D.Disk.seen desk.old (side O.sent O.write_faults output.old) stream.old text.now result
        desk.new (side O.sent O.write_faults output.new) stream.new }
    ensures empty { desk.new.out ≡ [] }
{
    if is_quiet(text) {
        return Ok(());
    }
    do_spelled(desk, stream, output, text)
}

/// What a stream that failed makes of a line.
fn fault(stream: &Stream) -> LineOutcome
    ensures { result ≡ fault_turn stream.now.state }
{
    match stream.state() {
        State::ReadFault => LineOutcome::ReadFault,
        _ => LineOutcome::WriteFault,
    }
}

/// The next line is read and done, and what it printed is put. Where that can't be written, the next
/// turn fails.
fn take_turn<I: Source, O: Sink, D: RiggedDisk + Drop>(
    desk: &mut Desk<D>,
    cutter: &mut LineCutter,
    stream: &mut Stream,
    input: &mut I,
    output: &mut O,
) -> LineOutcome
    requires { desk.old.out ≡ [] }
    ensures turns { Turns D.Disk.seen
        (scene I.left I.read_faults O.sent O.write_faults input.old output.old stream.old desk.old.world desk.old.table)
        result
        (scene I.left I.read_faults O.sent O.write_faults input.new output.new stream.new desk.new.world desk.new.table) }
    ensures empty { desk.new.out ≡ [] }
{
    match next_line(cutter, stream, input, output) {
        Ok(Came::Line) => match do_line(desk, stream, output, cutter.line()) {
            Ok(()) => LineOutcome::Goes,
            Err(stop) => LineOutcome::Stops(stop),
        },
        Ok(Came::Last) => match do_line(desk, stream, output, cutter.line()) {
            Ok(()) => LineOutcome::Last,
            Err(stop) => LineOutcome::Stops(stop),
        },
        Ok(Came::End) => LineOutcome::End,
        Ok(Came::TooLong) => LineOutcome::Stops(Stop::BadLine),
        Err(_) => fault(stream),
    }
}

/// Whether a script ends so that nothing more is written: a side failed, or memory was refused.
fn is_silent(status: Status) -> bool
    ensures { result ≡ the_silent status }
{
    matches!(
        status,
        Status::Memory | Status::ReadFault | Status::WriteFault
    )
}

/// Writes what waits, unless a side failed or memory was refused.
fn finish<O: Sink>(stream: &mut Stream, output: &mut O, status: Status) -> Status
    ensures { Finishes (side O.sent O.write_faults output.old) stream.old status result
        (side O.sent O.write_faults output.new) stream.new }
{
    if is_silent(status) {
        return status;
    }
    match stream.flush(output) {
        Ok(()) => status,
        Err(_) => Status::WriteFault,
    }
}

/// The status of a script that ends with this line, by its number from 1.
fn ending(last: LineOutcome, line: u64) -> Status
    ensures { result ≡ status_of last line }
{
    match last {
        LineOutcome::Goes => Status::Spent,
        LineOutcome::Last | LineOutcome::End => Status::Done,
        LineOutcome::Stops(Stop::BadLine) => Status::BadLine(line),
        LineOutcome::Stops(Stop::NotNext) => Status::NotNext(line),
        LineOutcome::Stops(Stop::Memory) => Status::Memory,
        LineOutcome::ReadFault => Status::ReadFault,
        LineOutcome::WriteFault => Status::WriteFault,
    }
}

/// Lines are read and done, at most so many, to the end of the script.
pub fn replay<I: Source, O: Sink, D: RiggedDisk + Drop>(
    desk: &mut Desk<D>,
    cutter: &mut LineCutter,
    stream: &mut Stream,
    input: &mut I,
    output: &mut O,
    budget: u64,
) -> Status
    requires budget { budget < 2 ^ 64 - 1 }
    requires empty { desk.old.out ≡ [] }
    requires ongoing { stream.old.state ≡ Open }
    ensures { Replays D.Disk.seen
        (scene I.left I.read_faults O.sent O.write_faults input.old output.old stream.old desk.old.world desk.old.table)
        budget result
        (scene I.left I.read_faults O.sent O.write_faults input.new output.new stream.new desk.new.world desk.new.table) }
{
    for n in 0..budget {
        match take_turn(desk, cutter, stream, input, output) {
            LineOutcome::Goes => {}
            other => return finish(stream, output, ending(other, n + 1)),
        }
    }
    finish(stream, output, Status::Spent)
}
