ghost use Rattle.std.specs.Prelude.{◌≡◌, ◌+◌, ◌-◌, ◌^◌, ◌≤◌, Bool, List, ℕ, [], true, false, map, IfOk, OnOk, Some};
ghost use Rattle.qs_calls.specs.Runs.{Begins};
ghost use Rattle.qs_outside.specs.Faults.{Rose};
ghost use Rattle.qs_image.specs.Opening.{IsImage};
ghost use Rattle.qs_single.specs.Resting.{IsResting};
ghost use Rattle.qs_stream.specs.Flows.{Puts, Rises, Tells, side};
ghost use Rattle.qs_stdio.specs.Runs.{Closes, Ran, ServesWords, ServesStream, Sitting, fault_at, side_of, status_by};
ghost use Rattle.qs_stdio.specs.Scenes.{scene};
ghost use Rattle.qs_stdio.specs.Sessions.{IsValidInput};
ghost use Rattle.qs_stdio.specs.Streams.{IsServed};
ghost use Rattle.qs_stdio.specs.Turns.{between};
ghost use Rattle.qs_stdio_words.specs.Words.{command};
ghost use Rattle.qs_stdio_words.specs.declared.words.StdioWords.{StdioWords as Told};

use crate::answer::SESSION;
use crate::serve::Progress;
use crate::session::Session;
use qs_bytes::Mode;
use qs_calls::open_core;
use qs_opening::{Opened, open_session};
use qs_outside::{Clock, Disk, Failed, Sink, Source};
use qs_single::attach;
use qs_status::Status;
use qs_stdio_words::{StdioWords, stdio_words};
use qs_stream::{State, Stream};
use qs_world::world::World;
use std::alloc::Global;
use std::mem;

/// Writes the replies that wait, at the end of a session.
fn finish<O: Sink>(stream: &mut Stream, output: &mut O, status: Status) -> Result<Status, Failed>
    ensures puts { Puts [] (side O.sent O.write_faults output.old) stream.old (side O.sent O.write_faults output.new)
        stream.new }
    ensures tells { Tells result stream.new.state }
    ensures written { OnOk result (stream.new.held ≡ []) }
    ensures same { IfOk result (λ told. told ≡ status) }
{
    stream.flush(output)?;
    Ok(status)
}

/// The status of a run whose stream failed.
fn fault(stream: &Stream) -> Status
    ensures { result ≡ fault_at stream.now.state }
{
    match stream.state() {
        State::ReadFault => Status::ReadFault,
        _ => Status::WriteFault,
    }
}

impl Session {
    /// Serves requests, at most so many, to the end of the session.
    fn serve_all<I: Source, O: Sink, D: Disk + Drop, C: Clock>(
        &mut self,
        alloc: Global,
        mode: &Mode,
        budget: u64,
        input: &mut I,
        output: &mut O,
        world: &mut World<D>,
        clock: &C,
    ) -> Result<Status, Failed>
        requires resting { (writable : Bool) × IsResting D.seen 0 writable world.old }
        requires room { world.old.next + budget ≤ 2 ^ 64 - 1 }
        requires between { self.old.reader ≡ between mode.now.structured }
        ensures { (writable : Bool) → IsResting D.seen 0 writable world.old →
            Sitting D.seen 0 writable mode.now.structured budget
            (scene I.left I.read_faults O.sent O.write_faults input.old output.old self.old.stream world.old)
            (scene I.left I.read_faults O.sent O.write_faults input.new output.new self.new.stream world.new)
            (status_by result self.new.stream.state) }
    {
        for _ in 0..budget {
            match self.serve_one(alloc, input, output, world, mode, clock.now())? {
                Progress::Goes => {}
                Progress::Ends(status) => return finish(&mut self.stream, output, status),
            }
        }
        finish(&mut self.stream, output, Status::Spent)
    }

    /// Serves requests, at most so many, and answers how the session ended.
    pub fn serve<I: Source, O: Sink, D: Disk + Drop, C: Clock>(
        &mut self,
        alloc: Global,
        mode: &Mode,
        budget: u64,
        input: &mut I,
        output: &mut O,
        world: &mut World<D>,
        clock: &C,
    ) -> Status
        requires resting { (writable : Bool) × IsResting D.seen 0 writable world.old }
        requires room { world.old.next + budget ≤ 2 ^ 64 - 1 }
        requires between { self.old.reader ≡ between mode.now.structured }
        ensures { (writable : Bool) → IsResting D.seen 0 writable world.old →
            Sitting D.seen 0 writable mode.now.structured budget
            (scene I.left I.read_faults O.sent O.write_faults input.old output.old self.old.stream world.old)
            (scene I.left I.read_faults O.sent O.write_faults input.new output.new self.new.stream world.new)
            result }
    {
        match self.serve_all(alloc, mode, budget, input, output, world, clock) {
            Ok(status) => status,
            Err(_) => fault(&self.stream),
        }
    }
}

/// Sessions without a handshake agreed on nothing: every reply is a simple one.
const MODE: Mode = Mode {
    no_zeroes: false,
    structured: false,
};

/// Serves one client over a core that was just opened: its session begins at the export `disk`, and at most
/// `budget` requests are read from the input, answered in order and replied to on the output, by the
/// readings of the clock. Answers how the session ended.
pub fn serve_stream<I: Source, O: Sink, D: Disk + Drop, C: Clock>(
    alloc: Global,
    world: &mut World<D>,
    budget: u64,
    input: &mut I,
    output: &mut O,
    clock: &C,
) -> Status
    requires { (disks : List D) × (read_only : Bool) × Begins D.seen disks read_only world.old }
    ensures { (disks : List D) (read_only : Bool) → Begins D.seen disks read_only world.old →
        ServesStream D.seen disks read_only true budget
        (side I.left I.read_faults input.old) (side O.sent O.write_faults output.old) world.old result
        (side I.left I.read_faults input.new) (side O.sent O.write_faults output.new) world.new }
{
    let Ok(mut session) = Session::new(alloc, MODE) else {
        return Status::Memory;
    };
    let Some(_) = attach(world, SESSION) else {
        return Status::Memory;
    };
    session.serve(alloc, &MODE, budget, input, output, world, clock)
}

/// Ends a session that the handshake ended: writes the answers that wait.
fn conclude<O: Sink>(stream: &mut Stream, output: &mut O, status: Status) -> Status
    ensures { Closes (side O.sent O.write_faults output.old) stream.old status (side O.sent O.write_faults output.new)
        stream.new result }
{
    match finish(stream, output, status) {
        Ok(status) => status,
        Err(_) => fault(stream),
    }
}

/// Serves one client over a core that was just opened: the server greets, answers the client's options, at
/// most `budget`, by what the core's exports are, and where one of them says so reads at most `budget`
/// requests, as `serve_stream` does, in the mode that was agreed on. Answers how the session ended.
pub fn serve_client<I: Source, O: Sink, D: Disk + Drop, C: Clock>(
    alloc: Global,
    world: &mut World<D>,
    budget: u64,
    input: &mut I,
    output: &mut O,
    clock: &C,
) -> Status
    requires { (disks : List D) × (read_only : Bool) × Begins D.seen disks read_only world.old }
    ensures { (disks : List D) (read_only : Bool) → Begins D.seen disks read_only world.old →
        ServesStream D.seen disks read_only false budget
        (side I.left I.read_faults input.old) (side O.sent O.write_faults output.old) world.old result
        (side I.left I.read_faults input.new) (side O.sent O.write_faults output.new) world.new }
{
    let Ok(mut stream) = Stream::new(alloc) else {
        return Status::Memory;
    };
    match open_session(alloc, world, SESSION, budget, &mut stream, input, output) {
        Ok(Opened::Transmit(mode)) => {
            let mut session = Session::over(alloc, mode, stream);
            session.serve(alloc, &mode, budget, input, output, world, clock)
        }
        Ok(Opened::Ends(status)) => conclude(&mut stream, output, status),
        Err(_) => fault(&stream),
    }
}

/// How many messages one call reads at most.
const BUDGET: u64 = 1 << 32;

/// Serves one client over a core that was just opened, behind a handshake unless the words say that requests
/// come at once.
fn serve_core<I: Source, O: Sink, D: Disk + Drop, C: Clock>(
    alloc: Global,
    told: &StdioWords,
    world: &mut World<D>,
    input: &mut I,
    output: &mut O,
    clock: &C,
) -> Status
    requires { (disks : List D) × (read_only : Bool) × Begins D.seen disks read_only world.old }
    ensures { (disks : List D) (read_only : Bool) → Begins D.seen disks read_only world.old →
        ServesStream D.seen disks read_only told.now.transmission (2 ^ 32)
        (side I.left I.read_faults input.old) (side O.sent O.write_faults output.old) world.old result
        (side I.left I.read_faults input.new) (side O.sent O.write_faults output.new) world.new }
{
    if told.transmission {
        return serve_stream(alloc, world, BUDGET, input, output, clock);
    }
    serve_client(alloc, world, BUDGET, input, output, clock)
}

/// Serves the image that the disks hold, if they hold one.
fn serve_disks<I: Source, O: Sink, D: Disk + Drop, C: Clock>(
    alloc: Global,
    told: &StdioWords,
    input: &mut I,
    output: &mut O,
    disks: &mut Vec<D>,
    clock: &C,
) -> Status
    ensures { ServesWords D.seen told.now disks.old.items
        (side I.left I.read_faults input.old) (side O.sent O.write_faults output.old) result
        disks.new.items (side I.left I.read_faults input.new) (side O.sent O.write_faults output.new) }
{
    let taken = mem::replace(disks, Vec::new(alloc));
    let mut world = match open_core(alloc, taken, told.read_only) {
        Ok(world) => world,
        Err((back, status)) => {
            *disks = back;
            return status;
        }
    };
    let status = serve_core(alloc, told, &mut world, input, output, clock);
    *disks = world.into_disks();
    status
}

/// Serves one client over the image that the disks hold, from its input to its output, and answers how
/// the run ended. It takes no handle, and returns.
///
/// The words are those behind the program's name: `[--transmission] [--read-only] [--align N] IMAGE`. The
/// server greets, answers the client's options, and then its requests in order, in the mode that was agreed
/// on, by the core over the file node `file0` and its export `disk`, which may be written unless
/// `--read-only` stands among the words. With `--transmission` the input is a stream of requests alone, each
/// answered by a simple reply. Blocks are as the disks have them. At most 2^32 options and as many requests
/// are read.
///
/// A fault of the input or the output ends the run at that call. What was answered before stays on the
/// image. The disks come back in their order, as the run left them.
pub fn run_stdio<I: Source, O: Sink, D: Disk + Drop, C: Clock>(
    alloc: Global,
    words: &[String],
    input: &mut I,
    output: &mut O,
    disks: &mut Vec<D>,
    clock: &C,
) -> Status
    ensures ran { Ran words.now D.seen disks.old.items (side I.left I.read_faults input.old)
        (side O.sent O.write_faults output.old) result
        disks.new.items (side I.left I.read_faults input.new) (side O.sent O.write_faults output.new) }
    // A valid session, or a valid stream of requests alone, is served to its end, unless memory is refused or a
    // side fails.
    ensures complete { (stream : List ℕ) → I.left input.old ≡ Some stream →
        (told : Told) → command words.now ≡ Some told → IsValidInput told.transmission stream →
        IsImage (map D.seen disks.old.items) → ¬ Rose (I.read_faults input.old) (I.read_faults input.new) →
        ¬ Rose (O.write_faults output.old) (O.write_faults output.new) → IsServed result }
    // A fault is told only where its count rose.
    ensures cause { Rises (side_of result) (I.read_faults input.old) (I.read_faults input.new)
        (O.write_faults output.old) (O.write_faults output.new) }
{
    match stdio_words(words) {
        Some(told) => serve_disks(alloc, &told, input, output, disks, clock),
        None => Status::Usage,
    }
}
