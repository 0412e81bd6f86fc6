ghost use Rattle.std.specs.Prelude.{◌≡◌, ◌<◌, [], length};
ghost use Rattle.qs_script.specs.Cuts.{longest_line};
ghost use Rattle.qs_stream.specs.declared.state.State.TheVariants.{Open, ReadFault};
ghost use Rattle.qs_stream.specs.Flows.{Fills, flow};
ghost use Rattle.qs_replay.specs.Readings.{AllSent, Feeds, Seeks, came_of as the_came, end_of};

use qs_outside::{Failed, Sink, Source};
use qs_script::{Cut, LineCutter};
use qs_stream::Stream;

/// What came of looking for the next line.
#[derive(Clone, Copy, Debug, PartialEq, Eq)]
pub enum Came {
    /// A line.
    Line,
    /// The last line, which has no end.
    Last,
    /// The input's end.
    End,
    /// More bytes than a line has.
    TooLong,
}

/// What a cut makes of the bytes before it.
fn came_of(cut: Cut) -> Came
    ensures { result ≡ the_came cut }
{
    match cut {
        Cut::Line => Came::Line,
        Cut::TooLong => Came::TooLong,
    }
}

/// What the input's end makes of the bytes that stand before it.
fn ending(cutter: &LineCutter) -> Came
    ensures { result ≡ end_of cutter.now }
{
    match cutter.line() {
        [] => Came::End,
        _ => Came::Last,
    }
}

/// Takes what waits into the line, up to its end.
fn feed(cutter: &mut LineCutter, stream: &mut Stream) -> Option<Cut>
    requires { length cutter.old < longest_line }
    ensures feeds { Feeds cutter.old stream.old.waiting result cutter.new stream.new.waiting }
    ensures others { stream.new ≡ record stream.old { waiting = stream.new.waiting } }
{
    let fed = cutter.feed(stream.waiting());
    stream.take(fed.taken);
    fed.event
}

/// Writes all that waits, and then reads more, once, where nothing waits; no bytes are the input's end.
fn refill<I: Source, O: Sink>(
    stream: &mut Stream,
    input: &mut I,
    output: &mut O,
) -> Result<usize, Failed>
    requires empty { stream.old.waiting ≡ [] }
    requires ongoing { stream.old.state ≡ Open }
    ensures fills { Fills (flow I.left I.read_faults O.sent O.write_faults input.old output.old stream.old) result
        (flow I.left I.read_faults O.sent O.write_faults input.new output.new stream.new) }
    ensures written { stream.new.state ≡ ReadFault →
        AllSent [] (flow I.left I.read_faults O.sent O.write_faults input.old output.old stream.old)
        (flow I.left I.read_faults O.sent O.write_faults input.new output.new stream.new) }
{
    stream.flush(output)?;
    stream.fill(input, output)
}

/// The next line of an open stream, of which no byte was taken. All that waits to be written is written
/// before more is read, since reading may wait.
fn find_line<I: Source, O: Sink>(
    cutter: &mut LineCutter,
    stream: &mut Stream,
    input: &mut I,
    output: &mut O,
) -> Result<Came, Failed>
    requires fresh { cutter.old ≡ [] }
    requires ongoing { stream.old.state ≡ Open }
    ensures { Seeks (flow I.left I.read_faults O.sent O.write_faults input.old output.old stream.old) result cutter.new
        (flow I.left I.read_faults O.sent O.write_faults input.new output.new stream.new) }
{
    match feed(cutter, stream) {
        Some(cut) => return Ok(came_of(cut)),
        None => {}
    }
    'pieces: loop {
        if refill(stream, input, output)? == 0 {
            return Ok(ending(cutter));
        }
        match feed(cutter, stream) {
            Some(cut) => return Ok(came_of(cut)),
            None => {}
        }
    }
}

/// The next line of the stream; the cutter holds it. A stream that failed does nothing more.
pub fn next_line<I: Source, O: Sink>(
    cutter: &mut LineCutter,
    stream: &mut Stream,
    input: &mut I,
    output: &mut O,
) -> Result<Came, Failed>
    ensures { Seeks (flow I.left I.read_faults O.sent O.write_faults input.old output.old stream.old) result cutter.new
        (flow I.left I.read_faults O.sent O.write_faults input.new output.new stream.new) }
{
    stream.check()?;
    cutter.clear();
    find_line(cutter, stream, input, output)
}
