ghost use Rattle.std.specs.Prelude.{◌≡◌, ◌+◌, ◌≤◌, ◌++◌, [], length, OnErr, OnOk};
ghost use Rattle.qs_nbd_transmission.specs.Replies.{data_of};
ghost use Rattle.qs_serving.specs.Answers.{answer_bytes, end_after, end_for_memory, is_fault};
ghost use Rattle.qs_serving.specs.Fitting.{IsAnswerTo};

use qs_bytes::{Ask, Errno, Memory, Mode, Verdict};
use qs_nbd_transmission::reply_head;
use qs_status::SessionEnd;
use qs_wire_stream::WireStream;

/// The most bytes of a reply before its data.
const HEAD_ROOM: usize = 64;

/// Puts a head and what follows it.
fn put_both<W>(stream: &mut WireStream<W>, head: &[u8], behind: &[u8]) -> Result<(), Memory>
    requires { length head.now ≤ 64 }
    ensures ok { OnOk result (stream.new ≡ record stream.old {
      held = stream.old.held ++ (head.now ++ behind.now);
      room = stream.new.room;
    }) }
    ensures err { OnErr result (stream.new ≡ stream.old) }
{
    let room = match behind.len().checked_add(HEAD_ROOM) {
        Some(room) => room,
        None => return Err(Memory),
    };
    match stream.reserve(room) {
        Ok(()) => {}
        Err(refused) => return Err(refused),
    }
    stream.put(head);
    stream.put(behind);
    Ok(())
}

/// The data of a reply.
fn reply_data(verdict: &Verdict) -> &[u8]
    ensures { result.now ≡ data_of verdict.now }
{
    match verdict {
        Verdict::Got(bytes) => bytes.as_slice(),
        _ => &[],
    }
}

/// Puts the reply to a request; a dropped one has none. Where memory is refused nothing changes.
pub fn put_reply<W>(
    stream: &mut WireStream<W>,
    mode: &Mode,
    ask: &Ask,
    verdict: &Verdict,
) -> Result<(), Memory>
    requires { IsAnswerTo ask.now verdict.now }
    ensures ok { OnOk result (stream.new ≡ record stream.old {
      held = stream.old.held ++ answer_bytes mode.now.structured ask.now verdict.now;
      room = stream.new.room;
    }) }
    ensures err { OnErr result (stream.new ≡ stream.old) }
{
    match verdict {
        Verdict::Dropped => Ok(()),
        _ => {
            let head = reply_head(mode, ask, verdict);
            put_both(stream, head.as_slice(), reply_data(verdict))
        }
    }
}

/// How the session will end, where it would end so before this answer.
pub fn end_after(verdict: &Verdict, ended: Option<SessionEnd>) -> Option<SessionEnd>
    ensures { result ≡ end_after verdict.now ended }
{
    match (verdict, ended) {
        (Verdict::Refused(Errno::Shutdown), None) => Some(SessionEnd::Shutting),
        (Verdict::Refused(Errno::Shutdown), Some(SessionEnd::Done)) => Some(SessionEnd::Shutting),
        _ => ended,
    }
}

/// Whether the live requests of a session that ends so are abandoned.
pub fn is_fault(end: SessionEnd) -> bool
    ensures { result ≡ is_fault end }
{
    matches!(
        end,
        SessionEnd::LinkFault
            | SessionEnd::Truncated
            | SessionEnd::BadMagic(_)
            | SessionEnd::BadFlags(_)
            | SessionEnd::TooLong(_)
            | SessionEnd::Memory
    )
}

/// How the session ends for want of memory, where it would end so before.
pub fn end_for_memory(ended: Option<SessionEnd>) -> SessionEnd
    ensures { result ≡ end_for_memory ended }
{
    match ended {
        Some(end) if is_fault(end) => end,
        _ => SessionEnd::Memory,
    }
}
