//! Laws of the definitions, each the contract of a function with nothing to do.

ghost use Rattle.qs_nbd_transmission.specs.Laws.{AsksRoom, HasOneReading, JoinsPieces, ReadsOnce, RepliesStandApart, RestsBegin, TellsMessages, WantsLess};
ghost use Rattle.qs_nbd_transmission.specs.Sessions.{ReadsSessions};

/// A piece that brought no event, and the next one, lead where both together do.
pub fn any_cutting()
    ensures { JoinsPieces }
{}

/// The first event of a stream, and its place, depend on the stream alone.
pub fn one_event()
    ensures { ReadsOnce }
{}

/// Each message is told whole.
pub fn whole_messages()
    ensures { TellsMessages }
{}

/// Behind the head of a request with data, room for exactly these is awaited.
pub fn rooms()
    ensures { AsksRoom }
{}

/// A stream is these messages and no others, up to a rest that begins with no whole message.
pub fn one_reading()
    ensures { HasOneReading }
{}

/// What begins with no whole message.
pub fn rests()
    ensures { RestsBegin }
{}

/// Of two replies to one request, neither is the beginning of the other, unless they are equal.
pub fn replies_apart()
    ensures { RepliesStandApart }
{}

/// What is wanted until the next event falls with each byte that brings none.
pub fn progress()
    ensures { WantsLess }
{}

/// However a session's bytes are cut, its messages are told, each once and in order, and nothing
/// else, up to a rest that is less than a message or what ends the session.
pub fn whole_sessions()
    ensures { ReadsSessions }
{}
