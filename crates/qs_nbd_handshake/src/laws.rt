//! Laws of the definitions, each the contract of a function with nothing to do.

ghost use Rattle.qs_nbd_handshake.specs.Laws.{GoesOn, JoinsPieces, ReadsOnce, SpellsQuestions};
ghost use Rattle.qs_nbd_handshake.specs.Sessions.{ReadsOneWay, ReadsSessions, SpellsServed};

/// A piece that brought no event, and the next one, lead where both together do.
pub fn any_cutting()
    ensures { JoinsPieces }
{}

/// The first event of a stream, and its place, depend on the stream alone.
pub fn one_event()
    ensures { ReadsOnce }
{}

/// Behind what brought no event, behind the client's flags and behind an answer that stays, bytes
/// are awaited; behind what wants something, what may be told for it.
pub fn goes_on()
    ensures { GoesOn }
{}

/// Whole options are the spellings of options that may be sent, and no others.
pub fn one_spelling()
    ensures { SpellsServed }
{}

/// However a handshake's bytes are cut, its flags and its options are told, each once and in order,
/// and nothing else, up to a rest that is less than an option or what is refused.
pub fn whole_sessions()
    ensures { ReadsSessions }
{}

/// A stream has one reading, however it is cut.
pub fn one_reading()
    ensures { ReadsOneWay }
{}

/// The data that are taken of INFO and GO are the spellings of a name and a list of numbers of
/// informations, and no others; each is read as what it spells.
pub fn one_question()
    ensures { SpellsQuestions }
{}
