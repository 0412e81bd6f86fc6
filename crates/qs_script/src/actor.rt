ghost use Rattle.std.specs.Prelude.{IsNone, IfSome};
ghost use Rattle.qs_script.specs.Spelled.{SpellsActor};
ghost use Rattle.qs_script.specs.declared.actor.ScriptActor.{ScriptActor as Actor};

use crate::find::first_of;
use crate::number::number;
use crate::session_name::SessionName;

/// Who does a step in a script: a session, or a request of one by its cookie.
#[derive(Clone, Copy, Debug, PartialEq, Eq)]
pub enum ScriptActor {
    Session(SessionName),
    Request(SessionName, u64),
}

/// The actor that a word spells, `S` or `S.C`; `None` exactly where it spells none.
pub fn actor_of(word: &[u8]) -> Option<ScriptActor>
    ensures some { IfSome result (SpellsActor word.now) }
    ensures none { IsNone result → (actor : Actor) → ¬ SpellsActor word.now actor }
{
    match first_of(word, b'.') {
        None => Some(ScriptActor::Session(SessionName::of(word)?)),
        Some(at) => Some(ScriptActor::Request(
            SessionName::of(&word[..at])?,
            number(&word[at + 1..], u64::MAX)?,
        )),
    }
}
