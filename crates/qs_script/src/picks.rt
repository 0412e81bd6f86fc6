ghost use Rattle.std.specs.Prelude.{◌↔◌, ℕ, List, IfErr, IfOk, IfSome, IsNone, IsTrue};
ghost use Rattle.qs_script.specs.Lines.{words_left};
ghost use Rattle.qs_script.specs.Spelled.{IsPicksFault, SpellPicks, SpellsPick};

use crate::find::{cut_word, first_of};
use crate::number::number;
use qs_outside::Picks;
use std::alloc::Global;

/// Why words give no pairs.
#[derive(Clone, Copy, Debug, PartialEq, Eq)]
pub enum PicksFault {
    /// They spell none.
    OutOfForm,
    /// Memory was refused for them.
    Memory,
}

/// The pairs `B=N` that the words left spell, none where no word is left. OutOfForm exactly where they
/// spell none.
pub fn picks_of(alloc: Global, left: Option<&[u8]>) -> Result<Picks, PicksFault>
    ensures ok { IfOk result (SpellPicks (words_left left.entry)) }
    ensures fault { IfErr result (IsPicksFault (SpellPicks (words_left left.entry))) }
{
    let mut picks = Vec::new(alloc);
    let mut behind = left;
    while let Some(text) = behind {
        let (word, others) = cut_word(text);
        let Some(pick) = pick_of(word) else {
            return Err(PicksFault::OutOfForm);
        };
        match picks.push(pick) {
            Ok(()) => {}
            Err(_) => return Err(refused(others)),
        }
        behind = others;
    }
    Ok(Picks(picks))
}

/// Why pairs that found no memory aren't given, by the words behind them.
fn refused(left: Option<&[u8]>) -> PicksFault
    ensures { IsPicksFault (SpellPicks (words_left left.entry)) result }
{
    if are_picks(left) {
        PicksFault::Memory
    } else {
        PicksFault::OutOfForm
    }
}

/// Whether each word left spells a pair.
fn are_picks(left: Option<&[u8]>) -> bool
    ensures { IsTrue result ↔ ((pairs : List (ℕ × ℕ)) × SpellPicks (words_left left.entry) pairs) }
{
    let mut behind = left;
    while let Some(text) = behind {
        let (word, others) = cut_word(text);
        match pick_of(word) {
            Some(_) => behind = others,
            None => return false,
        }
    }
    true
}

/// The pair `B=N` that a word spells; `None` exactly where it spells none.
fn pick_of(word: &[u8]) -> Option<(u64, u64)>
    ensures some { IfSome result (SpellsPick word.now) }
    ensures none { IsNone result → (pick : ℕ × ℕ) → ¬ SpellsPick word.now pick }
{
    let at = first_of(word, b'=')?;
    let block = number(&word[..at], u64::MAX)?;
    let place = number(&word[at + 1..], u64::MAX)?;
    Some((block, place))
}
