ghost use Rattle.std.specs.Prelude.{◌↔◌, ℕ, IsNone, IsTrue, IfSome};
ghost use Rattle.qs_script.specs.Spelled.{IsPlain, SpellsNumber};

use std::str;

/// The number that a word spells in decimal digits without leading zeros, at most `most`; `None` exactly
/// where it spells none.
pub fn number(word: &[u8], most: u64) -> Option<u64>
    ensures some { IfSome result (SpellsNumber most word.now) }
    ensures none { IsNone result → (n : ℕ) → ¬ SpellsNumber most word.now n }
{
    if !is_plain(word) {
        return None;
    }
    match str::from_utf8(word) {
        Ok(text) => plain_number(text, most),
        Err(_) => None,
    }
}

/// Whether the word is digits, and the first is `0` only where it is alone.
fn is_plain(word: &[u8]) -> bool
    ensures { IsTrue result ↔ IsPlain word.now }
{
    if word.is_empty() || (word[0] == b'0' && word.len() > 1) {
        return false;
    }
    word.iter().all(|byte| byte.is_ascii_digit())
}

/// The number that digits spell, if it is at most `most`.
fn plain_number(text: &str, most: u64) -> Option<u64>
    requires { IsPlain text.now }
    ensures some { IfSome result (SpellsNumber most text.now) }
    ensures none { IsNone result → (n : ℕ) → ¬ SpellsNumber most text.now n }
{
    let n = match text.parse::<u64>() {
        Ok(n) => n,
        Err(_) => return None,
    };
    if n <= most { Some(n) } else { None }
}
