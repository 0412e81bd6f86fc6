ghost use Rattle.std.specs.Prelude.{◌≡◌, ℕ, ◌+◌, ◌-◌, ◌<◌, [], ◌∷◌, false, length, string_bytes, IfOk, MatchOption};
ghost use Rattle.qs_keyval.specs.Cutting.{HasNoComma, comma, items_from};

use crate::key::split_at;
use std::alloc::{AllocError, Global};

/// The first item of a word, and what stands behind the comma that ends it.
#[derive(Drop)]
pub struct Front<'a> {
    /// The item's text, with each doubled comma read as one.
    pub text: String,
    pub behind: &'a str,
}

/// What stands behind a comma; `None` exactly where the text doesn't begin with one.
fn behind_comma(text: &str) -> Option<&str>
    ensures { MatchOption result (HasNoComma text.now) (λ x. text.now ≡ comma ∷ x.now) }
{
    text.strip_prefix(',')
}

/// Cuts the first item off. One comma at the end of the word is passed over.
pub fn cut_first<'a>(alloc: Global, word: &'a str) -> Result<Front<'a>, AllocError>
    requires { 0 < length word.now }
    ensures items { IfOk result (λ front. (at : ℕ) → items_from at word.now
        ≡ record { at = at; text = string_bytes front.text }
        ∷ items_from (at + (length word.now - length front.behind.now)) front.behind.now) }
    ensures shorter { IfOk result (λ front. length front.behind.now < length word.now) }
{
    let mut text = String::new(alloc);
    let mut rest = word;
    while let Some((front, behind)) = split_at(rest, ',') {
        text.push_str(front)?;
        match behind_comma(behind) {
            None => return Ok(Front { text, behind }),
            Some(more) => {
                text.push_str(",")?;
                rest = more;
            }
        }
    }
    text.push_str(rest)?;
    Ok(Front { text, behind: "" })
}
