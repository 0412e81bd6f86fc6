ghost use Rattle.std.specs.Prelude.{◌≡◌, false, true, Ok, option_map};
ghost use Rattle.serde_json.specs.Data.{object};
ghost use Rattle.serde_json.specs.Read.{read};
ghost use Rattle.serde_json.specs.View.{view, members_view};
ghost use Rattle.qs_keyval.specs.Reading.{Gives, add_item, begins_with_brace, chain, items_word, json_word};

use crate::cutting::{Front, cut_first};
use crate::fault::KeyvalFault;
use crate::key::{is_key, split_at};
use crate::nesting::{Members, add, set_at};
use serde_json::{Map, Value};
use std::alloc::Global;

/// Gives the members what the item says, which begins at this byte of the word.
fn add_item(
    alloc: Global,
    members: Members,
    at: usize,
    text: &str,
    implied: Option<&str>,
) -> Result<Members, KeyvalFault>
    ensures { Gives (λ m. members_view m.entries) result
        (add_item (option_map (λ s. s.now) implied.entry) (record { at = at; text = text.now })
        (members_view members.entries)) }
{
    if text.is_empty() {
        return Err(KeyvalFault::BadKey(at));
    }
    match split_at(text, '=') {
        None => match implied {
            None => Err(KeyvalFault::NoValue(at)),
            Some(key) => set_at(alloc, members, "", key, text),
        },
        Some((key, value)) => {
            if !is_key(key) {
                return Err(KeyvalFault::BadKey(at));
            }
            add(alloc, members, "", key, value)
        }
    }
}

/// Reads a word of items.
fn read_items(alloc: Global, word: &str, implied: Option<&str>) -> Result<Members, KeyvalFault>
    ensures { Gives (λ m. members_view m.entries) result
        (items_word (option_map (λ s. s.now) implied.entry) word.now) }
{
    let mut members = Map::new(alloc);
    let mut rest = word;
    let mut at = 0;
    let mut key = implied;
    while !rest.is_empty() {
        let Front { text, behind } = cut_first(alloc, rest)?;
        members = add_item(alloc, members, at, text.as_str(), key)?;
        at += rest.len() - behind.len();
        rest = behind;
        key = None;
    }
    Ok(members)
}

/// Reads a word that is one JSON object.
fn read_json(alloc: Global, word: &str) -> Result<Value, KeyvalFault>
    ensures { Gives view result (json_word (read word.now)) }
{
    match Value::from_str(alloc, word) {
        Ok(value) => Ok(value),
        Err(fault) if fault.is_memory() => Err(KeyvalFault::Memory),
        Err(_) => Err(KeyvalFault::BadJson),
    }
}

/// Reads an option word, in the form of QEMU's storage daemon.
///
/// A word that begins with `{` is one JSON object. Else it is items parted by commas, each a key,
/// `=` and a text, in which `,,` stands for a comma. Dots in a key nest objects. The first item may
/// be a text alone where a key is implied. Of a key's texts the last one stands, and of bad items the
/// first is answered.
pub fn read_word(alloc: Global, word: &str, implied: Option<&str>) -> Result<Value, KeyvalFault>
    ensures items { begins_with_brace word.now ≡ false → Gives view result
        (chain (items_word (option_map (λ s. s.now) implied.entry) word.now) (λ members. Ok (object members))) }
    ensures json { begins_with_brace word.now ≡ true → Gives view result (json_word (read word.now)) }
{
    if word.as_bytes().first() == Some(&b'{') {
        return read_json(alloc, word);
    }
    Ok(Value::Object(read_items(alloc, word, implied)?))
}
