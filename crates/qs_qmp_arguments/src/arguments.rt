ghost use Rattle.std.specs.Prelude.{◌≡◌, Option, option_and_then, option_map};
ghost use Rattle.serde_json.specs.Find.{as_str};
ghost use Rattle.serde_json.specs.View.{view};
ghost use Rattle.qs_qmp_arguments.specs.Arguments.{are_arguments, argument, choice_at, id_at, is_word, name_at, needs, none_but, or_invalid, seen_data, text_at, truth_at, whole_at, is_word_at};
ghost use Rattle.qs_qmp_arguments.specs.Problems.{Gives};
ghost use Rattle.qs_qmp_arguments.specs.Kinds.{choice_text, short_text};

use crate::fault::{ArgumentFault, invalid, missing, unexpected};
use crate::keys::ArgumentKeys;
use crate::kinds::{choice_text, id_text, name_text, truth_of, whole_of};
use qs_bytes::Name;
use serde_json::Value;
use std::alloc::Global;

/// The argument of this name.
pub fn argument<'a>(arguments: Option<&'a Value>, name: &str) -> Option<&'a Value>
    ensures { seen_data result ≡ argument name.now (seen_data arguments.entry) }
{
    match arguments {
        Some(value) => value.get(name),
        None => None,
    }
}

/// The argument of this name, if it is a text.
pub fn text_at<'a>(arguments: Option<&'a Value>, name: &str) -> Option<&'a str>
    ensures { option_map (λ s. s.now) result ≡ text_at name.now (seen_data arguments.entry) }
{
    match argument(arguments, name) {
        Some(value) => value.as_str(),
        None => None,
    }
}

/// Refuses arguments that are no object.
pub fn are_arguments(alloc: Global, arguments: Option<&Value>) -> Result<(), ArgumentFault>
    ensures { Gives (λ x. x) result (are_arguments (seen_data arguments.entry)) }
{
    match arguments {
        None => Ok(()),
        Some(value) => {
            if value.is_object() {
                Ok(())
            } else {
                Err(invalid(alloc, "arguments"))
            }
        }
    }
}

/// Refuses arguments that lack this one.
pub(crate) fn needs(
    alloc: Global,
    arguments: Option<&Value>,
    name: &str,
) -> Result<(), ArgumentFault>
    ensures { Gives (λ x. x) result (needs name.now (seen_data arguments.entry)) }
{
    match argument(arguments, name) {
        Some(_) => Ok(()),
        None => Err(missing(alloc, name)),
    }
}

/// Refuses arguments other than these, by the first such name in rising order of bytes.
pub fn none_but(
    alloc: Global,
    arguments: Option<&Value>,
    keys: ArgumentKeys,
) -> Result<(), ArgumentFault>
    ensures { Gives (λ x. x) result (none_but keys (seen_data arguments.entry)) }
{
    match keys.first_other(arguments) {
        Some(name) => Err(unexpected(alloc, name)),
        None => Ok(()),
    }
}

/// An argument that is an id.
pub fn id_at(alloc: Global, arguments: Option<&Value>, name: &str) -> Result<Name, ArgumentFault>
    ensures { Gives (λ x. x) result (id_at name.now (seen_data arguments.entry)) }
{
    match text_at(arguments, name) {
        Some(text) => match id_text(text) {
            Some(id) => Ok(id),
            None => Err(invalid(alloc, name)),
        },
        None => Err(invalid(alloc, name)),
    }
}

fn name_of(value: &Value) -> Option<Name>
    ensures { result ≡ option_and_then short_text (as_str (view value.now)) }
{
    match value.as_str() {
        Some(text) => name_text(text),
        None => None,
    }
}

/// An argument that is a text of 1 to 63 bytes, if it is there.
pub(crate) fn name_at(
    alloc: Global,
    arguments: Option<&Value>,
    name: &str,
) -> Result<Option<Name>, ArgumentFault>
    ensures { Gives (λ x. x) result (name_at name.now (seen_data arguments.entry)) }
{
    match argument(arguments, name) {
        None => Ok(None),
        Some(value) => match name_of(value) {
            Some(text) => Ok(Some(text)),
            None => Err(invalid(alloc, name)),
        },
    }
}

/// An argument that is a whole number below 2^64, if it is there.
pub fn whole_at(
    alloc: Global,
    arguments: Option<&Value>,
    name: &str,
) -> Result<Option<u64>, ArgumentFault>
    ensures { Gives (λ x. x) result (whole_at name.now (seen_data arguments.entry)) }
{
    match argument(arguments, name) {
        None => Ok(None),
        Some(value) => match whole_of(value) {
            Some(n) => Ok(Some(n)),
            None => Err(invalid(alloc, name)),
        },
    }
}

/// An argument that is a truth value, if it is there.
pub fn truth_at(
    alloc: Global,
    arguments: Option<&Value>,
    name: &str,
) -> Result<Option<bool>, ArgumentFault>
    ensures { Gives (λ x. x) result (truth_at name.now (seen_data arguments.entry)) }
{
    match argument(arguments, name) {
        None => Ok(None),
        Some(value) => match truth_of(value) {
            Some(truth) => Ok(Some(truth)),
            None => Err(invalid(alloc, name)),
        },
    }
}

fn choice_of(value: &Value, on: &str, off: &str) -> Option<bool>
    ensures { result ≡ option_and_then (choice_text on.now off.now) (as_str (view value.now)) }
{
    match value.as_str() {
        Some(text) => choice_text(text, on, off),
        None => None,
    }
}

/// Whether an argument is the first of two words, if it is there.
pub fn choice_at(
    alloc: Global,
    arguments: Option<&Value>,
    name: &str,
    on: &str,
    off: &str,
) -> Result<Option<bool>, ArgumentFault>
    ensures { Gives (λ x. x) result (choice_at name.now on.now off.now (seen_data arguments.entry)) }
{
    match argument(arguments, name) {
        None => Ok(None),
        Some(value) => match choice_of(value, on, off) {
            Some(choice) => Ok(Some(choice)),
            None => Err(invalid(alloc, name)),
        },
    }
}

fn is_word(text: Option<&str>, word: &str) -> bool
    ensures { result ≡ is_word word.now (option_map (λ s. s.now) text.entry) }
{
    match text {
        Some(text) => text == word,
        None => false,
    }
}

/// Refuses an argument that is another word.
pub fn word_at(
    alloc: Global,
    arguments: Option<&Value>,
    name: &str,
    word: &str,
) -> Result<(), ArgumentFault>
    ensures { Gives (λ x. x) result (is_word_at name.now word.now (seen_data arguments.entry)) }
{
    if is_word(text_at(arguments, name), word) {
        Ok(())
    } else {
        Err(invalid(alloc, name))
    }
}
