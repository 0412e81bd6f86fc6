ghost use Rattle.std.specs.Prelude.{◌≡◌, ◌<◌, ◌^◌, true, if◌then◌else◌, length, nat_lt, None, Some, option_map};
ghost use Rattle.std.specs.Str.Parse.{digits_value};
ghost use Rattle.std.specs.List.{list_all};
ghost use Rattle.std.specs.Char.{is_ascii_digit};
ghost use Rattle.serde_json.specs.View.{view, items_view};
ghost use Rattle.qs_qmp_arguments.specs.Kinds.{choice_text, has_no_item, id_text, is_empty_list, is_id, short_text, only_item, only_object, truth_of, whole_of, whole_text};

use qs_bytes::Name;
use serde_json::Value;

fn is_id(name: &Name) -> bool
    ensures { result ≡ is_id name.now }
{
    name.is_id()
}

/// The name of an id: 1 to 31 bytes, the first an ASCII letter, the others letters, digits, `-`, `_` or `.`.
pub(crate) fn id_text(text: &str) -> Option<Name>
    ensures { result ≡ id_text text.now }
{
    match Name::of(text.as_bytes()) {
        Some(name) => if is_id(&name) { Some(name) } else { None },
        None => None,
    }
}

/// The name of a text of 1 to 63 bytes.
pub(crate) fn name_text(text: &str) -> Option<Name>
    ensures { result ≡ short_text text.now }
{
    if text.is_empty() {
        return None;
    }
    Name::of(text.as_bytes())
}

fn is_digits(text: &str) -> bool
    ensures { result ≡ list_all is_ascii_digit text.now }
{
    text.as_bytes().iter().all(|byte| byte.is_ascii_digit())
}

/// The number that digits spell, if it is below 2^64.
fn value_of(digits: &str) -> Option<u64>
    requires some { 0 < length digits.now }
    requires digits { list_all is_ascii_digit digits.now ≡ true }
    ensures { result ≡ (if nat_lt (digits_value 10 digits.now) (2 ^ 64)
        then Some (digits_value 10 digits.now) else None) }
{
    match digits.parse::<u64>() {
        Ok(n) => Some(n),
        Err(_) => None,
    }
}

/// The number below 2^64 of 1 to 20 decimal digits.
fn whole_text(text: &str) -> Option<u64>
    ensures { result ≡ whole_text text.now }
{
    if text.is_empty() || text.len() > 20 || !is_digits(text) {
        return None;
    }
    value_of(text)
}

/// A whole number below 2^64, without sign, fraction and exponent, or as a text of 1 to 20 digits.
pub(crate) fn whole_of(value: &Value) -> Option<u64>
    ensures { result ≡ whole_of (view value.now) }
{
    match value {
        Value::Number(number) => number.as_u64(),
        Value::String(text) => whole_text(text.as_str()),
        _ => None,
    }
}

/// Whether the text is the first of two words; `None` where it is neither.
pub(crate) fn choice_text(text: &str, on: &str, off: &str) -> Option<bool>
    ensures { result ≡ choice_text on.now off.now text.now }
{
    if text == on {
        Some(true)
    } else if text == off {
        Some(false)
    } else {
        None
    }
}

/// A truth value: true, false, `on` or `off`.
pub(crate) fn truth_of(value: &Value) -> Option<bool>
    ensures { result ≡ truth_of (view value.now) }
{
    match value {
        Value::Bool(truth) => Some(*truth),
        Value::String(text) => choice_text(text.as_str(), "on", "off"),
        _ => None,
    }
}

fn only_item(items: &[Value]) -> Option<&Value>
    ensures { option_map (λ v. view v.now) result ≡ only_item (items_view items.now) }
{
    match items {
        [] => None,
        [item] => if item.is_object() { Some(item) } else { None },
        [_, _, ..] => None,
    }
}

/// The one object of a list.
pub(crate) fn only_object(value: &Value) -> Option<&Value>
    ensures { option_map (λ v. view v.now) result ≡ only_object (view value.now) }
{
    match value {
        Value::Array(items) => only_item(items.as_slice()),
        _ => None,
    }
}

fn has_no_item(items: &[Value]) -> bool
    ensures { result ≡ has_no_item (items_view items.now) }
{
    match items {
        [] => true,
        [_, ..] => false,
    }
}

/// Whether the value is a list with nothing in it.
pub fn is_empty_list(value: &Value) -> bool
    ensures { result ≡ is_empty_list (view value.now) }
{
    match value {
        Value::Array(items) => has_no_item(items.as_slice()),
        _ => false,
    }
}
