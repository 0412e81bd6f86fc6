ghost use Rattle.std.specs.Prelude.{◌≡◌, [], ◌∷◌, ◌++◌, Ok, option_map, string_bytes, IfOk};
ghost use Rattle.serde_json.specs.Data.{object, put};
ghost use Rattle.serde_json.specs.Find.{as_object, get_member};
ghost use Rattle.serde_json.specs.View.{view, members_view};
ghost use Rattle.qs_keyval.specs.declared.fault.KeyvalFault.TheVariants.{Clash};
ghost use Rattle.qs_keyval.specs.Reading.{Fails, Gives, add, dot, holds_object, inner_at, inner_of, parts_of, set_at};

use crate::fault::KeyvalFault;
use crate::key::split_at;
use qs_bytes::Bytes;
use serde_json::{Map, Value, put};
use std::alloc::{AllocError, Global};

/// The members of an object, by their keys.
pub type Members = Map<String, Value>;

/// The value of this member.
fn find<'a>(members: &'a Members, key: &str) -> Option<&'a Value>
    ensures { option_map (λ v. view v.now) result ≡ get_member key.now (members_view members.now.entries) }
{
    members.get(key)
}

fn joined(alloc: Global, before: &str, part: &str) -> Result<Vec<u8>, AllocError>
    ensures { IfOk result (λ key. key.items ≡ before.now ++ part.now) }
{
    let mut key = Vec::from_slice(alloc, before.as_bytes())?;
    key.extend_from_slice(part.as_bytes())?;
    Ok(key)
}

/// The fault that names the key of this part, behind the parts before it.
fn clash(alloc: Global, before: &str, part: &str) -> KeyvalFault
    ensures { Fails (Clash (before.now ++ part.now)) result }
{
    match joined(alloc, before, part) {
        Ok(key) => KeyvalFault::Clash(Bytes::of(key)),
        Err(_) => KeyvalFault::Memory,
    }
}

/// Whether the member is an object.
fn holds_object(members: &Members, key: &str) -> bool
    ensures { result ≡ holds_object (get_member key.now (members_view members.now.entries)) }
{
    match find(members, key) {
        Some(value) => value.is_object(),
        None => false,
    }
}

/// Gives the member this text. No object may stand there.
pub fn set_at(
    alloc: Global,
    mut members: Members,
    before: &str,
    part: &str,
    value: &str,
) -> Result<Members, KeyvalFault>
    ensures { Gives (λ m. members_view m.entries) result
        (set_at before.now part.now value.now (members_view members.entries)) }
{
    if holds_object(&members, part) {
        return Err(clash(alloc, before, part));
    }
    let text = String::from_str(alloc, value)?;
    put(&mut members, alloc, part, Value::String(text))?;
    Ok(members)
}

/// The members of this value. No text may stand there.
fn inner_of(alloc: Global, value: Value, before: &str, part: &str) -> Result<Members, KeyvalFault>
    ensures { Gives (λ m. members_view m.entries) result
        (inner_of (before.now ++ part.now) (as_object (view value))) }
{
    match value {
        Value::Object(members) => Ok(members),
        _ => Err(clash(alloc, before, part)),
    }
}

/// The members of the object at this part, of which there are none where nothing stands there.
fn inner_at(
    alloc: Global,
    members: &Members,
    before: &str,
    part: &str,
) -> Result<Members, KeyvalFault>
    ensures { Gives (λ m. members_view m.entries) result
        (inner_at (before.now ++ part.now) (get_member part.now (members_view members.now.entries))) }
{
    match find(members, part) {
        None => Ok(Map::new(alloc)),
        Some(value) => inner_of(alloc, value.clone()?, before, part),
    }
}

/// The parts before, this one and a dot.
fn deeper(alloc: Global, before: &str, part: &str) -> Result<String, AllocError>
    ensures { IfOk result (λ s. string_bytes s ≡ before.now ++ part.now ++ dot ∷ []) }
{
    let mut longer = String::from_str(alloc, before)?;
    longer.push_str(part)?;
    longer.push_str(".")?;
    Ok(longer)
}

/// Gives the member this object.
fn put_object(
    alloc: Global,
    mut members: Members,
    part: &str,
    inner: Members,
) -> Result<Members, KeyvalFault>
    ensures { Gives (λ m. members_view m.entries) result
        (Ok (put part.now (object (members_view inner.entries)) (members_view members.entries))) }
{
    put(&mut members, alloc, part, Value::Object(inner))?;
    Ok(members)
}

/// Gives this text to the member that the key names, its parts behind those before.
pub fn add(
    alloc: Global,
    members: Members,
    before: &str,
    key: &str,
    value: &str,
) -> Result<Members, KeyvalFault>
    ensures { Gives (λ m. members_view m.entries) result
        (add before.now (parts_of key.now) value.now (members_view members.entries)) }
{
    match split_at(key, '.') {
        None => set_at(alloc, members, before, key, value),
        Some((part, parts)) => {
            let inner = inner_at(alloc, &members, before, part)?;
            let longer = deeper(alloc, before, part)?;
            let inner = add(alloc, inner, longer.as_str(), parts, value)?;
            put_object(alloc, members, part, inner)
        }
    }
}
