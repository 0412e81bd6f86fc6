ghost use Rattle.std.specs.Prelude.{◌≡◌, ◌++◌, codes, decimal, string_bytes, IfOk};
ghost use Rattle.qs_qmp_write.specs.Texts.{class_text, driver_text, refusal_text, user_text};

use qs_bytes::Name;
use qs_command::{Driver, Refusal};
use qs_part::graph::User;
use qs_qmp::Class;
use std::alloc::{AllocError, Global};
use std::str;

/// The name's text.
pub(crate) fn text(name: &Name) -> &str
    ensures { result.now ≡ name.now }
{
    match str::from_utf8(name.as_slice()) {
        Ok(text) => text,
        Err(_) => unreachable!(),
    }
}

/// The class as QMP writes it.
pub(crate) fn class_text(class: Class) -> &'static str
    ensures { result.now ≡ class_text class }
{
    match class {
        Class::GenericError => "GenericError",
        Class::CommandNotFound => "CommandNotFound",
    }
}

/// The driver as QMP writes it.
pub(crate) fn driver_text(driver: Driver) -> &'static str
    ensures { result.now ≡ driver_text driver }
{
    match driver {
        Driver::File => "file",
        Driver::Raw => "raw",
        Driver::Throttle => "throttle",
    }
}

/// The text of three pieces.
fn joined(alloc: Global, before: &str, name: &str, after: &str) -> Result<String, AllocError>
    ensures { IfOk result (λ s. string_bytes s ≡ before.now ++ name.now ++ after.now) }
{
    let mut text = String::from_str(alloc, before)?;
    text.push_str(name)?;
    text.push_str(after)?;
    Ok(text)
}

fn user_text(alloc: Global, user: &User) -> Result<String, AllocError>
    ensures { IfOk result (λ s. string_bytes s ≡ user_text user.now) }
{
    match user {
        User::Node(name) => joined(alloc, "node '", text(name), "'"),
        User::Export(id) => joined(alloc, "export '", text(id), "'"),
    }
}

/// The text of four pieces.
fn joined_two(
    alloc: Global,
    before: &str,
    one: &str,
    between: &str,
    other: &str,
) -> Result<String, AllocError>
    ensures { IfOk result (λ s. string_bytes s
        ≡ before.now ++ one.now ++ between.now ++ other.now) }
{
    let mut text = String::from_str(alloc, before)?;
    text.push_str(one)?;
    text.push_str(between)?;
    text.push_str(other)?;
    Ok(text)
}

fn in_use(alloc: Global, before: &str, name: &Name, user: &User) -> Result<String, AllocError>
    ensures { IfOk result (λ s. string_bytes s
        ≡ before.now ++ name.now ++ codes "' is in use by " ++ user_text user.now) }
{
    let user = user_text(alloc, user)?;
    joined_two(alloc, before, text(name), "' is in use by ", user.as_str())
}

fn conflict(alloc: Global, one: &User, other: &User) -> Result<String, AllocError>
    ensures { IfOk result (λ s. string_bytes s ≡ codes "Permission conflict between "
        ++ user_text one.now ++ codes " and " ++ user_text other.now) }
{
    let first = user_text(alloc, one)?;
    let second = user_text(alloc, other)?;
    joined_two(
        alloc,
        "Permission conflict between ",
        first.as_str(),
        " and ",
        second.as_str(),
    )
}

/// A name and how many of something it has.
fn counted(
    alloc: Global,
    before: &str,
    name: &Name,
    count: u64,
    after: &str,
) -> Result<String, AllocError>
    ensures { IfOk result (λ s. string_bytes s
        ≡ before.now ++ name.now ++ codes "' has " ++ decimal count ++ after.now) }
{
    let digits = count.to_string(alloc)?;
    let mut counted = joined_two(alloc, before, text(name), "' has ", digits.as_str())?;
    counted.push_str(after)?;
    Ok(counted)
}

/// The words of a refusal.
pub(crate) fn refusal_text(alloc: Global, refusal: &Refusal) -> Result<String, AllocError>
    ensures { IfOk result (λ s. string_bytes s ≡ refusal_text refusal.now) }
{
    match refusal {
        Refusal::Duplicate { name } => joined(alloc, "Duplicate name '", text(name), "'"),
        Refusal::NoNode { node } => joined(alloc, "Node '", text(node), "' not found"),
        Refusal::NoGroup { group } => joined(alloc, "Group '", text(group), "' not found"),
        Refusal::NoExport { export } => joined(alloc, "Export '", text(export), "' not found"),
        Refusal::OutOfRange { node, size } => counted(alloc, "Node '", node, *size, " bytes"),
        Refusal::Deep => String::from_str(alloc, "Too many throttle nodes"),
        Refusal::Full => String::from_str(alloc, "Table is full"),
        Refusal::Root { node } => joined(alloc, "Node '", text(node), "' is the image"),
        Refusal::NodeInUse { node, user } => in_use(alloc, "Node '", node, user),
        Refusal::GroupInUse { group, user } => in_use(alloc, "Group '", group, user),
        Refusal::OtherKind { node } => joined(alloc, "Node '", text(node), "' has another driver"),
        Refusal::OtherFile { node } => joined(alloc, "Node '", text(node), "' has another file"),
        Refusal::ReadOnly { node } => joined(alloc, "Node '", text(node), "' is read-only"),
        Refusal::Conflict(one, other) => conflict(alloc, one, other),
        Refusal::Connected { export, clients } => {
            counted(alloc, "Export '", export, u64::from(*clients), " client(s)")
        }
    }
}
