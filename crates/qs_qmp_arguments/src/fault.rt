ghost use Rattle.std.specs.Prelude.{◌≡◌, ◌++◌, string_bytes, IfOk};
ghost use Rattle.qs_qmp_arguments.specs.declared.fault.ArgumentFault.TheVariants.{Memory};
ghost use Rattle.qs_qmp_arguments.specs.Problems.{Fails, missing, unexpected, invalid};

use std::alloc::{AllocError, Global};

/// The class of an error, as QMP names it.
#[derive(Clone, Copy, Debug, PartialEq, Eq)]
pub enum Class {
    GenericError,
    CommandNotFound,
}

/// Why arguments are none of the command's.
#[derive(Debug, Drop)]
pub enum ArgumentFault {
    /// They are refused: the error's class and words.
    Refused { class: Class, desc: String },
    /// Memory was refused.
    Memory,
}

impl From<AllocError> for ArgumentFault {
    ghost from_gives = { λ refused fault. fault ≡ Memory };

    fn from(_refused: AllocError) -> ArgumentFault {
        ArgumentFault::Memory
    }
}

/// The text of three pieces.
fn joined(alloc: Global, before: &str, name: &str, after: &str) -> Result<String, AllocError>
    ensures { IfOk result (λ s. string_bytes s ≡ before.now ++ name.now ++ after.now) }
{
    let mut text = String::from_str(alloc, before)?;
    text.push_str(name)?;
    text.push_str(after)?;
    Ok(text)
}

/// The refusal that is told by a text in three pieces, or want of memory.
pub fn refusal(alloc: Global, class: Class, before: &str, name: &str, after: &str) -> ArgumentFault
    ensures { Fails (record { class = class; desc = before.now ++ name.now ++ after.now }) result }
{
    match joined(alloc, before, name, after) {
        Ok(desc) => ArgumentFault::Refused { class, desc },
        Err(_) => ArgumentFault::Memory,
    }
}

/// The refusal of arguments that lack this one.
pub fn missing(alloc: Global, name: &str) -> ArgumentFault
    ensures { Fails (missing name.now) result }
{
    refusal(
        alloc,
        Class::GenericError,
        "Parameter '",
        name,
        "' is missing",
    )
}

pub(crate) fn unexpected(alloc: Global, name: &str) -> ArgumentFault
    ensures { Fails (unexpected name.now) result }
{
    refusal(
        alloc,
        Class::GenericError,
        "Parameter '",
        name,
        "' is unexpected",
    )
}

/// The refusal of an argument of a wrong kind or value.
pub fn invalid(alloc: Global, name: &str) -> ArgumentFault
    ensures { Fails (invalid name.now) result }
{
    refusal(alloc, Class::GenericError, "Invalid parameter '", name, "'")
}
