ghost use Rattle.std.specs.Prelude.{◌≡◌, true, Err, None, Result, Some, codes, option_and_then, option_map, IfOk};
ghost use Rattle.std.specs.Str.{IsUtf8};
ghost use Rattle.serde_json.specs.Find.{as_str, get};
ghost use Rattle.serde_json.specs.Read.{read};
ghost use Rattle.serde_json.specs.View.{view};
ghost use Rattle.qs_qmp_arguments.specs.Arguments.{first_not, is_key, keys_in, seen_data};
ghost use Rattle.qs_qmp_arguments.specs.Commands.{command_named};
ghost use Rattle.qs_qmp_arguments.specs.Problems.{Gives, Problem};
ghost use Rattle.qs_qmp.specs.declared.asked.QmpCommand.{QmpCommand};
ghost use Rattle.qs_qmp.specs.Reading.{Answers, HasFitId, asked_of, asked_by, command_of, enables_none, is_fit, is_member, is_negotiation, job_named, negotiation, or_no_command, or_not_found, asked_with_id, without_id};

use crate::asked::{QmpAsked, QmpCommand};
use crate::fault::QmpFault;
use crate::floats::has_float;
use qs_qmp_arguments::{
    ArgumentFault, ArgumentKeys, Class, CommandName, are_arguments, argument, invalid,
    is_empty_list, none_but, refusal,
};
use serde_json::Value;
use std::alloc::{AllocError, Global};

/// The text of the member `execute`.
fn execute_of(alloc: Global, message: &Value) -> Result<&str, ArgumentFault>
    ensures { Gives (λ x. x.now) result
        (or_no_command (option_and_then as_str (get (codes "execute") (view message.now)))) }
{
    match text_of(message.get("execute")) {
        Some(name) => Ok(name),
        None => Err(refusal(
            alloc,
            Class::GenericError,
            "Member 'execute' is missing",
            "",
            "",
        )),
    }
}

fn text_of(value: Option<&Value>) -> Option<&str>
    ensures { option_map (λ s. s.now) result ≡ option_and_then as_str (seen_data value.entry) }
{
    match value {
        Some(value) => value.as_str(),
        None => None,
    }
}

/// Refuses a member that no message has.
fn no_other_member(alloc: Global, message: &Value) -> Result<(), ArgumentFault>
    ensures { Gives (λ x. x) result
        (is_member (first_not (λ k. is_key ArgumentKeys.Message k) (keys_in (Some (view message.now))))) }
{
    match ArgumentKeys::Message.first_other(Some(message)) {
        None => Ok(()),
        Some(key) => Err(refusal(
            alloc,
            Class::GenericError,
            "Member '",
            key,
            "' is unexpected",
        )),
    }
}

fn command_name_of(alloc: Global, name: &str) -> Result<CommandName, ArgumentFault>
    ensures { Gives (λ x. x) result (or_not_found name.now (command_named name.now)) }
{
    match CommandName::named(name) {
        Some(named) => Ok(named),
        None => Err(refusal(
            alloc,
            Class::CommandNotFound,
            "The command ",
            name,
            " has not been found",
        )),
    }
}

#[tactic(auto, unfolding(crate::specs::Reading::job_named))]
fn job_named(
    alloc: Global,
    name: &str,
    arguments: Option<&Value>,
) -> Result<QmpCommand, ArgumentFault>
    ensures { Gives (λ x. x) result (job_named name.now (seen_data arguments.entry)) }
{
    let named = command_name_of(alloc, name)?;
    let command = named.read(alloc, arguments)?;
    Ok(QmpCommand::Job(command))
}

fn is_negotiation(alloc: Global, name: &str) -> Result<(), ArgumentFault>
    ensures { Gives (λ x. x) result (is_negotiation name.now) }
{
    if name == "qmp_capabilities" {
        Ok(())
    } else {
        Err(refusal(
            alloc,
            Class::CommandNotFound,
            "Expecting capabilities negotiation",
            "",
            "",
        ))
    }
}

fn enables_none(alloc: Global, enable: Option<&Value>) -> Result<(), ArgumentFault>
    ensures { Gives (λ x. x) result (enables_none (seen_data enable.entry)) }
{
    match enable {
        None => Ok(()),
        Some(value) => {
            if is_empty_list(value) {
                Ok(())
            } else {
                Err(invalid(alloc, "enable"))
            }
        }
    }
}

#[tactic(auto, unfolding(crate::specs::Reading::negotiation))]
fn negotiation(
    alloc: Global,
    name: &str,
    arguments: Option<&Value>,
) -> Result<QmpCommand, ArgumentFault>
    ensures { Gives (λ x. x) result (negotiation name.now (seen_data arguments.entry)) }
{
    is_negotiation(alloc, name)?;
    are_arguments(alloc, arguments)?;
    none_but(alloc, arguments, ArgumentKeys::Capabilities)?;
    enables_none(alloc, argument(arguments, "enable"))?;
    Ok(QmpCommand::Capabilities)
}

#[tactic(auto, unfolding(crate::specs::Reading::command_of))]
fn command_of(alloc: Global, message: &Value, negotiated: bool) -> Result<QmpCommand, ArgumentFault>
    ensures { Gives (λ x. x) result (command_of negotiated (view message.now)) }
{
    let name = execute_of(alloc, message)?;
    no_other_member(alloc, message)?;
    let arguments = message.get("arguments");
    if negotiated {
        job_named(alloc, name, arguments)
    } else {
        negotiation(alloc, name, arguments)
    }
}

/// Whether an id can be written back: each number in it is whole.
fn is_fit(id: Option<&Value>) -> bool
    ensures { result ≡ is_fit (seen_data id.entry) }
{
    match id {
        None => true,
        Some(id) => !has_float(id),
    }
}

fn copied(id: Option<&Value>) -> Result<Option<Value>, AllocError>
    ensures { IfOk result (λ copy. option_map view copy ≡ seen_data id.entry) }
{
    match id {
        None => Ok(None),
        Some(id) => Ok(Some(id.clone()?)),
    }
}

/// What was read, with the message's id.
fn with_id(
    command: Result<QmpCommand, ArgumentFault>,
    id: Option<Value>,
) -> Result<QmpAsked, QmpFault>
    requires { is_fit (option_map view id) ≡ true }
    ensures answers { (read : Result QmpCommand Problem) → Gives (λ x. x) command read
        → Answers result (asked_with_id (option_map view id) read) }
    ensures fit { HasFitId result }
{
    match command {
        Ok(command) => Ok(QmpAsked { command, id }),
        Err(ArgumentFault::Memory) => Err(QmpFault::Memory),
        Err(ArgumentFault::Refused { class, desc }) => Err(QmpFault::Refused { class, desc, id }),
    }
}

fn without_id(alloc: Global, desc: &str) -> QmpFault
    ensures answers { Answers (Err result) (without_id desc.now) }
    ensures fit { HasFitId (Err result) }
{
    match String::from_str(alloc, desc) {
        Ok(desc) => QmpFault::Refused {
            class: Class::GenericError,
            desc,
            id: None,
        },
        Err(_) => QmpFault::Memory,
    }
}

/// Reads a message that is a command, before the capabilities were negotiated or after.
///
/// The first refusal that applies is answered: of the id, of the member `execute`, of other members, of
/// the negotiation, of the command's name, of `arguments`, then missing arguments in the order in which
/// QAPI has them, unknown ones and invalid ones in rising order of bytes, and limits that break a rule.
pub fn read_command(alloc: Global, message: &Value, negotiated: bool) -> Result<QmpAsked, QmpFault>
    ensures answers { Answers result (asked_of negotiated (view message.now)) }
    ensures fit { HasFitId result }
{
    let id = message.get("id");
    if !is_fit(id) {
        return Err(without_id(alloc, "Invalid parameter 'id'"));
    }
    let id = copied(id)?;
    with_id(command_of(alloc, message, negotiated), id)
}

/// Reads the bytes of a message, which are JSON, or refused.
pub fn read_message(alloc: Global, bytes: &[u8], negotiated: bool) -> Result<QmpAsked, QmpFault>
    ensures text { IsUtf8 bytes.now → Answers result (asked_by negotiated (read bytes.now)) }
    ensures no_text { ¬ IsUtf8 bytes.now → Answers result (asked_by negotiated None) }
    ensures fit { HasFitId result }
{
    match Value::from_slice(alloc, bytes) {
        Ok(message) => read_command(alloc, &message, negotiated),
        Err(fault) if fault.is_memory() => Err(QmpFault::Memory),
        Err(_) => Err(without_id(alloc, "Invalid JSON")),
    }
}
