ghost use Rattle.std.specs.Prelude.{◌≡◌, option_map};
ghost use Rattle.serde_json.specs.View.{view};
ghost use Rattle.qs_qmp_arguments.specs.Arguments.{seen_data};
ghost use Rattle.qs_qmp_arguments.specs.Problems.{Gives};
ghost use Rattle.qs_daemon_words.specs.Values.{address_of, align_at, chardev_in, chardev_of, command_in, file_of, image_in, inet_of, is_named, is_unix, listen_in, listener_of, monitor_in, monitor_of, port_at, string_at, unix_of, value_in, workers_in};

use crate::told::{ImageFile, Listen, Text};
use qs_bytes::Name;
use qs_command::Command;
use qs_keyval::{KeyvalFault, read_word};
use qs_qmp_arguments::{
    ArgumentFault, ArgumentKeys, Class, CommandName, argument, choice_at, id_at, invalid, missing,
    none_but, refusal, text_at, truth_at, whole_at, word_at,
};
use serde_json::Value;
use std::alloc::Global;

/// The value that a word says. With an implied key its first item may be a text alone.
fn value_in(alloc: Global, word: &str, implied: Option<&str>) -> Result<Value, ArgumentFault>
    ensures { Gives view result (value_in (option_map (λ s. s.now) implied.entry) word.now) }
{
    match read_word(alloc, word, implied) {
        Ok(value) => Ok(value),
        Err(KeyvalFault::Memory) => Err(ArgumentFault::Memory),
        Err(_) => Err(refusal(alloc, Class::GenericError, "Invalid option word", "", "")),
    }
}

/// An argument that is a text.
fn string_at(alloc: Global, arguments: Option<&Value>, name: &str) -> Result<Text, ArgumentFault>
    ensures { Gives (λ x. x) result (string_at name.now (seen_data arguments.entry)) }
{
    match text_at(arguments, name) {
        Some(text) => Ok(Text::of(String::from_str(alloc, text)?)),
        None => Err(invalid(alloc, name)),
    }
}

/// The bytes of a block.
#[tactic(auto, unfolding(crate::specs::Values::align_at))]
fn align_at(alloc: Global, arguments: Option<&Value>) -> Result<u32, ArgumentFault>
    ensures { Gives (λ x. x) result (align_at (seen_data arguments.entry)) }
{
    match whole_at(alloc, arguments, "x-align")? {
        None | Some(512) => Ok(512),
        Some(4096) => Ok(4096),
        Some(_) => Err(invalid(alloc, "x-align")),
    }
}

#[tactic(auto, unfolding(crate::specs::Values::file_of))]
fn file_of(alloc: Global, arguments: Option<&Value>) -> Result<ImageFile, ArgumentFault>
    ensures { Gives (λ x. x) result (file_of (seen_data arguments.entry)) }
{
    word_at(alloc, arguments, "driver", "file")?;
    none_but(alloc, arguments, ArgumentKeys::File)?;
    let filename = string_at(alloc, arguments, "filename")?;
    let node = id_at(alloc, arguments, "node-name")?;
    let read_only = truth_at(alloc, arguments, "read-only")?;
    let align = align_at(alloc, arguments)?;
    Ok(ImageFile {
        node,
        filename,
        align,
        read_only: read_only.unwrap_or(false),
    })
}

/// The image file that a value of `--blockdev` tells.
#[tactic(auto, unfolding(crate::specs::Values::image_in))]
pub(crate) fn image_in(alloc: Global, word: &str) -> Result<ImageFile, ArgumentFault>
    ensures { Gives (λ x. x) result (image_in word.now) }
{
    let value = value_in(alloc, word, Some("driver"))?;
    file_of(alloc, Some(&value))
}

/// The command that a value says.
#[tactic(auto, unfolding(crate::specs::Values::command_in))]
pub(crate) fn command_in(
    alloc: Global,
    name: CommandName,
    implied: &str,
    word: &str,
) -> Result<Command, ArgumentFault>
    ensures { Gives (λ x. x) result (command_in name implied.now word.now) }
{
    let value = value_in(alloc, word, Some(implied))?;
    name.read(alloc, Some(&value))
}

#[tactic(auto, unfolding(crate::specs::Values::port_at))]
fn port_at(alloc: Global, arguments: Option<&Value>) -> Result<u16, ArgumentFault>
    ensures { Gives (λ x. x) result (port_at (seen_data arguments.entry)) }
{
    match whole_at(alloc, arguments, "port")? {
        Some(port @ 0..=65535) => Ok(port as u16),
        _ => Err(invalid(alloc, "port")),
    }
}

#[tactic(auto, unfolding(crate::specs::Values::unix_of))]
fn unix_of(alloc: Global, arguments: Option<&Value>) -> Result<Listen, ArgumentFault>
    ensures { Gives (λ x. x) result (unix_of (seen_data arguments.entry)) }
{
    none_but(alloc, arguments, ArgumentKeys::Unix)?;
    let path = string_at(alloc, arguments, "path")?;
    Ok(Listen::Unix { path })
}

#[tactic(auto, unfolding(crate::specs::Values::inet_of))]
fn inet_of(alloc: Global, arguments: Option<&Value>) -> Result<Listen, ArgumentFault>
    ensures { Gives (λ x. x) result (inet_of (seen_data arguments.entry)) }
{
    none_but(alloc, arguments, ArgumentKeys::Inet)?;
    let host = string_at(alloc, arguments, "host")?;
    let port = port_at(alloc, arguments)?;
    Ok(Listen::Inet { host, port })
}

/// Whether the type of an address is `unix`; else it is `inet`.
#[tactic(auto, unfolding(crate::specs::Values::is_unix))]
fn is_unix(alloc: Global, arguments: Option<&Value>) -> Result<bool, ArgumentFault>
    ensures { Gives (λ x. x) result (is_unix (seen_data arguments.entry)) }
{
    match choice_at(alloc, arguments, "type", "unix", "inet")? {
        Some(unix) => Ok(unix),
        None => Err(missing(alloc, "type")),
    }
}

#[tactic(auto, unfolding(crate::specs::Values::address_of))]
fn address_of(alloc: Global, arguments: Option<&Value>) -> Result<Listen, ArgumentFault>
    ensures { Gives (λ x. x) result (address_of (seen_data arguments.entry)) }
{
    if is_unix(alloc, arguments)? {
        unix_of(alloc, arguments)
    } else {
        inet_of(alloc, arguments)
    }
}

#[tactic(auto, unfolding(crate::specs::Values::listener_of))]
fn listener_of(alloc: Global, arguments: Option<&Value>) -> Result<Listen, ArgumentFault>
    ensures { Gives (λ x. x) result (listener_of (seen_data arguments.entry)) }
{
    none_but(alloc, arguments, ArgumentKeys::Listener)?;
    address_of(alloc, argument(arguments, "addr"))
}

/// Where a value of `--nbd-server` lets the daemon listen.
#[tactic(auto, unfolding(crate::specs::Values::listen_in))]
pub(crate) fn listen_in(alloc: Global, word: &str) -> Result<Listen, ArgumentFault>
    ensures { Gives (λ x. x) result (listen_in word.now) }
{
    let value = value_in(alloc, word, None)?;
    listener_of(alloc, Some(&value))
}

#[tactic(auto, unfolding(crate::specs::Values::chardev_of))]
fn chardev_of(alloc: Global, arguments: Option<&Value>) -> Result<Name, ArgumentFault>
    ensures { Gives (λ x. x) result (chardev_of (seen_data arguments.entry)) }
{
    none_but(alloc, arguments, ArgumentKeys::Chardev)?;
    word_at(alloc, arguments, "backend", "stdio")?;
    id_at(alloc, arguments, "id")
}

/// The id of standard input and output that a value of `--chardev` gives.
#[tactic(auto, unfolding(crate::specs::Values::chardev_in))]
pub(crate) fn chardev_in(alloc: Global, word: &str) -> Result<Name, ArgumentFault>
    ensures { Gives (λ x. x) result (chardev_in word.now) }
{
    let value = value_in(alloc, word, Some("backend"))?;
    chardev_of(alloc, Some(&value))
}

fn is_named(chardev: Option<&Name>, id: &Name) -> bool
    ensures { result ≡ is_named (option_map (λ n. n.now) chardev.entry) id.now }
{
    match chardev {
        Some(chardev) => chardev.as_slice() == id.as_slice(),
        None => false,
    }
}

#[tactic(auto, unfolding(crate::specs::Values::monitor_of))]
fn monitor_of(
    alloc: Global,
    chardev: Option<&Name>,
    arguments: Option<&Value>,
) -> Result<(), ArgumentFault>
    ensures { Gives (λ x. x) result
        (monitor_of (option_map (λ n. n.now) chardev.entry) (seen_data arguments.entry)) }
{
    none_but(alloc, arguments, ArgumentKeys::Monitor)?;
    let id = id_at(alloc, arguments, "chardev")?;
    if is_named(chardev, &id) {
        Ok(())
    } else {
        Err(invalid(alloc, "chardev"))
    }
}

/// Refuses a value of `--monitor` that doesn't name this character device.
#[tactic(auto, unfolding(crate::specs::Values::monitor_in))]
pub(crate) fn monitor_in(
    alloc: Global,
    chardev: Option<&Name>,
    word: &str,
) -> Result<(), ArgumentFault>
    ensures { Gives (λ x. x) result (monitor_in (option_map (λ n. n.now) chardev.entry) word.now) }
{
    let value = value_in(alloc, word, Some("chardev"))?;
    monitor_of(alloc, chardev, Some(&value))
}

/// The number of threads that a value of `--workers` tells: one digit from 1 to 8.
pub(crate) fn workers_in(alloc: Global, word: &str) -> Result<u8, ArgumentFault>
    ensures { Gives (λ x. x) result (workers_in word.now) }
{
    match word.as_bytes() {
        [digit @ b'1'..=b'8'] => Ok(digit - b'0'),
        _ => Err(invalid(alloc, "workers")),
    }
}
