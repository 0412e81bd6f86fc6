ghost use Rattle.std.specs.Prelude.{◌≡◌};
ghost use Rattle.qs_qmp_arguments.specs.Arguments.{seen_data};
ghost use Rattle.qs_qmp_arguments.specs.Problems.{Gives};
ghost use Rattle.qs_qmp_arguments.specs.Commands.{adding, is_raw, node_of, raw_of, reopened, throttle_of};

use crate::arguments::{choice_at, id_at, needs, none_but, truth_at, whole_at};
use crate::fault::{ArgumentFault, missing};
use crate::keys::ArgumentKeys;
use qs_bytes::Name;
use qs_command::Command;
use serde_json::Value;
use std::alloc::Global;

/// A node as arguments say it. Offset and size are in bytes.
#[derive(Clone, Copy, Debug, PartialEq, Eq)]
pub(crate) enum Node {
    Raw {
        name: Name,
        child: Name,
        offset: u64,
        size: Option<u64>,
        read_only: bool,
    },
    Throttle {
        name: Name,
        child: Name,
        group: Name,
        read_only: bool,
    },
}

/// Whether the driver is `raw`; else it is `throttle`.
#[tactic(auto, unfolding(crate::specs::Commands::is_raw))]
fn is_raw(alloc: Global, arguments: Option<&Value>) -> Result<bool, ArgumentFault>
    ensures { Gives (λ x. x) result (is_raw (seen_data arguments.entry)) }
{
    match choice_at(alloc, arguments, "driver", "raw", "throttle")? {
        Some(raw) => Ok(raw),
        None => Err(missing(alloc, "driver")),
    }
}

#[tactic(auto, unfolding(crate::specs::Commands::raw_of))]
fn raw_of(alloc: Global, arguments: Option<&Value>, again: bool) -> Result<Node, ArgumentFault>
    ensures { Gives (λ x. x) result (raw_of again (seen_data arguments.entry)) }
{
    needs(alloc, arguments, "node-name")?;
    needs(alloc, arguments, "file")?;
    none_but(alloc, arguments, ArgumentKeys::Raw { again })?;
    let child = id_at(alloc, arguments, "file")?;
    let name = id_at(alloc, arguments, "node-name")?;
    let offset = whole_at(alloc, arguments, "offset")?;
    let read_only = truth_at(alloc, arguments, "read-only")?;
    let size = whole_at(alloc, arguments, "size")?;
    Ok(Node::Raw {
        name,
        child,
        offset: offset.unwrap_or(0),
        size,
        read_only: read_only.unwrap_or(false),
    })
}

#[tactic(auto, unfolding(crate::specs::Commands::throttle_of))]
fn throttle_of(alloc: Global, arguments: Option<&Value>, again: bool) -> Result<Node, ArgumentFault>
    ensures { Gives (λ x. x) result (throttle_of again (seen_data arguments.entry)) }
{
    needs(alloc, arguments, "node-name")?;
    needs(alloc, arguments, "file")?;
    needs(alloc, arguments, "throttle-group")?;
    none_but(alloc, arguments, ArgumentKeys::Throttle { again })?;
    let child = id_at(alloc, arguments, "file")?;
    let name = id_at(alloc, arguments, "node-name")?;
    let read_only = truth_at(alloc, arguments, "read-only")?;
    let group = id_at(alloc, arguments, "throttle-group")?;
    Ok(Node::Throttle {
        name,
        child,
        group,
        read_only: read_only.unwrap_or(false),
    })
}

/// The node that arguments say: a new one, or one that is there already (`again`).
#[tactic(auto, unfolding(crate::specs::Commands::node_of))]
pub(crate) fn node_of(
    alloc: Global,
    arguments: Option<&Value>,
    again: bool,
) -> Result<Node, ArgumentFault>
    ensures { Gives (λ x. x) result (node_of again (seen_data arguments.entry)) }
{
    if is_raw(alloc, arguments)? {
        raw_of(alloc, arguments, again)
    } else {
        throttle_of(alloc, arguments, again)
    }
}

impl Node {
    /// The command that adds the node.
    pub(crate) fn added(self) -> Command
        ensures { result ≡ adding self }
    {
        match self {
            Node::Raw {
                name,
                child,
                offset,
                size,
                read_only,
            } => Command::AddRaw {
                name,
                child,
                offset,
                size,
                read_only,
            },
            Node::Throttle {
                name,
                child,
                group,
                read_only,
            } => Command::AddThrottle {
                name,
                child,
                group,
                read_only,
            },
        }
    }

    /// The command that makes the node of this name so.
    pub(crate) fn reopened(self) -> Command
        ensures { result ≡ reopened self }
    {
        match self {
            Node::Raw {
                name,
                child,
                offset,
                size,
                ..
            } => Command::ReopenRaw {
                name,
                child,
                offset,
                size,
            },
            Node::Throttle {
                name,
                child,
                group,
                ..
            } => Command::ReopenThrottle { name, child, group },
        }
    }
}
