ghost use Rattle.std.specs.Prelude.{◌≡◌, codes, option_and_then};
ghost use Rattle.qs_qmp_arguments.specs.Arguments.{argument, seen_data};
ghost use Rattle.qs_qmp_arguments.specs.Kinds.{only_object};
ghost use Rattle.qs_qmp_arguments.specs.Problems.{Gives};
ghost use Rattle.qs_qmp_arguments.specs.Commands.{blockdev_add, blockdev_del, blockdev_reopen, command_by, command_named, command_with, export_add, export_del, object_add, object_del, options_of, plain};

use crate::arguments::{
    are_arguments, argument, choice_at, id_at, name_at, needs, none_but, truth_at, word_at,
};
use crate::fault::{ArgumentFault, invalid};
use crate::keys::ArgumentKeys;
use crate::kinds::only_object;
use crate::limiting::{checked, limits_at};
use crate::node::{Node, node_of};
use qs_command::Command;
use serde_json::Value;
use std::alloc::Global;

/// The commands that are asked by their names after the negotiation.
#[derive(Clone, Copy, Debug, PartialEq, Eq)]
pub enum CommandName {
    BlockdevAdd,
    BlockdevDel,
    BlockdevReopen,
    ObjectAdd,
    ObjectDel,
    BlockExportAdd,
    BlockExportDel,
    QueryBlockExports,
    QueryNamedBlockNodes,
    Quit,
}

impl CommandName {
    /// The command of this name.
    pub fn named(name: &str) -> Option<CommandName>
        ensures { result ≡ command_named name.now }
    {
        match name {
            "blockdev-add" => Some(CommandName::BlockdevAdd),
            "blockdev-del" => Some(CommandName::BlockdevDel),
            "blockdev-reopen" => Some(CommandName::BlockdevReopen),
            "object-add" => Some(CommandName::ObjectAdd),
            "object-del" => Some(CommandName::ObjectDel),
            "block-export-add" => Some(CommandName::BlockExportAdd),
            "block-export-del" => Some(CommandName::BlockExportDel),
            "query-block-exports" => Some(CommandName::QueryBlockExports),
            "query-named-block-nodes" => Some(CommandName::QueryNamedBlockNodes),
            "quit" => Some(CommandName::Quit),
            _ => None,
        }
    }

    /// Reads the command's arguments, which are an object where they are there.
    ///
    /// The first refusal that applies is answered: of the driver of a node, of missing arguments in the order in
    /// which QAPI has them, of unknown ones and invalid ones in rising order of bytes, and of limits that break
    /// a rule.
    #[tactic(auto, unfolding(crate::specs::Commands::command_with))]
    pub fn read(self, alloc: Global, arguments: Option<&Value>) -> Result<Command, ArgumentFault>
        ensures { Gives (λ x. x) result (command_with self (seen_data arguments.entry)) }
    {
        are_arguments(alloc, arguments)?;
        self.with_arguments(alloc, arguments)
    }

    /// The command with its arguments.
    fn with_arguments(
        self,
        alloc: Global,
        arguments: Option<&Value>,
    ) -> Result<Command, ArgumentFault>
        ensures { Gives (λ x. x) result (command_by self (seen_data arguments.entry)) }
    {
        match self {
            CommandName::BlockdevAdd => blockdev_add(alloc, arguments),
            CommandName::BlockdevDel => blockdev_del(alloc, arguments),
            CommandName::BlockdevReopen => blockdev_reopen(alloc, arguments),
            CommandName::ObjectAdd => object_add(alloc, arguments),
            CommandName::ObjectDel => object_del(alloc, arguments),
            CommandName::BlockExportAdd => export_add(alloc, arguments),
            CommandName::BlockExportDel => export_del(alloc, arguments),
            CommandName::QueryBlockExports => plain(alloc, arguments, Command::ListExports),
            CommandName::QueryNamedBlockNodes => plain(alloc, arguments, Command::ListNodes),
            CommandName::Quit => plain(alloc, arguments, Command::Quit),
        }
    }
}

#[tactic(auto, unfolding(crate::specs::Commands::blockdev_add))]
fn blockdev_add(alloc: Global, arguments: Option<&Value>) -> Result<Command, ArgumentFault>
    ensures { Gives (λ x. x) result (blockdev_add (seen_data arguments.entry)) }
{
    let node = node_of(alloc, arguments, false)?;
    Ok(node.added())
}

#[tactic(auto, unfolding(crate::specs::Commands::blockdev_del))]
fn blockdev_del(alloc: Global, arguments: Option<&Value>) -> Result<Command, ArgumentFault>
    ensures { Gives (λ x. x) result (blockdev_del (seen_data arguments.entry)) }
{
    needs(alloc, arguments, "node-name")?;
    none_but(alloc, arguments, ArgumentKeys::Node)?;
    let name = id_at(alloc, arguments, "node-name")?;
    Ok(Command::Del { name })
}

/// The node of the options. What is wrong in them makes them invalid.
fn options_of(alloc: Global, options: Option<&Value>) -> Result<Node, ArgumentFault>
    ensures { Gives (λ x. x) result (options_of (seen_data options.entry)) }
{
    match options {
        None => Err(invalid(alloc, "options")),
        Some(options) => match node_of(alloc, Some(options), true) {
            Ok(node) => Ok(node),
            Err(ArgumentFault::Memory) => Err(ArgumentFault::Memory),
            Err(ArgumentFault::Refused { .. }) => Err(invalid(alloc, "options")),
        },
    }
}

/// The one object of the argument `options`.
fn options_in(arguments: Option<&Value>) -> Option<&Value>
    ensures { seen_data result
        ≡ option_and_then only_object (argument (codes "options") (seen_data arguments.entry)) }
{
    match argument(arguments, "options") {
        Some(options) => only_object(options),
        None => None,
    }
}

#[tactic(auto, unfolding(crate::specs::Commands::blockdev_reopen))]
fn blockdev_reopen(alloc: Global, arguments: Option<&Value>) -> Result<Command, ArgumentFault>
    ensures { Gives (λ x. x) result (blockdev_reopen (seen_data arguments.entry)) }
{
    needs(alloc, arguments, "options")?;
    none_but(alloc, arguments, ArgumentKeys::Reopen)?;
    let node = options_of(alloc, options_in(arguments))?;
    Ok(node.reopened())
}

#[tactic(auto, unfolding(crate::specs::Commands::object_add))]
fn object_add(alloc: Global, arguments: Option<&Value>) -> Result<Command, ArgumentFault>
    ensures { Gives (λ x. x) result (object_add (seen_data arguments.entry)) }
{
    needs(alloc, arguments, "qom-type")?;
    needs(alloc, arguments, "id")?;
    none_but(alloc, arguments, ArgumentKeys::ObjectAdd)?;
    let id = id_at(alloc, arguments, "id")?;
    let limits = limits_at(alloc, arguments)?;
    word_at(alloc, arguments, "qom-type", "throttle-group")?;
    let limits = checked(alloc, limits)?;
    Ok(Command::GroupAdd { id, limits })
}

#[tactic(auto, unfolding(crate::specs::Commands::object_del))]
fn object_del(alloc: Global, arguments: Option<&Value>) -> Result<Command, ArgumentFault>
    ensures { Gives (λ x. x) result (object_del (seen_data arguments.entry)) }
{
    needs(alloc, arguments, "id")?;
    none_but(alloc, arguments, ArgumentKeys::Object)?;
    let id = id_at(alloc, arguments, "id")?;
    Ok(Command::GroupDel { id })
}

#[tactic(auto, unfolding(crate::specs::Commands::export_add))]
fn export_add(alloc: Global, arguments: Option<&Value>) -> Result<Command, ArgumentFault>
    ensures { Gives (λ x. x) result (export_add (seen_data arguments.entry)) }
{
    needs(alloc, arguments, "type")?;
    needs(alloc, arguments, "id")?;
    needs(alloc, arguments, "node-name")?;
    none_but(alloc, arguments, ArgumentKeys::ExportAdd)?;
    let id = id_at(alloc, arguments, "id")?;
    let name = name_at(alloc, arguments, "name")?;
    let node = id_at(alloc, arguments, "node-name")?;
    word_at(alloc, arguments, "type", "nbd")?;
    let writable = truth_at(alloc, arguments, "writable")?;
    let share_write = choice_at(alloc, arguments, "x-share", "all", "read")?;
    Ok(Command::ExportAdd {
        id,
        name: name.unwrap_or(node),
        node,
        writable: writable.unwrap_or(false),
        share_write: share_write.unwrap_or(true),
    })
}

#[tactic(auto, unfolding(crate::specs::Commands::export_del))]
fn export_del(alloc: Global, arguments: Option<&Value>) -> Result<Command, ArgumentFault>
    ensures { Gives (λ x. x) result (export_del (seen_data arguments.entry)) }
{
    needs(alloc, arguments, "id")?;
    none_but(alloc, arguments, ArgumentKeys::ExportDel)?;
    let id = id_at(alloc, arguments, "id")?;
    let hard = choice_at(alloc, arguments, "mode", "hard", "safe")?;
    Ok(Command::ExportDel {
        id,
        hard: hard.unwrap_or(false),
    })
}

/// A command that takes no arguments.
#[tactic(auto, unfolding(crate::specs::Commands::plain))]
fn plain(
    alloc: Global,
    arguments: Option<&Value>,
    command: Command,
) -> Result<Command, ArgumentFault>
    ensures { Gives (λ x. x) result (plain command (seen_data arguments.entry)) }
{
    none_but(alloc, arguments, ArgumentKeys::Nothing)?;
    Ok(command)
}
