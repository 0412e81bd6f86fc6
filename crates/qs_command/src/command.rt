use crate::checked::CheckedLimits;
use qs_bytes::Name;

/// A command, with what it is asked with. Offsets and sizes are in bytes.
#[derive(Clone, Copy, Debug, PartialEq, Eq)]
pub enum Command {
    /// Adds a node that shows a part of its child. Without a size it is the rest of the child.
    AddRaw {
        name: Name,
        child: Name,
        offset: u64,
        size: Option<u64>,
        read_only: bool,
    },
    /// Adds a node whose requests keep the limits of a throttle group.
    AddThrottle {
        name: Name,
        child: Name,
        group: Name,
        read_only: bool,
    },
    /// Deletes a node.
    Del {
        name: Name,
    },
    /// Gives a node made by AddRaw another offset and size.
    ReopenRaw {
        name: Name,
        child: Name,
        offset: u64,
        size: Option<u64>,
    },
    /// Gives a node made by AddThrottle another group.
    ReopenThrottle {
        name: Name,
        child: Name,
        group: Name,
    },
    /// Adds a throttle group.
    GroupAdd {
        id: Name,
        limits: CheckedLimits,
    },
    /// Deletes a throttle group.
    GroupDel {
        id: Name,
    },
    /// Exports a node to clients under a name. `share_write` where others may write as well.
    ExportAdd {
        id: Name,
        name: Name,
        node: Name,
        writable: bool,
        share_write: bool,
    },
    /// Deletes an export: one that has clients only where it is `hard`.
    ExportDel {
        id: Name,
        hard: bool,
    },
    /// Lists the exports.
    ListExports,
    /// Lists the nodes.
    ListNodes,
    /// Ends the daemon.
    Quit,
}
