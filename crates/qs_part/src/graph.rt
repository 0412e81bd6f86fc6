use crate::table::{ExportRow, NodeRow, Table};
use qs_bytes::Name;

/// One that uses a node: a node above it, or an export by its id.
#[derive(Clone, Copy, Debug, PartialEq, Eq)]
pub enum User {
    Node(Name),
    Export(Name),
}

/// What a client learns of the export at place `e`. `size` is in bytes.
#[derive(Clone, Copy, Debug, PartialEq, Eq)]
pub struct ExportInfo {
    pub e: u8,
    pub size: u64,
    pub writable: bool,
}

/// The walk from an export down to the image: the bytes that offsets are moved by, the export's
/// size in bytes, whether it may be written, and the first `count` pairs of a throttle group's slot
/// and a member of it, from the export downward.
#[derive(Clone, Copy, Debug, PartialEq, Eq)]
pub struct Route {
    pub offset: u64,
    pub size: u64,
    pub writable: bool,
    pub groups: [(u8, u8); 8],
    pub count: u8,
}

/// An operation of the graph of nodes, groups and exports. Offsets and sizes are in bytes.
#[derive(Debug, Drop)]
pub enum GraphOp {
    /// Adds a node that shows a part of its child. Without a size it is the rest of the child.
    AddRaw {
        name: Name,
        child: Name,
        offset: u64,
        size: Option<u64>,
        read_only: bool,
    },
    /// Adds a node whose requests keep the limits of a throttle group.
    AddThrottle {
        name: Name,
        child: Name,
        group: Name,
        read_only: bool,
    },
    /// Deletes a node that has no user.
    Del {
        name: Name,
    },
    /// Gives a node made by AddRaw another offset and size.
    ReopenRaw {
        name: Name,
        child: Name,
        offset: u64,
        size: Option<u64>,
    },
    /// Gives a node made by AddThrottle another group.
    ReopenThrottle {
        name: Name,
        child: Name,
        group: Name,
    },
    /// Adds a throttle group.
    GroupAdd {
        id: Name,
    },
    /// Deletes a throttle group that no node is a member of.
    GroupDel {
        id: Name,
    },
    /// Exports a node to clients under a name. `share_write` where others may write as well.
    ExportAdd {
        id: Name,
        name: Name,
        node: Name,
        writable: bool,
        share_write: bool,
    },
    /// Deletes an export: one that has clients only where it is `hard`.
    ExportDel {
        id: Name,
        hard: bool,
    },
    /// Looks an export up by its name; the empty name is the export that was made first.
    Find {
        name: Name,
    },
    /// Looks an export up and counts one more client of it.
    Attach {
        name: Name,
    },
    /// Counts one client less of the export at place `e`.
    Detach {
        e: u8,
    },
    /// Asks for the way from the export at place `e` to the image.
    Route {
        e: u8,
    },
    /// Fills the table with the nodes.
    ListNodes {
        table: Table<NodeRow>,
    },
    /// Fills the table with the exports.
    ListExports {
        table: Table<ExportRow>,
    },
}

/// What the graph answers.
#[derive(Debug, Drop)]
pub enum GraphReply {
    /// AddRaw and AddThrottle: the place of the node that has the name. GroupAdd: the slot of the group of
    /// that id. ExportAdd: the lowest place of an export with that id or name.
    Duplicate(u8),
    /// There is no node of this name.
    NoNode(Name),
    /// There is no group of that id.
    NoGroup,
    /// AddRaw and ReopenRaw: the part passes the end of the child, which has so many bytes.
    OutOfRange(u64),
    /// AddThrottle: the path down would have more than 8 throttle nodes.
    Deep,
    /// All places are taken.
    Full,
    /// Memory was refused.
    Memory,
    /// The place of the new node or export, or the slot of the new group.
    Added(u8),
    /// Del: the node is the file node.
    Root,
    /// Del, ReopenRaw and GroupDel: the first user in order of making, nodes before exports.
    InUse(User),
    /// Del, GroupDel and ExportDel: it is gone.
    Gone,
    /// A reopen: the node has another driver.
    OtherKind,
    /// A reopen: the node has another child.
    OtherFile,
    /// A reopen: it is done.
    Reopened,
    /// ExportAdd: this node is read-only.
    ReadOnly(Name),
    /// ExportAdd: these two don't share what the other takes.
    Conflict(User, User),
    /// ExportDel: no export of that id stands. Find and Attach: none of that name.
    NoExport,
    /// ExportDel: the export has so many clients.
    Connected(u16),
    /// Find.
    Found(ExportInfo),
    /// Attach: the export has 1,024 clients.
    Crowded,
    /// Attach: the export has one client more.
    Attached(ExportInfo),
    /// Detach: the export has no client.
    NotAttached,
    /// Detach: the export has one client less.
    Detached,
    /// Route: the export doesn't stand any more.
    Shutting,
    /// Route: the way to the image.
    Routed(Route),
    /// ListNodes: the nodes in the order in which they were made.
    Nodes(Table<NodeRow>),
    /// ListExports: the exports in the order in which they were made.
    Exports(Table<ExportRow>),
}
