use qs_bytes::Name;
use qs_part::graph::User;
use qs_part::table::{ExportRow, NodeRow, Table};

/// Why a command was refused. Sizes are in bytes.
#[derive(Clone, Copy, Debug, PartialEq, Eq)]
pub enum Refusal {
    /// The name, or the id, is taken.
    Duplicate { name: Name },
    /// There is no such node.
    NoNode { node: Name },
    /// There is no such throttle group.
    NoGroup { group: Name },
    /// There is no such export.
    NoExport { export: Name },
    /// The part that is wanted passes the end of this node.
    OutOfRange { node: Name, size: u64 },
    /// More throttle nodes would stand over one another than may.
    Deep,
    /// There is no place for one more.
    Full,
    /// The node is the image file, which stays.
    Root { node: Name },
    /// The node is in use.
    NodeInUse { node: Name, user: User },
    /// The throttle group is in use.
    GroupInUse { group: Name, user: User },
    /// The node has another driver.
    OtherKind { node: Name },
    /// The node stands over another child.
    OtherFile { node: Name },
    /// A writable export would stand over this read-only node.
    ReadOnly { node: Name },
    /// One of the two takes what the other doesn't share.
    Conflict(User, User),
    /// The export has so many clients.
    Connected { export: Name, clients: u16 },
}

/// How a command ended.
#[derive(Debug, Drop)]
pub enum JobEnd {
    /// It did what it says, and tells nothing.
    Fine,
    /// The nodes.
    Nodes(Table<NodeRow>),
    /// The exports.
    Exports(Table<ExportRow>),
    /// The export of this id was deleted.
    Deleted(Name),
    /// The daemon ends. `synced` where every stripe could be synced.
    Quit { synced: bool },
    /// It was refused, and changed nothing.
    Refused(Refusal),
    /// Memory was refused, and nothing changed.
    Memory,
}
