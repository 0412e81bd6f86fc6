ghost use Rattle.std.specs.Prelude.{◌≡◌, ◌<◌, IfOk};
ghost use Rattle.qs_graph.specs.Readings.{info_of, export_name_at};
ghost use Rattle.qs_graph.specs.Table.{fresh, info_at, Fits, answers};

use crate::export::{Export, is_same};
use crate::places::{self, PLACES};
use qs_bytes::{Memory, Name};
use qs_part::graph::{ExportInfo, GraphOp, GraphReply, Route, User};
use qs_part::part::Part;
use std::alloc::Global;
use std::marker::Model;

/// How many clients an export can have.
const MOST_CLIENTS: u16 = 1024;

/// The graph of nodes and exports: one file node over the whole image, and exports over that node.
///
/// Exports have 64 places; a new one takes the lowest that is free. They stand until the graph is
/// reset, and keep their places.
#[derive(Debug, Drop)]
pub struct Graph {
    /// The bytes of the image.
    size: u64,
    /// The name of the file node.
    file: Box<Name>,
    read_only: bool,
    /// The 64 places.
    places: Vec<Option<Export>>,
}

impl Model for Graph {
    ghost use Rattle.std.specs.Prelude.{◌≡◌, length};
    ghost use Rattle.qs_graph.specs.Table.{GraphValue};

    ghost Value = { GraphValue };

    ghost view = { λ g. record {
      size = g.size;
      file = g.file.value;
      read_only = g.read_only;
      places = g.places.items;
    } };

    ghost invariant = { λ g. length g.places.items ≡ 64 };
}

impl Graph {
    /// The graph of one file node of that name over an image of `size` bytes, without exports. It
    /// takes all the memory that it ever needs.
    pub fn new(alloc: Global, size: u64, file: Name, read_only: bool) -> Result<Self, Memory>
        ensures { IfOk result (λ g. g ≡ fresh size file read_only) }
    {
        Ok(Graph {
            size,
            file: Box::new(alloc, file)?,
            read_only,
            places: Vec::from_array(alloc, [None; PLACES])?,
        })
    }

    /// Whether the file may only be read.
    pub fn is_read_only(&self) -> bool
        ensures { result ≡ self.now.read_only }
    {
        self.read_only
    }

    /// Makes the graph what [`Graph::new`] made. It takes no memory.
    pub fn reset(&mut self)
        ensures { self.new ≡ fresh self.old.size self.old.file self.old.read_only }
    {
        self.places.fill(None);
    }

    /// The name of the file node.
    pub fn file(&self) -> Name
        ensures { result ≡ self.now.file }
    {
        *self.file
    }

    /// What a client learns of the export that a name means; the empty name means the one that was made
    /// first. `None` exactly where [`GraphOp::Find`] answers NoExport.
    pub fn export_info(&self, name: &Name) -> Option<ExportInfo>
        ensures { result ≡ info_of self.now name.now }
    {
        match places::find(&self.places, name) {
            Some(e) => Some(self.info(e)),
            None => None,
        }
    }

    /// The name of the standing export of this number in the order of making, from 0 on. `None` exactly
    /// where no more stand.
    pub fn export_name(&self, number: usize) -> Option<Name>
        ensures { result ≡ export_name_at self.now number }
    {
        match places::nth_standing(&self.places, number) {
            Some(export) => Some(export.name),
            None => None,
        }
    }

    fn add(
        &mut self,
        id: Name,
        name: Name,
        node: Name,
        writable: bool,
        share_write: bool,
    ) -> GraphReply
        ensures { answers self.old (GraphOp.ExportAdd id name node writable share_write) result self.new }
    {
        if let Some(e) = places::first_alike(&self.places, &id, &name) {
            return GraphReply::Duplicate(e as u8);
        }
        if !is_same(&node, &self.file) {
            return GraphReply::NoNode(node);
        }
        if writable && self.read_only {
            return GraphReply::ReadOnly(*self.file);
        }
        let export = Export::new(id, name, writable, share_write);
        if let Some(other) = places::first_against(&self.places, &export) {
            return GraphReply::Conflict(User::Export(other.id), User::Export(id));
        }
        match places::first_vacant(&self.places) {
            Some(e) => {
                self.places[e] = Some(export);
                GraphReply::Added(e as u8)
            }
            None => GraphReply::Full,
        }
    }

    fn info(&self, e: usize) -> ExportInfo
        requires { e < 64 }
        ensures { result ≡ info_at self.now e }
    {
        ExportInfo {
            e: e as u8,
            size: self.size,
            writable: places::writable(&self.places, e).unwrap_or(false),
        }
    }

    fn find(&self, name: Name) -> GraphReply
        ensures { answers self.now (GraphOp.Find name) result self.now }
    {
        match places::find(&self.places, &name) {
            Some(e) => GraphReply::Found(self.info(e)),
            None => GraphReply::NoExport,
        }
    }

    fn attach(&mut self, name: Name) -> GraphReply
        ensures { answers self.old (GraphOp.Attach name) result self.new }
    {
        let Some(e) = places::find(&self.places, &name) else {
            return GraphReply::NoExport;
        };
        let clients = places::clients(&self.places, e);
        if clients >= MOST_CLIENTS {
            return GraphReply::Crowded;
        }
        let info = self.info(e);
        places::set_clients(&mut self.places, e, clients + 1);
        GraphReply::Attached(info)
    }

    fn detach(&mut self, e: u8) -> GraphReply
        ensures { answers self.old (GraphOp.Detach e) result self.new }
    {
        let e = usize::from(e);
        let clients = places::clients(&self.places, e);
        if clients == 0 {
            return GraphReply::NotAttached;
        }
        places::set_clients(&mut self.places, e, clients - 1);
        GraphReply::Detached
    }

    fn route(&self, e: u8) -> GraphReply
        ensures { answers self.now (GraphOp.Route e) result self.now }
    {
        match places::writable(&self.places, usize::from(e)) {
            Some(writable) => GraphReply::Routed(Route {
                offset: 0,
                size: self.size,
                writable,
                groups: [(0, 0); 8],
                count: 0,
            }),
            None => GraphReply::Shutting,
        }
    }
}

impl Part for Graph {
    type Fixed = u64;

    type Op = GraphOp;

    type Reply = GraphReply;

    ghost fixed_of = { λ g. g.size };

    ghost can = { Fits };

    ghost legal = { answers };

    fn fixed(&self) -> u64 {
        self.size
    }

    fn fits(_size: &u64, op: &GraphOp) -> bool {
        matches!(
            op,
            GraphOp::ExportAdd { .. }
                | GraphOp::Find { .. }
                | GraphOp::Attach { .. }
                | GraphOp::Detach { .. }
                | GraphOp::Route { .. }
        )
    }

    fn step(&mut self, op: GraphOp) -> GraphReply {
        match op {
            GraphOp::ExportAdd {
                id,
                name,
                node,
                writable,
                share_write,
            } => self.add(id, name, node, writable, share_write),
            GraphOp::Find { name } => self.find(name),
            GraphOp::Attach { name } => self.attach(name),
            GraphOp::Detach { e } => self.detach(e),
            GraphOp::Route { e } => self.route(e),
            _ => unreachable!(),
        }
    }
}

#[cfg(test)]
mod tests;
