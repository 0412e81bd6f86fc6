ghost use Rattle.std.specs.Prelude.{◌≡◌, ◌<◌, ◌++◌, ◌∷◌, [], length, IfOk};

use qs_bytes::{Memory, Name};
use std::alloc::Global;
use std::marker::Model;

/// How many rows a table has room for: as many nodes, or exports, as there can be.
pub const ROWS: usize = 64;

/// What a node does with requests.
#[derive(Clone, Copy, Debug, PartialEq, Eq)]
pub enum Driver {
    /// It is the image file.
    File,
    /// It shows a part of its child.
    Raw,
    /// It holds requests back by the limits of a throttle group.
    Throttle,
}

/// A node as a query shows it (QMP's query-named-block-nodes).
#[derive(Clone, Copy, Debug, PartialEq, Eq)]
pub struct NodeRow {
    pub name: Name,
    pub driver: Driver,
    pub read_only: bool,
}

/// An export as a query shows it. `shutting` where it was deleted while it had clients.
#[derive(Clone, Copy, Debug, PartialEq, Eq)]
pub struct ExportRow {
    pub id: Name,
    pub name: Name,
    pub node: Name,
    pub shutting: bool,
}

/// What a query answers: up to 64 rows in order of making, seen as the list of them.
#[derive(Debug, Drop)]
pub struct Table<R> {
    rows: Vec<R>,
}

impl<R> Model for Table<R> {
    ghost use Rattle.std.specs.Prelude.{◌≤◌, List, length, vec_capacity};

    ghost Value = { List R };

    ghost view = { λ t. t.rows.items };

    ghost invariant = { λ t. 64 ≤ vec_capacity t.rows };
}

impl<R: Copy> Table<R> {
    /// A table without rows. It takes all the memory that it ever needs.
    pub fn new(alloc: Global) -> Result<Self, Memory>
        ensures { IfOk result (λ t. t ≡ []) }
    {
        Ok(Table {
            rows: Vec::with_capacity(alloc, ROWS)?,
        })
    }

    /// The rows.
    pub fn rows(&self) -> &[R]
        ensures { result.now ≡ self.now }
    {
        self.rows.as_slice()
    }

    /// Gives the table one more row, the last. It takes no memory.
    pub fn push(&mut self, row: R)
        requires { length self.old < 64 }
        ensures { self.new ≡ self.old ++ row ∷ [] }
    {
        match self.rows.push(row) {
            Ok(()) => {}
            Err(_) => unreachable!(),
        }
    }

    /// Drops all rows. The table keeps its room.
    pub fn clear(&mut self)
        ensures { self.new ≡ [] }
    {
        self.rows.clear();
    }
}

#[cfg(test)]
mod tests;
