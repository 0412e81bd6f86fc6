ghost use Rattle.std.specs.Prelude.{◌≡◌, ◌+◌, ◌<◌, ◌≤◌, [], find, length, position, IfSome, Some};
ghost use Rattle.std.specs.List.{slice_get, slice_set};
ghost use Rattle.qs_exports.specs.Standing.{is_meant_by, has_alike_at, first_id_over, has_standing_id, is_over_node, is_place_taken, stands_at, AreSeated, LowestAlike, LowestFreePlace};
ghost use Rattle.qs_exports.specs.Changes.{ended_at, less_one, AddsExport, Attaches, DeletesExport, Detaches};

use crate::export::{Export, NewExport, Refused};
use qs_bytes::{Memory, Name};
use std::alloc::Global;
use std::marker::Model;

/// How many exports can stand.
pub const PLACES: u8 = 64;

/// How many clients an export can have.
pub const MOST_CLIENTS: u16 = 1024;

/// The exports, seen as the list of them in the order in which they were made.
///
/// There are 64 places; a new export takes the lowest that is free, and keeps it. One that is deleted
/// while it has clients keeps its place until the last of them is gone.
#[derive(Debug, Drop)]
pub struct Exports {
    list: Vec<Export>,
}

impl Model for Exports {
    ghost use Rattle.std.specs.Prelude.{List};
    ghost use Rattle.qs_exports.specs.declared.export.Export.{Export as AnExport};
    ghost use Rattle.qs_exports.specs.Standing.{AreSeated};

    ghost Value = { List AnExport };

    ghost view = { λ e. e.list.items };

    ghost invariant = { λ e. AreSeated e.list.items };
}

impl Exports {
    /// No export. It takes no memory.
    pub fn new(alloc: Global) -> Self
        ensures { result ≡ [] }
    {
        Exports {
            list: Vec::new(alloc),
        }
    }

    /// Lets all exports go. It takes no memory.
    pub fn clear(&mut self)
        ensures { self.new ≡ [] }
    {
        self.list.clear();
    }

    /// The exports in the order in which they were made, those that are shutting among them.
    pub fn as_slice(&self) -> &[Export]
        ensures { result.now ≡ self.now }
    {
        self.list.as_slice()
    }

    /// The lowest place of a standing export with this id or this name.
    pub fn alike(&self, id: &Name, name: &Name) -> Option<u8>
        ensures { LowestAlike self.now id.now name.now result }
    {
        for place in 0..PLACES {
            if self.has_alike_at(id, name, place) {
                return Some(place);
            }
        }
        None
    }

    fn has_alike_at(&self, id: &Name, name: &Name, place: u8) -> bool
        ensures { result ≡ has_alike_at self.now id.now name.now place }
    {
        self.list.iter().any(|export| export.is_alike(id, name) && export.stands_at(place))
    }

    fn lowest_free(&self) -> Option<u8>
        ensures { LowestFreePlace self.now result }
    {
        for place in 0..PLACES {
            if !self.is_taken(place) {
                return Some(place);
            }
        }
        None
    }

    fn is_taken(&self, place: u8) -> bool
        ensures { result ≡ is_place_taken self.now place }
    {
        self.list.iter().any(|export| export.stands_at(place))
    }

    /// Makes an export without clients at the lowest free place, which is answered (QMP's
    /// block-export-add).
    ///
    /// # Errors
    ///
    /// `Duplicate`, `Full`, `Memory`, in this order.
    pub fn add(&mut self, made: NewExport) -> Result<u8, Refused>
        ensures { AddsExport self.old made result self.new }
    {
        if let Some(place) = self.alike(&made.id, &made.name) {
            return Err(Refused::Duplicate(place));
        }
        let Some(place) = self.lowest_free() else {
            return Err(Refused::Full);
        };
        let export = Export {
            made,
            place,
            clients: 0,
            shutting: false,
        };
        if self.list.push(export).is_err() {
            return Err(Refused::Memory);
        }
        Ok(place)
    }

    /// The export at a place; one that is shutting as well.
    pub fn at(&self, place: u8) -> Option<Export>
        ensures { result ≡ find (stands_at place) self.now }
    {
        self.list
            .iter()
            .copied()
            .find(|export| export.stands_at(place))
    }

    /// The standing export that a client means by a name; the empty name means the one that was made
    /// first (this server's answer to the default export of NBD proto.md, `NBD_OPT_EXPORT_NAME`).
    pub fn named(&self, name: &Name) -> Option<Export>
        ensures { result ≡ find (is_meant_by name.now) self.now }
    {
        self.list
            .iter()
            .copied()
            .find(|export| export.answers_to(name))
    }

    fn over(&self, node: u8) -> Option<Export>
        ensures { result ≡ find (is_over_node node) self.now }
    {
        self.list
            .iter()
            .copied()
            .find(|export| export.is_over_node(node))
    }

    /// The id of the first export over the node at a place, in order of making; one that is shutting
    /// uses its node as well.
    pub fn first_over(&self, node: u8) -> Option<Name>
        ensures { result ≡ first_id_over self.now node }
    {
        match self.over(node) {
            Some(export) => Some(export.made.id),
            None => None,
        }
    }

    fn index_named(&self, name: &Name) -> Option<usize>
        ensures at { result ≡ position (is_meant_by name.now) self.now }
        ensures inside { IfSome result (λ at. at < length self.now) }
    {
        self.list.iter().position(|export| export.answers_to(name))
    }

    fn index_at(&self, place: u8) -> Option<usize>
        ensures at { result ≡ position (stands_at place) self.now }
        ensures inside { IfSome result (λ at. at < length self.now) }
    {
        self.list.iter().position(|export| export.stands_at(place))
    }

    fn index_of_id(&self, id: &Name) -> Option<usize>
        ensures at { result ≡ position (has_standing_id id.now) self.now }
        ensures inside { IfSome result (λ at. at < length self.now) }
    {
        self.list
            .iter()
            .position(|export| export.has_standing_id(id))
    }

    fn element(&self, at: usize) -> Export
        requires inside { at < length self.now }
        ensures here { slice_get self.now at ≡ Some result }
        ensures few { result.clients < 1025 }
    {
        self.list[at]
    }

    fn put(&mut self, at: usize, old: Export, export: Export)
        requires here { slice_get self.old at ≡ Some old }
        requires place { export.place ≡ old.place }
        requires few { export.clients < 1025 }
        ensures { self.new ≡ slice_set self.old at export }
    {
        self.list[at] = export;
    }

    fn join(&mut self, at: usize, export: Export)
        requires here { slice_get self.old at ≡ Some export }
        requires few { export.clients < 1024 }
        ensures { self.new ≡ slice_set self.old at (record export { clients = export.clients + 1 }) }
    {
        let clients = export.clients + 1;
        self.put(at, export, Export { clients, ..export });
    }

    fn leave(&mut self, at: usize, export: Export)
        requires here { slice_get self.old at ≡ Some export }
        requires some { 0 < export.clients }
        requires few { export.clients < 1025 }
        ensures { self.new ≡ less_one self.old at export }
    {
        if export.is_last() {
            self.list.remove(at);
        } else {
            let clients = export.clients - 1;
            self.put(at, export, Export { clients, ..export });
        }
    }

    fn end(&mut self, at: usize, export: Export)
        requires here { slice_get self.old at ≡ Some export }
        requires few { export.clients < 1025 }
        ensures { self.new ≡ ended_at self.old at export }
    {
        if export.clients == 0 {
            self.list.remove(at);
        } else {
            let shutting = true;
            self.put(at, export, Export { shutting, ..export });
        }
    }

    /// Gives the standing export that a name means one client more, and answers it as it is then.
    ///
    /// # Errors
    ///
    /// `NoExport`, `Crowded`, in this order.
    pub fn attach(&mut self, name: &Name) -> Result<Export, Refused>
        ensures { Attaches self.old name.now result self.new }
    {
        let Some(at) = self.index_named(name) else {
            return Err(Refused::NoExport);
        };
        let export = self.element(at);
        if export.clients >= MOST_CLIENTS {
            return Err(Refused::Crowded);
        }
        self.join(at, export);
        Ok(self.element(at))
    }

    /// Gives the export at a place one client less. One that is shutting goes with the last.
    ///
    /// # Errors
    ///
    /// `NotAttached` where it has none.
    pub fn detach(&mut self, place: u8) -> Result<(), Refused>
        ensures { Detaches self.old place result self.new }
    {
        let Some(at) = self.index_at(place) else {
            return Err(Refused::NotAttached);
        };
        let export = self.element(at);
        if export.clients == 0 {
            return Err(Refused::NotAttached);
        }
        self.leave(at, export);
        Ok(())
    }

    /// Deletes the standing export of this id. One that has clients is deleted only where it is `hard`:
    /// then it doesn't stand any more, and is gone with its last client (QMP's block-export-del).
    ///
    /// # Errors
    ///
    /// `NoExport`, `Connected`, in this order.
    pub fn del(&mut self, id: &Name, hard: bool) -> Result<(), Refused>
        ensures { DeletesExport self.old id.now hard result self.new }
    {
        let Some(at) = self.index_of_id(id) else {
            return Err(Refused::NoExport);
        };
        let export = self.element(at);
        if export.clients > 0 && !hard {
            return Err(Refused::Connected(export.clients));
        }
        self.end(at, export);
        Ok(())
    }
}

#[cfg(test)]
mod tests;
