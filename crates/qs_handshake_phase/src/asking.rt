//! What the graph is asked for the answer to an option.
ghost use Rattle.std.specs.Prelude.{◌≡◌, None, IfOk, OnErr};
ghost use Rattle.qs_handshake_phase.specs.Asks.{AsksFor, LeavesExport};
ghost use Rattle.qs_handshake_phase.specs.Tellings.{client_by, op_for as op_wanted, standing_names, told_by, told_without};

use qs_bytes::{Memory, NameList};
use qs_nbd_handshake::{Told, Want};
use qs_nbd_wire::ExportInfo2;
use qs_part::graph::{ExportInfo, GraphOp, GraphReply};
use qs_part::table::{ExportRow, Table};
use qs_serving::SessionStation;
use std::alloc::Global;
use std::sync::Wait;

/// What is told, and the place of the export that the session became a client of.
#[derive(Debug, Drop)]
pub struct Telling {
    pub told: Told,
    pub client: Option<u8>,
}

/// The operation that is needed for what is wanted, if one is.
pub fn op_for(alloc: Global, want: &Want) -> Result<Option<GraphOp>, Memory>
    ensures { IfOk result (λ op. op ≡ op_wanted want.now) }
{
    match want {
        Want::Find(Some(name)) => Ok(Some(GraphOp::Find { name: *name })),
        Want::Attach(Some(name)) => Ok(Some(GraphOp::Attach { name: *name })),
        Want::Names => Ok(Some(GraphOp::ListExports {
            table: Table::new(alloc)?,
        })),
        Want::Nothing | Want::Find(None) | Want::Attach(None) => Ok(None),
    }
}

/// The names of the exports that stand.
fn names_in(alloc: Global, rows: &[ExportRow]) -> Result<NameList, Memory>
    ensures { IfOk result (λ names. names ≡ standing_names rows.now) }
{
    let mut names = Vec::new(alloc);
    for row in rows {
        if !row.shutting {
            names.push(row.name)?;
        }
    }
    Ok(NameList(names))
}

/// What is told of an export.
fn info_of(info: &ExportInfo) -> Told
    ensures { result ≡ Told.Info (record { size = info.now.size; writable = info.now.writable }) }
{
    Told::Info(ExportInfo2 {
        size: info.size,
        writable: info.writable,
    })
}

/// What a reply of the graph tells.
fn telling_of(alloc: Global, reply: &GraphReply) -> Result<Told, Memory>
    ensures told { IfOk result (λ told. told ≡ told_by reply.now) }
    ensures none { OnErr result (client_by reply.now ≡ None) }
{
    match reply {
        GraphReply::Found(info) => Ok(info_of(info)),
        GraphReply::Attached(info) => Ok(info_of(info)),
        GraphReply::Crowded => Ok(Told::Crowded),
        GraphReply::Exports(table) => Ok(Told::Names(names_in(alloc, table.rows())?)),
        _ => Ok(Told::Missing),
    }
}

/// The place of the export that the session became a client of by this reply.
pub fn client_of(reply: &GraphReply) -> Option<u8>
    ensures { result ≡ client_by reply.now }
{
    match reply {
        GraphReply::Attached(info) => Some(info.e),
        _ => None,
    }
}

/// What is told where no operation is needed.
fn told_bare(want: &Want) -> Told
    ensures { result ≡ told_without want.now }
{
    match want {
        Want::Nothing => Told::Nothing,
        _ => Told::Missing,
    }
}

/// Asks the graph for what is wanted, where that is needed. One who wants to attach is a client then, if it may.
pub fn ask<S: SessionStation, R: Wait>(
    alloc: Global,
    rt: &R,
    hall: &S::Hall,
    station: &mut S,
    want: &Want,
) -> Result<Telling, Memory>
    requires of { S.is_of hall.now station.old }
    ensures of { S.is_of hall.now station.new }
    ensures asks { AsksFor want.now result (S.book station.old) (S.book station.new) }
    ensures later { S.follows station.old station.new }
{
    match op_for(alloc, want)? {
        None => Ok(Telling {
            told: told_bare(want),
            client: None,
        }),
        Some(op) => {
            let reply = station.session_call(rt, hall, op);
            let told = telling_of(alloc, &reply)?;
            Ok(Telling {
                told,
                client: client_of(&reply),
            })
        }
    }
}

/// Leaves the export that the session is a client of, if it is one.
pub fn leave<S: SessionStation, R: Wait>(
    rt: &R,
    hall: &S::Hall,
    station: &mut S,
    client: Option<u8>,
)
    requires of { S.is_of hall.now station.old }
    ensures of { S.is_of hall.now station.new }
    ensures leaves { LeavesExport client (S.book station.old) (S.book station.new) }
    ensures later { S.follows station.old station.new }
{
    match client {
        Some(e) => {
            station.session_call(rt, hall, GraphOp::Detach { e });
        }
        None => {}
    }
}
