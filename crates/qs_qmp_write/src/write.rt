ghost use Rattle.std.specs.Prelude.{◌≡◌, ◌++◌, false, true, string_bytes, IfOk, OnErr, OnOk};
ghost use Rattle.serde_json.specs.Data.{array, member, no_members, object};
ghost use Rattle.serde_json.specs.View.{items_view, members_view, view};
ghost use Rattle.serde_json.specs.Written.{has_float};
ghost use Rattle.qs_qmp_arguments.specs.Arguments.{seen_data};
ghost use Rattle.qs_qmp.specs.Reading.{is_fit};
ghost use Rattle.qs_qmp_write.specs.Texts.{CanTellFault, answer_data, deletion, end_text, error, export_data, exports, failed, fault_text, message, named_data, node, nodes, quit_text, returned, timestamp, with_id};

use crate::texts::{class_text, driver_text, refusal_text, text};
use qs_bytes::{Bytes, Memory, Name};
use qs_command::{ExportRow, JobEnd, NodeRow};
use qs_qmp::{Class, QmpFault};
use serde_json::{Map, Value, json, put};
use std::alloc::{AllocError, Global};

/// The bytes of a message.
fn message(alloc: Global, value: &Value) -> Result<Vec<u8>, AllocError>
    requires { has_float (view value.now) ≡ false }
    ensures { IfOk result (λ bytes. bytes.items ≡ message (view value.now)) }
{
    let mut bytes = value.to_vec(alloc)?;
    bytes.extend_from_slice(b"\r\n")?;
    Ok(bytes)
}

fn with_id(
    alloc: Global,
    mut members: Map<String, Value>,
    id: Option<&Value>,
) -> Result<Value, AllocError>
    ensures { IfOk result (λ v. view v
        ≡ object (with_id (seen_data id.entry) (members_view members.entries))) }
{
    match id {
        None => Ok(Value::Object(members)),
        Some(id) => {
            put(&mut members, alloc, "id", id.clone()?)?;
            Ok(Value::Object(members))
        }
    }
}

/// An answer with one member, and the id of what it answers.
fn answered(alloc: Global, key: &str, value: Value, id: Option<&Value>) -> Result<Value, AllocError>
    ensures { IfOk result (λ v. view v ≡ answer_data key.now (view value) (seen_data id.entry)) }
{
    let mut members = Map::new(alloc);
    put(&mut members, alloc, key, value)?;
    with_id(alloc, members, id)
}

fn returned(alloc: Global, value: Value, id: Option<&Value>) -> Result<Vec<u8>, AllocError>
    requires value { has_float (view value) ≡ false }
    requires id { is_fit (seen_data id) ≡ true }
    ensures { IfOk result (λ bytes. bytes.items ≡ returned (view value) (seen_data id.entry)) }
{
    let answer = answered(alloc, "return", value, id)?;
    message(alloc, &answer)
}

fn error(alloc: Global, class: Class, desc: &str) -> Result<Value, AllocError>
    ensures { IfOk result (λ v. view v ≡ error class desc.now) }
{
    json!(in alloc; {"class": class_text(class), "desc": desc})
}

fn failed(
    alloc: Global,
    class: Class,
    desc: &str,
    id: Option<&Value>,
) -> Result<Vec<u8>, AllocError>
    requires { is_fit (seen_data id) ≡ true }
    ensures { IfOk result (λ bytes. bytes.items ≡ failed class desc.now (seen_data id.entry)) }
{
    let answer = answered(alloc, "error", error(alloc, class, desc)?, id)?;
    message(alloc, &answer)
}

fn listed(items: Vec<Value>) -> Value
    ensures { view result ≡ array (items_view items.items) }
{
    Value::Array(items)
}

fn node(alloc: Global, row: &NodeRow) -> Result<Value, AllocError>
    ensures { IfOk result (λ v. view v ≡ node row.now) }
{
    json!(in alloc; {
        "drv": driver_text(row.driver),
        "node-name": text(&row.name),
        "ro": row.read_only
    })
}

fn nodes(alloc: Global, rows: &[NodeRow]) -> Result<Value, AllocError>
    ensures { IfOk result (λ v. (view v ≡ nodes rows.now) × (has_float (view v) ≡ false)) }
{
    let mut list = Vec::new(alloc);
    for row in rows {
        list.push(node(alloc, row)?)?;
    }
    Ok(listed(list))
}

fn export(alloc: Global, row: &ExportRow) -> Result<Value, AllocError>
    ensures { IfOk result (λ v. view v ≡ export_data row.now) }
{
    json!(in alloc; {
        "id": text(&row.id),
        "node-name": text(&row.node),
        "shutting-down": row.shutting,
        "type": "nbd"
    })
}

fn exports(alloc: Global, rows: &[ExportRow]) -> Result<Value, AllocError>
    ensures { IfOk result (λ v. (view v ≡ exports rows.now) × (has_float (view v) ≡ false)) }
{
    let mut list = Vec::new(alloc);
    for row in rows {
        list.push(export(alloc, row)?)?;
    }
    Ok(listed(list))
}

fn timestamp(alloc: Global, now: u64) -> Result<Value, AllocError>
    ensures { IfOk result (λ v. view v ≡ timestamp now) }
{
    json!(in alloc; {
        "microseconds": now % 1_000_000_000 / 1_000,
        "seconds": now / 1_000_000_000
    })
}

fn named(alloc: Global, name: &Name) -> Result<Value, AllocError>
    ensures { IfOk result (λ v. view v ≡ named_data name.now) }
{
    json!(in alloc; {"id": text(name)})
}

/// The event that an export was deleted.
fn deletion(alloc: Global, name: &Name, now: u64) -> Result<Value, AllocError>
    ensures { IfOk result (λ v. view v ≡ deletion name.now now) }
{
    let data = named(alloc, name)?;
    let time = timestamp(alloc, now)?;
    json!(in alloc; {"data": data, "event": "BLOCK_EXPORT_DELETED", "timestamp": time})
}

/// The return, and the event behind it.
fn deleted(alloc: Global, name: &Name, id: Option<&Value>, now: u64) -> Result<Vec<u8>, AllocError>
    requires { is_fit (seen_data id) ≡ true }
    ensures { IfOk result (λ bytes. bytes.items
        ≡ returned (object no_members) (seen_data id.entry) ++ message (deletion name.now now)) }
{
    let mut bytes = returned(alloc, Value::Object(Map::new(alloc)), id)?;
    let event = message(alloc, &deletion(alloc, name, now)?)?;
    bytes.extend_from_slice(event.as_slice())?;
    Ok(bytes)
}

fn fine(alloc: Global, id: Option<&Value>) -> Result<Vec<u8>, AllocError>
    requires { is_fit (seen_data id) ≡ true }
    ensures { IfOk result (λ bytes. bytes.items ≡ returned (object no_members) (seen_data id.entry)) }
{
    returned(alloc, Value::Object(Map::new(alloc)), id)
}

fn quit(alloc: Global, synced: bool, id: Option<&Value>) -> Result<Vec<u8>, AllocError>
    requires { is_fit (seen_data id) ≡ true }
    ensures { IfOk result (λ bytes. bytes.items ≡ quit_text synced (seen_data id.entry)) }
{
    if synced {
        fine(alloc, id)
    } else {
        failed(alloc, Class::GenericError, "Flush failed", id)
    }
}

/// The bytes of a job's answer, and of its event.
fn end_text(
    alloc: Global,
    end: &JobEnd,
    id: Option<&Value>,
    now: u64,
) -> Result<Vec<u8>, AllocError>
    requires { is_fit (seen_data id) ≡ true }
    ensures { IfOk result (λ bytes. bytes.items ≡ end_text end.now (seen_data id.entry) now) }
{
    match end {
        JobEnd::Fine => fine(alloc, id),
        JobEnd::Nodes(table) => returned(alloc, nodes(alloc, table.rows())?, id),
        JobEnd::Exports(table) => returned(alloc, exports(alloc, table.rows())?, id),
        JobEnd::Deleted(name) => deleted(alloc, name, id, now),
        JobEnd::Quit { synced } => quit(alloc, *synced, id),
        JobEnd::Refused(refusal) => {
            let desc = refusal_text(alloc, refusal)?;
            failed(alloc, Class::GenericError, desc.as_str(), id)
        }
        JobEnd::Memory => failed(alloc, Class::GenericError, "Out of memory", id),
    }
}

/// Writes how a job ended, as the answer to the message with this id, at the end of `out`.
///
/// `now` is the clock's reading in nanoseconds, which stands in the event of a deleted export. Refused
/// memory leaves `out` as it was.
pub fn write_end(
    alloc: Global,
    end: &JobEnd,
    id: Option<&Value>,
    now: u64,
    out: &mut Bytes,
) -> Result<(), Memory>
    requires { is_fit (seen_data id) ≡ true }
    ensures ok { OnOk result (out.new ≡ out.old ++ end_text end.now (seen_data id.entry) now) }
    ensures err { OnErr result (out.new ≡ out.old) }
{
    let bytes = end_text(alloc, end, id, now)?;
    out.append(bytes.as_slice())
}

/// The bytes of a refusal's answer.
fn fault_text(alloc: Global, fault: &QmpFault) -> Result<Vec<u8>, AllocError>
    requires { CanTellFault fault.now }
    ensures { IfOk result (λ bytes. bytes.items ≡ fault_text fault.now) }
{
    match fault {
        QmpFault::Refused { class, desc, id } => {
            failed(alloc, *class, desc.as_str(), id.as_ref())
        }
        QmpFault::Memory => unreachable!(),
    }
}

/// Writes why a message was refused, at the end of `out`. Refused memory leaves `out` as it was.
pub fn write_fault(alloc: Global, fault: &QmpFault, out: &mut Bytes) -> Result<(), Memory>
    requires { CanTellFault fault.now }
    ensures ok { OnOk result (out.new ≡ out.old ++ fault_text fault.now) }
    ensures err { OnErr result (out.new ≡ out.old) }
{
    let bytes = fault_text(alloc, fault)?;
    out.append(bytes.as_slice())
}
