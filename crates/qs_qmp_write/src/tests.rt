ghost use Rattle.std.specs.Prelude.{◌≡◌, true};
ghost use Rattle.qs_qmp_arguments.specs.Arguments.{seen_data};
ghost use Rattle.qs_qmp.specs.Reading.{is_fit};
ghost use Rattle.qs_qmp_write.specs.Texts.{CanTellFault};

use crate::{laws, write_end, write_fault};
use qs_bytes::{Bytes, Name};
use qs_command::{Command, Driver, ExportRow, JobEnd, NodeRow, Refusal, Table};
use qs_part::graph::User;
use qs_qmp::{QmpCommand, QmpFault, read_message};
use serde_json::Value;
use std::alloc::Global;
use std::test::Fail;
use std::{io, str};

fn name(text: &str) -> Result<Name, Fail> {
    match Name::of(text.as_bytes()) {
        Some(name) => Ok(name),
        None => Err(Fail::from(io::Error::other("no name"))),
    }
}

fn show(name: &Name) -> &str {
    str::from_utf8(name.as_slice()).unwrap_or("no text")
}

/// A command in words.
fn spelled(alloc: Global, command: &Command) -> Result<String, Fail> {
    Ok(match command {
        Command::AddRaw {
            name,
            child,
            offset,
            size,
            read_only,
        } => format!(in alloc;
            "raw {} {} {offset} {size:?} {read_only}",
            show(name),
            show(child)
        )?,
        Command::AddThrottle {
            name,
            child,
            group,
            read_only,
        } => {
            format!(in alloc;
                "throttle {} {} {} {read_only}",
                show(name),
                show(child),
                show(group)
            )?
        }
        Command::Del { name } => format!(in alloc; "del {}", show(name))?,
        Command::ReopenRaw {
            name,
            child,
            offset,
            size,
        } => format!(in alloc; "reopen {} {} {offset} {size:?}", show(name), show(child))?,
        Command::ReopenThrottle { name, child, group } => {
            format!(in alloc; "regroup {} {} {}", show(name), show(child), show(group))?
        }
        Command::GroupAdd { id, limits } => {
            let limits = limits.limits();
            format!(in alloc;
                "group {} {} {} {} {}",
                show(id),
                limits.bps_total.avg,
                limits.iops_read.max,
                limits.iops_read.burst_length,
                limits.iops_size
            )?
        }
        Command::GroupDel { id } => format!(in alloc; "group-del {}", show(id))?,
        Command::ExportAdd {
            id,
            name,
            node,
            writable,
            share_write,
        } => format!(in alloc;
            "export {} {} {} {writable} {share_write}",
            show(id),
            show(name),
            show(node)
        )?,
        Command::ExportDel { id, hard } => format!(in alloc; "export-del {} {hard}", show(id))?,
        Command::ListExports => String::from_str(alloc, "exports")?,
        Command::ListNodes => String::from_str(alloc, "nodes")?,
        Command::Quit => String::from_str(alloc, "quit")?,
    })
}

fn written(alloc: Global, bytes: &Bytes) -> Result<String, Fail> {
    Ok(String::from_str(alloc, str::from_utf8(bytes.as_slice()).unwrap_or("no text"))?)
}

/// What a message asks for, in words.
fn asked(alloc: Global, command: &QmpCommand) -> Result<String, Fail> {
    match command {
        QmpCommand::Capabilities => Ok(String::from_str(alloc, "capabilities")?),
        QmpCommand::Job(command) => spelled(alloc, command),
    }
}

/// The whole answer to what is refused.
fn refused(alloc: Global, fault: &QmpFault) -> Result<String, Fail>
    requires { CanTellFault fault.now }
{
    let mut out = Bytes::of(Vec::new(alloc));
    write_fault(alloc, fault, &mut out)?;
    written(alloc, &out)
}

/// What a message reads as: the command in words, or the whole answer.
fn reading(alloc: Global, bytes: &[u8], negotiated: bool) -> Result<String, Fail> {
    let read = read_message(alloc, bytes, negotiated);
    match &read {
        Ok(message) => asked(alloc, &message.command),
        Err(fault) => match fault {
            QmpFault::Memory => Ok(String::from_str(alloc, "no memory")?),
            QmpFault::Refused { .. } => refused(alloc, fault),
        },
    }
}

/// Arguments, and what the command with them reads as.
const COMMANDS: [(&str, &str, &str); 20] = [
    (
        "blockdev-add",
        r#"{"driver":"raw","node-name":"r0","file":"f0"}"#,
        "raw r0 f0 0 None false",
    ),
    (
        "blockdev-add",
        r#"{"driver":"raw","node-name":"r0","file":"f0","offset":"0512","size":18446744073709551615,"read-only":"on"}"#,
        "raw r0 f0 512 Some(18446744073709551615) true",
    ),
    (
        "blockdev-add",
        r#"{"driver":"throttle","node-name":"t0","file":"f0","throttle-group":"g.1","read-only":true}"#,
        "throttle t0 f0 g.1 true",
    ),
    ("blockdev-del", r#"{"node-name":"r0"}"#, "del r0"),
    (
        "blockdev-reopen",
        r#"{"options":[{"driver":"raw","node-name":"r0","file":"f0","offset":1}]}"#,
        "reopen r0 f0 1 None",
    ),
    (
        "blockdev-reopen",
        r#"{"options":[{"driver":"throttle","node-name":"t0","file":"f0","throttle-group":"g"}]}"#,
        "regroup t0 f0 g",
    ),
    (
        "object-add",
        r#"{"qom-type":"throttle-group","id":"g"}"#,
        "group g 0 0 1 0",
    ),
    (
        "object-add",
        r#"{"qom-type":"throttle-group","id":"g","limits":{"bps-total":1000000000000000,"iops-read":"1","iops-read-max":3,"iops-read-max-length":2,"iops-size":4096}}"#,
        "group g 1000000000000000 3 2 4096",
    ),
    ("object-del", r#"{"id":"g"}"#, "group-del g"),
    (
        "block-export-add",
        r#"{"type":"nbd","id":"e","node-name":"f0"}"#,
        "export e f0 f0 false true",
    ),
    (
        "block-export-add",
        r#"{"type":"nbd","id":"e","node-name":"f0","name":"a disk","writable":"on","x-share":"read"}"#,
        "export e a disk f0 true false",
    ),
    ("block-export-del", r#"{"id":"e"}"#, "export-del e false"),
    (
        "block-export-del",
        r#"{"id":"e","mode":"hard"}"#,
        "export-del e true",
    ),
    (
        "block-export-del",
        r#"{"id":"e","mode":"safe"}"#,
        "export-del e false",
    ),
    ("query-block-exports", "{}", "exports"),
    ("query-named-block-nodes", "{}", "nodes"),
    ("quit", "{}", "quit"),
    (
        "blockdev-del",
        r#"{"node-name":"a234567890123456789012345678901"}"#,
        "del a234567890123456789012345678901",
    ),
    (
        "block-export-add",
        r#"{"type":"nbd","id":"e","node-name":"f0","name":"123456789012345678901234567890123456789012345678901234567890123"}"#,
        "export e 123456789012345678901234567890123456789012345678901234567890123 f0 false true",
    ),
    (
        "object-add",
        r#"{"qom-type":"throttle-group","id":"g","limits":{"iops-size":"18446744073709551615"}}"#,
        "group g 0 0 1 18446744073709551615",
    ),
];

#[test]
fn commands_are_read(rt: HostRuntime) -> Result<(), Fail> {
    let alloc = rt.alloc();
    for (execute, arguments, words) in COMMANDS {
        let message = format!(in alloc; r#"{{"execute":"{execute}","arguments":{arguments}}}"#)?;
        assert_eq!(rt;
            reading(alloc, message.as_bytes(), true)?.as_str(),
            words,
            "{message}"
        );
    }
    Ok(())
}

/// Arguments that are refused, each with the words of the refusal.
const REFUSED: [(&str, &str, &str); 44] = [
    ("blockdev-add", "[]", "Invalid parameter 'arguments'"),
    ("blockdev-add", "{}", "Parameter 'driver' is missing"),
    (
        "blockdev-add",
        r#"{"driver":"file"}"#,
        "Invalid parameter 'driver'",
    ),
    (
        "blockdev-add",
        r#"{"driver":1}"#,
        "Invalid parameter 'driver'",
    ),
    (
        "blockdev-add",
        r#"{"driver":"raw","file":"f0"}"#,
        "Parameter 'node-name' is missing",
    ),
    (
        "blockdev-add",
        r#"{"driver":"raw","node-name":"r0"}"#,
        "Parameter 'file' is missing",
    ),
    (
        "blockdev-add",
        r#"{"driver":"throttle","node-name":"r0","file":"f0","size":1}"#,
        "Parameter 'throttle-group' is missing",
    ),
    (
        "blockdev-add",
        r#"{"driver":"raw","node-name":"","file":"f0","b":1,"a":1,"size":-1}"#,
        "Parameter 'a' is unexpected",
    ),
    (
        "blockdev-add",
        r#"{"driver":"raw","node-name":"","file":"0f","size":-1}"#,
        "Invalid parameter 'file'",
    ),
    (
        "blockdev-add",
        r#"{"driver":"raw","node-name":"a b","file":"f","size":-1}"#,
        "Invalid parameter 'node-name'",
    ),
    (
        "blockdev-add",
        r#"{"driver":"raw","node-name":"r","file":"f","read-only":1,"size":-1}"#,
        "Invalid parameter 'read-only'",
    ),
    (
        "blockdev-add",
        r#"{"driver":"raw","node-name":"r","file":"f","size":-1}"#,
        "Invalid parameter 'size'",
    ),
    (
        "blockdev-add",
        r#"{"driver":"raw","node-name":"r","file":"f","size":"18446744073709551616"}"#,
        "Invalid parameter 'size'",
    ),
    (
        "blockdev-add",
        r#"{"driver":"raw","node-name":"r","file":"f","offset":"000000000000000000001"}"#,
        "Invalid parameter 'offset'",
    ),
    (
        "blockdev-add",
        r#"{"driver":"raw","node-name":"r","file":"f","offset":"+1"}"#,
        "Invalid parameter 'offset'",
    ),
    (
        "blockdev-add",
        r#"{"driver":"raw","node-name":"r","file":"f","offset":""}"#,
        "Invalid parameter 'offset'",
    ),
    (
        "blockdev-add",
        r#"{"driver":"raw","node-name":"r","file":"f","offset":1.0}"#,
        "Invalid parameter 'offset'",
    ),
    (
        "blockdev-del",
        r#"{"node-name":"a2345678901234567890123456789012"}"#,
        "Invalid parameter 'node-name'",
    ),
    (
        "blockdev-del",
        r#"{"id":"r0"}"#,
        "Parameter 'node-name' is missing",
    ),
    ("blockdev-reopen", "{}", "Parameter 'options' is missing"),
    (
        "blockdev-reopen",
        r#"{"options":{}}"#,
        "Invalid parameter 'options'",
    ),
    (
        "blockdev-reopen",
        r#"{"options":[]}"#,
        "Invalid parameter 'options'",
    ),
    (
        "blockdev-reopen",
        r#"{"options":[{},{}]}"#,
        "Invalid parameter 'options'",
    ),
    (
        "blockdev-reopen",
        r#"{"options":[{"driver":"raw","node-name":"r0"}]}"#,
        "Invalid parameter 'options'",
    ),
    (
        "blockdev-reopen",
        r#"{"options":[{"driver":"raw","node-name":"r0","file":"f","read-only":false}]}"#,
        "Invalid parameter 'options'",
    ),
    (
        "blockdev-reopen",
        r#"{"option":1,"options":[]}"#,
        "Parameter 'option' is unexpected",
    ),
    (
        "object-add",
        r#"{"id":"g"}"#,
        "Parameter 'qom-type' is missing",
    ),
    (
        "object-add",
        r#"{"qom-type":"throttle-group"}"#,
        "Parameter 'id' is missing",
    ),
    (
        "object-add",
        r#"{"qom-type":"iothread","id":"g"}"#,
        "Invalid parameter 'qom-type'",
    ),
    (
        "object-add",
        r#"{"qom-type":"iothread","id":"g","limits":[]}"#,
        "Invalid parameter 'limits'",
    ),
    (
        "object-add",
        r#"{"qom-type":"throttle-group","id":"g","limits":{"bps":1}}"#,
        "Invalid parameter 'limits'",
    ),
    (
        "object-add",
        r#"{"qom-type":"throttle-group","id":"g","limits":{"bps-read":-1}}"#,
        "Invalid parameter 'limits'",
    ),
    (
        "object-add",
        r#"{"qom-type":"iothread","id":"g","limits":{"iops-write-max":1}}"#,
        "Invalid parameter 'qom-type'",
    ),
    (
        "object-add",
        r#"{"qom-type":"throttle-group","id":"g","limits":{"iops-write-max":1}}"#,
        "Invalid limits",
    ),
    (
        "object-add",
        r#"{"qom-type":"throttle-group","id":"g","limits":{"bps-total":1000000000000001}}"#,
        "Invalid limits",
    ),
    ("object-del", "{}", "Parameter 'id' is missing"),
    (
        "block-export-add",
        r#"{"id":"e","node-name":"f0"}"#,
        "Parameter 'type' is missing",
    ),
    (
        "block-export-add",
        r#"{"type":"vhost","id":"e","node-name":"f0","x-share":"no"}"#,
        "Invalid parameter 'type'",
    ),
    (
        "block-export-add",
        r#"{"type":"nbd","id":"e","node-name":"f0","x-share":"no"}"#,
        "Invalid parameter 'x-share'",
    ),
    (
        "block-export-add",
        r#"{"type":"nbd","id":"e","node-name":"f0","name":""}"#,
        "Invalid parameter 'name'",
    ),
    (
        "block-export-add",
        r#"{"type":"nbd","id":"e","node-name":"f0","name":"1234567890123456789012345678901234567890123456789012345678901234"}"#,
        "Invalid parameter 'name'",
    ),
    (
        "block-export-del",
        r#"{"id":"e","mode":"soft"}"#,
        "Invalid parameter 'mode'",
    ),
    (
        "query-block-exports",
        r#"{"id":"e"}"#,
        "Parameter 'id' is unexpected",
    ),
    ("quit", r#"{"a":1}"#, "Parameter 'a' is unexpected"),
];

#[test]
fn arguments_are_refused(rt: HostRuntime) -> Result<(), Fail> {
    let alloc = rt.alloc();
    for (execute, arguments, desc) in REFUSED {
        let message = format!(in alloc; r#"{{"execute":"{execute}","arguments":{arguments}}}"#)?;
        let answer = format!(in alloc;
            "{{\"error\":{{\"class\":\"GenericError\",\"desc\":\"{desc}\"}}}}\r\n"
        )?;
        assert_eq!(rt;
            reading(alloc, message.as_bytes(), true)?.as_str(),
            answer.as_str(),
            "{message}"
        );
    }
    Ok(())
}

/// Whole messages, whether the capabilities were negotiated, and the answers.
const MESSAGES: [(&[u8], bool, &str); 19] = [
    (br#"{"execute":"qmp_capabilities"}"#, false, "capabilities"),
    (
        br#"{"execute":"qmp_capabilities","arguments":{"enable":[]},"id":1}"#,
        false,
        "capabilities",
    ),
    (
        br#"{"execute":"qmp_capabilities","arguments":{"enable":["oob"]}}"#,
        false,
        "{\"error\":{\"class\":\"GenericError\",\"desc\":\"Invalid parameter 'enable'\"}}\r\n",
    ),
    (
        br#"{"execute":"qmp_capabilities"}"#,
        true,
        "{\"error\":{\"class\":\"CommandNotFound\",\"desc\":\"The command qmp_capabilities has not been found\"}}\r\n",
    ),
    (
        br#"{"execute":"query-block-exports","id":"}"}"#,
        false,
        "{\"error\":{\"class\":\"CommandNotFound\",\"desc\":\"Expecting capabilities negotiation\"},\"id\":\"}\"}\r\n",
    ),
    (
        br#"{"execute":"stop","arguments":1,"id":[null,-9223372036854775808,{"b":18446744073709551615,"a":"\u0000\n"}]}"#,
        true,
        "{\"error\":{\"class\":\"CommandNotFound\",\"desc\":\"The command stop has not been found\"},\"id\":[null,-9223372036854775808,{\"a\":\"\\u0000\\n\",\"b\":18446744073709551615}]}\r\n",
    ),
    (
        br#"{"execute":"quit","arguments":1,"id":null}"#,
        true,
        "{\"error\":{\"class\":\"GenericError\",\"desc\":\"Invalid parameter 'arguments'\"},\"id\":null}\r\n",
    ),
    (br#"{"execute":"stop","execute":"quit"}"#, true, "quit"),
    (
        br#"{"executes":"quit","id":true}"#,
        true,
        "{\"error\":{\"class\":\"GenericError\",\"desc\":\"Member 'execute' is missing\"},\"id\":true}\r\n",
    ),
    (
        br#"{"execute":1,"b":1}"#,
        true,
        "{\"error\":{\"class\":\"GenericError\",\"desc\":\"Member 'execute' is missing\"}}\r\n",
    ),
    (
        br#"{"execute":"stop","b":1,"argument":1}"#,
        false,
        "{\"error\":{\"class\":\"GenericError\",\"desc\":\"Member 'argument' is unexpected\"}}\r\n",
    ),
    (
        br#"{"execute":1,"id":{"a":[1.5]}}"#,
        true,
        "{\"error\":{\"class\":\"GenericError\",\"desc\":\"Invalid parameter 'id'\"}}\r\n",
    ),
    (
        br#"{"execute":"quit","id":-0}"#,
        true,
        "{\"error\":{\"class\":\"GenericError\",\"desc\":\"Invalid parameter 'id'\"}}\r\n",
    ),
    (
        br#"{"execute":"quit","id":18446744073709551616}"#,
        true,
        "{\"error\":{\"class\":\"GenericError\",\"desc\":\"Invalid parameter 'id'\"}}\r\n",
    ),
    (
        br#"{"execute":"quit""#,
        true,
        "{\"error\":{\"class\":\"GenericError\",\"desc\":\"Invalid JSON\"}}\r\n",
    ),
    (
        b"{\"execute\":\"quit\",\"id\":\"\xff\"}",
        true,
        "{\"error\":{\"class\":\"GenericError\",\"desc\":\"Invalid JSON\"}}\r\n",
    ),
    (
        br#"{"execute":"quit","id":"\ud800"}"#,
        true,
        "{\"error\":{\"class\":\"GenericError\",\"desc\":\"Invalid JSON\"}}\r\n",
    ),
    (
        br#"{"execute":"quit","id":1e999}"#,
        true,
        "{\"error\":{\"class\":\"GenericError\",\"desc\":\"Invalid JSON\"}}\r\n",
    ),
    (
        br#"[1]"#,
        true,
        "{\"error\":{\"class\":\"GenericError\",\"desc\":\"Member 'execute' is missing\"}}\r\n",
    ),
];

#[test]
fn messages_are_read(rt: HostRuntime) -> Result<(), Fail> {
    let alloc = rt.alloc();
    for (message, negotiated, answer) in MESSAGES {
        assert_eq!(rt;
            reading(alloc, message, negotiated)?.as_str(),
            answer,
            "{answer}"
        );
    }
    laws::messages();
    Ok(())
}

/// An id of so many nested lists.
fn nested(alloc: Global, depth: usize) -> Result<String, Fail> {
    let mut text = String::from_str(alloc, r#"{"execute":"quit","id":"#)?;
    for _ in 0..depth {
        text.push_str("[")?;
    }
    for _ in 0..depth {
        text.push_str("]")?;
    }
    text.push_str("}")?;
    Ok(text)
}

#[test]
fn a_message_nests_127_deep(rt: HostRuntime) -> Result<(), Fail> {
    let alloc = rt.alloc();
    let invalid = "{\"error\":{\"class\":\"GenericError\",\"desc\":\"Invalid JSON\"}}\r\n";
    for (depth, answer) in [(126, "quit"), (127, invalid)] {
        let message = nested(alloc, depth)?;
        assert_eq!(rt;
            reading(alloc, message.as_bytes(), true)?.as_str(),
            answer,
            "{depth}"
        );
    }
    Ok(())
}

fn answer(alloc: Global, end: &JobEnd, id: Option<&Value>, now: u64) -> Result<String, Fail>
    requires { is_fit (seen_data id) ≡ true }
{
    let mut out = Bytes::of(Vec::new(alloc));
    write_end(alloc, end, id, now, &mut out)?;
    written(alloc, &out)
}

/// The answer to the command whose id is this text.
fn answer_to(alloc: Global, id: &str, end: &JobEnd, now: u64) -> Result<String, Fail> {
    let id = Value::String(String::from_str(alloc, id)?);
    answer(alloc, end, Some(&id), now)
}

#[test]
fn ends_are_written(rt: HostRuntime) -> Result<(), Fail> {
    let alloc = rt.alloc();
    let rows = [
        (JobEnd::Fine, "{\"id\":\"a\\\"\",\"return\":{}}\r\n"),
        (
            JobEnd::Deleted(name("disk")?),
            "{\"id\":\"a\\\"\",\"return\":{}}\r\n{\"data\":{\"id\":\"disk\"},\"event\":\"BLOCK_EXPORT_DELETED\",\"timestamp\":{\"microseconds\":234567,\"seconds\":1}}\r\n",
        ),
        (
            JobEnd::Quit { synced: true },
            "{\"id\":\"a\\\"\",\"return\":{}}\r\n",
        ),
        (
            JobEnd::Quit { synced: false },
            "{\"error\":{\"class\":\"GenericError\",\"desc\":\"Flush failed\"},\"id\":\"a\\\"\"}\r\n",
        ),
        (
            JobEnd::Memory,
            "{\"error\":{\"class\":\"GenericError\",\"desc\":\"Out of memory\"},\"id\":\"a\\\"\"}\r\n",
        ),
    ];
    for (end, text) in rows.iter() {
        assert_eq!(rt;
            answer_to(alloc, "a\"", end, 1_234_567_899)?.as_str(),
            *text
        );
    }
    Ok(())
}

#[test]
fn queries_are_answered(rt: HostRuntime) -> Result<(), Fail> {
    let alloc = rt.alloc();
    let mut exports = Table::new(alloc)?;
    let mut nodes = Table::new(alloc)?;
    assert_eq!(rt;
        answer(alloc, &JobEnd::Exports(exports), None, 0)?.as_str(),
        "{\"return\":[]}\r\n"
    );
    exports = Table::new(alloc)?;
    exports.push(ExportRow {
        id: name("disk")?,
        name: name("vm")?,
        node: name("file0")?,
        shutting: false,
    });
    assert_eq!(rt;
        answer(alloc, &JobEnd::Exports(exports), None, 0)?.as_str(),
        "{\"return\":[{\"id\":\"disk\",\"node-name\":\"file0\",\"shutting-down\":false,\"type\":\"nbd\"}]}\r\n"
    );
    for (text, driver, read_only) in [
        ("f", Driver::File, false),
        ("r", Driver::Raw, true),
        ("t", Driver::Throttle, false),
    ] {
        if nodes.rows().len() < 64 {
            nodes.push(NodeRow {
                name: name(text)?,
                driver,
                read_only,
            });
        }
    }
    assert_eq!(rt;
        answer(alloc, &JobEnd::Nodes(nodes), None, 0)?.as_str(),
        "{\"return\":[{\"drv\":\"file\",\"node-name\":\"f\",\"ro\":false},{\"drv\":\"raw\",\"node-name\":\"r\",\"ro\":true},{\"drv\":\"throttle\",\"node-name\":\"t\",\"ro\":false}]}\r\n"
    );
    Ok(())
}

#[test]
fn refusals_are_written(rt: HostRuntime) -> Result<(), Fail> {
    let alloc = rt.alloc();
    let x = name("x")?;
    let rows = [
        (Refusal::Duplicate { name: x }, "Duplicate name 'x'"),
        (Refusal::NoNode { node: x }, "Node 'x' not found"),
        (Refusal::NoGroup { group: x }, "Group 'x' not found"),
        (Refusal::NoExport { export: x }, "Export 'x' not found"),
        (
            Refusal::OutOfRange {
                node: x,
                size: u64::MAX,
            },
            "Node 'x' has 18446744073709551615 bytes",
        ),
        (Refusal::Deep, "Too many throttle nodes"),
        (Refusal::Full, "Table is full"),
        (Refusal::Root { node: x }, "Node 'x' is the image"),
        (
            Refusal::NodeInUse {
                node: x,
                user: User::Export(name("e1")?),
            },
            "Node 'x' is in use by export 'e1'",
        ),
        (
            Refusal::GroupInUse {
                group: x,
                user: User::Node(name("t")?),
            },
            "Group 'x' is in use by node 't'",
        ),
        (
            Refusal::OtherKind { node: x },
            "Node 'x' has another driver",
        ),
        (Refusal::OtherFile { node: x }, "Node 'x' has another file"),
        (Refusal::ReadOnly { node: x }, "Node 'x' is read-only"),
        (
            Refusal::Conflict(User::Export(name("disk")?), User::Export(name("e3")?)),
            "Permission conflict between export 'disk' and export 'e3'",
        ),
        (
            Refusal::Connected {
                export: name("disk")?,
                clients: 1,
            },
            "Export 'disk' has 1 client(s)",
        ),
    ];
    for (refusal, desc) in rows.iter() {
        let text = format!(in alloc;
            "{{\"error\":{{\"class\":\"GenericError\",\"desc\":\"{desc}\"}}}}\r\n"
        )?;
        assert_eq!(rt;
            answer(alloc, &JobEnd::Refused(*refusal), None, 0)?.as_str(),
            text.as_str()
        );
    }
    Ok(())
}
