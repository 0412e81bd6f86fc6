use super::*;
use std::process::Abort;
use std::test::Fail;

fn name(bytes: &[u8]) -> Result<Name, Fail> {
    Ok(Name::of(bytes).ok_or("no name")?)
}

fn add(id: Name, name: Name, node: Name, writable: bool, share_write: bool) -> GraphOp {
    GraphOp::ExportAdd {
        id,
        name,
        node,
        writable,
        share_write,
    }
}

fn found(e: u8, size: u64, writable: bool) -> ExportInfo {
    ExportInfo { e, size, writable }
}

fn way(size: u64, writable: bool) -> GraphReply {
    GraphReply::Routed(Route {
        offset: 0,
        size,
        writable,
        groups: [(0, 0); 8],
        count: 0,
    })
}

fn show(alloc: Global, reply: &GraphReply) -> Result<String, Fail> {
    Ok(format!(in alloc; "{reply:?}")?)
}

fn run(
    rt: &impl Abort,
    alloc: Global,
    graph: &mut Graph,
    script: Vec<(GraphOp, GraphReply)>,
) -> Result<(), Fail> {
    for (op, reply) in script {
        assert!(rt; Graph::fits(&graph.fixed(), &op));
        assert_eq!(rt; show(alloc, &graph.step(op))?, show(alloc, &reply)?);
    }
    Ok(())
}

/// The answer to a client that comes to the export at place 1.
fn attached() -> GraphReply {
    GraphReply::Attached(found(1, 4096, false))
}

#[test]
fn exports_are_added_and_refused(rt: HostRuntime) -> Result<(), Fail> {
    let (file, x, y, z) = (name(b"file0")?, name(b"x")?, name(b"y")?, name(b"z")?);
    let (a, b) = (name(b"a")?, name(b"b")?);
    let mut graph = Graph::new(rt.alloc(), 4096, file, false)?;
    let script = [
        (add(x, a, file, true, true), GraphReply::Added(0)),
        (add(x, b, z, true, true), GraphReply::Duplicate(0)),
        (add(y, a, z, true, true), GraphReply::Duplicate(0)),
        (add(y, b, z, true, false), GraphReply::NoNode(z)),
        (
            add(y, b, file, false, false),
            GraphReply::Conflict(User::Export(x), User::Export(y)),
        ),
        (add(y, b, file, true, true), GraphReply::Added(1)),
        (add(y, a, file, true, true), GraphReply::Duplicate(0)),
        (add(y, z, file, true, true), GraphReply::Duplicate(1)),
    ];
    run(
        &rt,
        rt.alloc(),
        &mut graph,
        Vec::from_array(rt.alloc(), script)?,
    )?;
    Ok(())
}

#[test]
fn read_only_file_has_no_writable_export(rt: HostRuntime) -> Result<(), Fail> {
    let (file, x, y) = (name(b"file0")?, name(b"x")?, name(b"y")?);
    let mut graph = Graph::new(rt.alloc(), 512, file, true)?;
    let script = [
        (add(x, x, file, true, true), GraphReply::ReadOnly(file)),
        (add(x, x, file, false, false), GraphReply::Added(0)),
        (add(y, y, file, true, true), GraphReply::ReadOnly(file)),
        (add(y, y, file, false, true), GraphReply::Added(1)),
        (GraphOp::Route { e: 1 }, way(512, false)),
    ];
    run(
        &rt,
        rt.alloc(),
        &mut graph,
        Vec::from_array(rt.alloc(), script)?,
    )?;
    let mut graph = Graph::new(rt.alloc(), 512, file, false)?;
    let script = [
        (add(x, x, file, false, false), GraphReply::Added(0)),
        (
            add(y, y, file, true, true),
            GraphReply::Conflict(User::Export(x), User::Export(y)),
        ),
    ];
    run(
        &rt,
        rt.alloc(),
        &mut graph,
        Vec::from_array(rt.alloc(), script)?,
    )?;
    Ok(())
}

#[test]
fn clients_come_and_go(rt: HostRuntime) -> Result<(), Fail> {
    let (file, a, b, none) = (name(b"file0")?, name(b"a")?, name(b"b")?, name(b"")?);
    let mut graph = Graph::new(rt.alloc(), 4096, file, false)?;
    let script = [
        (GraphOp::Find { name: none }, GraphReply::NoExport),
        (GraphOp::Attach { name: a }, GraphReply::NoExport),
        (add(a, a, file, true, true), GraphReply::Added(0)),
        (add(b, b, file, false, true), GraphReply::Added(1)),
        (
            GraphOp::Find { name: none },
            GraphReply::Found(found(0, 4096, true)),
        ),
        (
            GraphOp::Find { name: b },
            GraphReply::Found(found(1, 4096, false)),
        ),
        (GraphOp::Find { name: file }, GraphReply::NoExport),
        (GraphOp::Attach { name: b }, attached()),
        (GraphOp::Detach { e: 1 }, GraphReply::Detached),
        (GraphOp::Detach { e: 1 }, GraphReply::NotAttached),
        (GraphOp::Detach { e: 255 }, GraphReply::NotAttached),
        (GraphOp::Route { e: 0 }, way(4096, true)),
        (GraphOp::Route { e: 2 }, GraphReply::Shutting),
        (GraphOp::Route { e: 255 }, GraphReply::Shutting),
    ];
    run(
        &rt,
        rt.alloc(),
        &mut graph,
        Vec::from_array(rt.alloc(), script)?,
    )?;
    crowd(&rt, rt.alloc(), &mut graph, b)?;
    graph.reset();
    let script = [
        (GraphOp::Find { name: b }, GraphReply::NoExport),
        (GraphOp::Detach { e: 1 }, GraphReply::NotAttached),
        (GraphOp::Route { e: 0 }, GraphReply::Shutting),
    ];
    run(
        &rt,
        rt.alloc(),
        &mut graph,
        Vec::from_array(rt.alloc(), script)?,
    )?;
    Ok(())
}

/// The export of that name at place 1 gets as many clients as it may have.
fn crowd(rt: &impl Abort, alloc: Global, graph: &mut Graph, name: Name) -> Result<(), Fail> {
    for _ in 0..1024 {
        run(
            rt,
            alloc,
            graph,
            Vec::from_array(alloc, [(GraphOp::Attach { name }, attached())])?,
        )?;
    }
    let script = [
        (GraphOp::Attach { name }, GraphReply::Crowded),
        (GraphOp::Detach { e: 1 }, GraphReply::Detached),
        (GraphOp::Attach { name }, attached()),
    ];
    run(rt, alloc, graph, Vec::from_array(alloc, script)?)
}

#[test]
fn export_65_finds_no_place(rt: HostRuntime) -> Result<(), Fail> {
    let file = name(b"file0")?;
    let mut graph = Graph::new(rt.alloc(), 4096, file, false)?;
    for e in 0..64 {
        let x = name(&[b'0' + e])?;
        run(
            &rt,
            rt.alloc(),
            &mut graph,
            Vec::from_array(
                rt.alloc(),
                [(add(x, x, file, true, true), GraphReply::Added(e))],
            )?,
        )?;
    }
    let y = name(b"y")?;
    let script = [
        (add(y, y, file, true, true), GraphReply::Full),
        (add(y, y, y, true, true), GraphReply::NoNode(y)),
    ];
    run(
        &rt,
        rt.alloc(),
        &mut graph,
        Vec::from_array(rt.alloc(), script)?,
    )?;
    Ok(())
}
