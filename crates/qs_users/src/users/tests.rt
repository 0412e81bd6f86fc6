use super::*;
use qs_bytes::Name;
use qs_nodes::node::Kind;
use std::test::Fail;

fn name(bytes: &[u8]) -> Result<Name, Fail> {
    Ok(Name::of(bytes).ok_or("no name")?)
}

/// A new export over the node at a place.
fn over(id: Name, node: u8, writable: bool, share_write: bool) -> NewExport {
    NewExport {
        id,
        name: id,
        node,
        writable,
        share_write,
    }
}

fn standing(made: NewExport, place: u8) -> Export {
    Export {
        made,
        place,
        clients: 0,
        shutting: false,
    }
}

fn raw(name: Name, place: u8, child: u8) -> Node {
    Node {
        name,
        place,
        size: 512,
        read_only: false,
        depth: 0,
        kind: Kind::Raw { child, offset: 0 },
    }
}

/// The file node at 0, `low` at 1 over it, `high` at 2 over `low`, and `side` at 3 over the file.
fn tree() -> Result<[Node; 4], Fail> {
    let root = Node {
        kind: Kind::File,
        ..raw(name(b"file")?, 0, 0)
    };
    Ok([
        root,
        raw(name(b"low")?, 1, 0),
        raw(name(b"high")?, 2, 1),
        raw(name(b"side")?, 3, 0),
    ])
}

#[test]
fn the_first_clash_on_the_way_down_is_told(rt: HostRuntime) -> Result<(), Fail> {
    let nodes = tree()?;
    let (a, b, new) = (name(b"a")?, name(b"b")?, name(b"new")?);
    let (low, side) = (User::Node(nodes[1].name), User::Node(nodes[3].name));
    let closed = standing(over(a, 3, false, false), 0);
    let mut users = Users::new(rt.alloc())?;
    let rows = [
        (
            closed,
            over(new, 3, true, true),
            Some((User::Export(a), User::Export(new))),
        ),
        (closed, over(new, 3, false, true), None),
        (closed, over(new, 2, true, true), Some((low, side))),
        (
            closed,
            over(new, 0, true, true),
            Some((side, User::Export(new))),
        ),
        (closed, over(new, 2, false, false), None),
        (
            standing(over(b, 0, true, true), 1),
            over(new, 2, true, false),
            Some((low, User::Export(b))),
        ),
        (
            standing(over(b, 1, true, true), 1),
            over(new, 2, true, true),
            None,
        ),
        (
            standing(over(b, 2, true, true), 1),
            over(new, 1, false, false),
            Some((User::Node(nodes[2].name), User::Export(new))),
        ),
    ];
    for (export, made, pair) in rows.iter() {
        assert_eq!(rt; users.first_clash(&nodes, &[*export], made), *pair);
    }
    Ok(())
}

#[test]
fn a_node_takes_what_its_users_take(rt: HostRuntime) -> Result<(), Fail> {
    let made = over(name(b"new")?, 1, true, false);
    let nodes = tree()?;
    assert_eq!(rt;
        crate::perms_at(&nodes, &[], &made, 0),
        UserPerms::export(true, false).join(UserPerms::idle())
    );
    assert_eq!(rt; crate::perms_at(&nodes, &[], &made, 2), UserPerms::idle());
    Ok(())
}
