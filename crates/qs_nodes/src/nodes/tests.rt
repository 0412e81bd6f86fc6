use super::*;
use std::test::Fail;

fn name(bytes: &[u8]) -> Result<Name, Fail> {
    Ok(Name::of(bytes).ok_or("no name")?)
}

#[test]
fn nodes_are_added_and_deleted(rt: HostRuntime) -> Result<(), Fail> {
    let alloc = rt.alloc();
    let (file, low, high, gone) = (
        name(b"file")?,
        name(b"low")?,
        name(b"high")?,
        name(b"gone")?,
    );
    let group = name(b"group")?;
    let mut nodes = Nodes::new(alloc, 4096, file, false)?;
    assert_eq!(rt; nodes.add_raw(low, file, 512, None, false), Ok(1));
    assert_eq!(rt;
        nodes.add_raw(low, gone, 0, None, false),
        Err(Refused::Duplicate(1))
    );
    assert_eq!(rt;
        nodes.add_raw(high, gone, 0, None, false),
        Err(Refused::NoNode(gone))
    );
    assert_eq!(rt;
        nodes.add_raw(high, low, 0, Some(3585), false),
        Err(Refused::OutOfRange(3584))
    );
    assert_eq!(rt;
        nodes.add_raw(high, low, 3585, None, false),
        Err(Refused::OutOfRange(3584))
    );
    assert_eq!(rt;
        nodes.add_throttle(high, low, &group, false),
        Err(Refused::NoGroup)
    );
    assert_eq!(rt; nodes.group_add(group), Ok(0));
    assert_eq!(rt; nodes.group_add(group), Err(Refused::Duplicate(0)));
    assert_eq!(rt; nodes.add_throttle(high, low, &group, false), Ok(2));
    assert_eq!(rt;
        nodes.group_del(&group),
        Err(Refused::InUse(User::Node(high)))
    );
    assert_eq!(rt; nodes.del(file, None), Err(Refused::Root));
    assert_eq!(rt; nodes.del(gone, None), Err(Refused::NoNode(gone)));
    assert_eq!(rt;
        nodes.del(low, Some(gone)),
        Err(Refused::InUse(User::Node(high)))
    );
    assert_eq!(rt;
        nodes.del(high, Some(gone)),
        Err(Refused::InUse(User::Export(gone)))
    );
    assert_eq!(rt; nodes.del(high, None), Ok(()));
    assert_eq!(rt; nodes.del(low, None), Ok(()));
    assert_eq!(rt;
        nodes.add_raw(high, file, 4096, None, true),
        Ok(1),
        "a node of no bytes"
    );
    assert_eq!(rt; nodes.group_del(&group), Ok(()));
    assert_eq!(rt; nodes.group_del(&group), Err(Refused::NoGroup));
    Ok(())
}

#[test]
fn ninth_throttle_node_is_too_deep(rt: HostRuntime) -> Result<(), Fail> {
    let group = name(b"group")?;
    let mut below = name(b"file")?;
    let mut nodes = Nodes::new(rt.alloc(), 4096, below, false)?;
    assert_eq!(rt; nodes.group_add(group), Ok(0));
    for place in 1..9 {
        let above = name(&[place])?;
        assert_eq!(rt; nodes.add_throttle(above, below, &group, false), Ok(place));
        below = above;
    }
    assert_eq!(rt;
        nodes.add_throttle(name(b"9")?, below, &group, false),
        Err(Refused::Deep)
    );
    assert_eq!(rt; nodes.add_raw(name(b"raw")?, below, 0, None, false), Ok(9));
    Ok(())
}

#[test]
fn nodes_are_reopened(rt: HostRuntime) -> Result<(), Fail> {
    let (file, low, high, gone) = (
        name(b"file")?,
        name(b"low")?,
        name(b"high")?,
        name(b"gone")?,
    );
    let group = name(b"group")?;
    let mut nodes = Nodes::new(rt.alloc(), 4096, file, false)?;
    assert_eq!(rt; nodes.group_add(group), Ok(0));
    assert_eq!(rt; nodes.add_raw(low, file, 0, Some(1024), false), Ok(1));
    assert_eq!(rt;
        nodes.reopen_raw(gone, file, 0, None, None),
        Err(Refused::NoNode(gone))
    );
    assert_eq!(rt;
        nodes.reopen_raw(low, gone, 0, None, None),
        Err(Refused::NoNode(gone))
    );
    assert_eq!(rt;
        nodes.reopen_raw(file, file, 0, None, None),
        Err(Refused::OtherKind)
    );
    assert_eq!(rt;
        nodes.reopen_raw(low, low, 0, None, None),
        Err(Refused::OtherFile)
    );
    assert_eq!(rt;
        nodes.reopen_raw(low, file, 4097, None, None),
        Err(Refused::OutOfRange(4096))
    );
    assert_eq!(rt; nodes.reopen_raw(low, file, 512, None, None), Ok(()));
    assert_eq!(rt; nodes.add_throttle(high, low, &group, false), Ok(2));
    assert_eq!(rt;
        nodes.reopen_raw(low, file, 0, None, None),
        Err(Refused::InUse(User::Node(high)))
    );
    assert_eq!(rt;
        nodes.reopen_raw(low, file, 0, Some(3584), None),
        Ok(()),
        "of the same size"
    );
    assert_eq!(rt;
        nodes.reopen_throttle(low, file, &group),
        Err(Refused::OtherKind)
    );
    assert_eq!(rt;
        nodes.reopen_throttle(high, file, &group),
        Err(Refused::OtherFile)
    );
    assert_eq!(rt;
        nodes.reopen_throttle(high, low, &gone),
        Err(Refused::NoGroup)
    );
    assert_eq!(rt; nodes.reopen_throttle(high, low, &group), Ok(()));
    Ok(())
}

#[test]
fn way_down_is_summed(rt: HostRuntime) -> Result<(), Fail> {
    let (file, low, mid, top) = (name(b"file")?, name(b"low")?, name(b"mid")?, name(b"top")?);
    let (slow, fast) = (name(b"slow")?, name(b"fast")?);
    let mut nodes = Nodes::new(rt.alloc(), 4096, file, false)?;
    assert_eq!(rt; nodes.group_add(slow), Ok(0));
    assert_eq!(rt; nodes.group_add(fast), Ok(1));
    assert_eq!(rt; nodes.add_raw(low, file, 512, Some(2048), true), Ok(1));
    assert_eq!(rt; nodes.add_throttle(mid, low, &slow, false), Ok(2));
    assert_eq!(rt; nodes.add_raw(top, mid, 256, None, false), Ok(3));
    assert_eq!(rt; nodes.add_throttle(fast, top, &fast, false), Ok(4));
    assert_eq!(rt; nodes.place_of(&top), Some(3));
    assert_eq!(rt; nodes.place_of(&slow), None);
    let way = nodes.route_from(4).ok_or("no way")?;
    assert_eq!(rt; way.offset, 768);
    assert_eq!(rt; way.size, 1792);
    assert_eq!(rt; way.count, 2);
    assert_eq!(rt; way.groups[0], (1, 4));
    assert_eq!(rt; way.groups[1], (0, 2));
    assert_eq!(rt; way.read_only, Some(low));
    let way = nodes.route_from(0).ok_or("no way")?;
    assert_eq!(rt; (way.offset, way.size, way.count), (0, 4096, 0));
    assert_eq!(rt; way.read_only, None);
    assert!(rt; nodes.route_from(5).is_none());
    Ok(())
}
