use super::*;
use std::test::Fail;

fn name(bytes: &[u8]) -> Result<Name, Fail> {
    Ok(Name::of(bytes).ok_or("no name")?)
}

fn over(id: Name, name: Name, node: u8) -> NewExport {
    NewExport {
        id,
        name,
        node,
        writable: true,
        share_write: true,
    }
}

#[test]
fn exports_are_made_and_deleted(rt: HostRuntime) -> Result<(), Fail> {
    let (one, two, disk, other) = (
        name(b"one")?,
        name(b"two")?,
        name(b"disk")?,
        name(b"other")?,
    );
    let mut exports = Exports::new(rt.alloc());
    assert_eq!(rt; exports.add(over(one, disk, 3)), Ok(0));
    assert_eq!(rt;
        exports.add(over(one, other, 3)),
        Err(Refused::Duplicate(0)),
        "its id"
    );
    assert_eq!(rt;
        exports.add(over(two, disk, 3)),
        Err(Refused::Duplicate(0)),
        "its name"
    );
    assert_eq!(rt; exports.add(over(two, other, 4)), Ok(1));
    assert_eq!(rt;
        exports.del(&disk, false),
        Err(Refused::NoExport),
        "a name is no id"
    );
    assert_eq!(rt; exports.first_over(4).is_some(), true);
    assert_eq!(rt; exports.del(&one, false), Ok(()));
    assert_eq!(rt; exports.first_over(3).is_some(), false);
    assert_eq!(rt;
        exports.add(over(one, disk, 3)),
        Ok(0),
        "the lowest free place"
    );
    Ok(())
}

#[test]
fn empty_name_is_the_export_made_first(rt: HostRuntime) -> Result<(), Fail> {
    let (one, two, three) = (name(b"one")?, name(b"two")?, name(b"three")?);
    let none = name(b"")?;
    let mut exports = Exports::new(rt.alloc());
    assert!(rt; exports.named(&none).is_none());
    for id in [one, two] {
        assert!(rt; exports.add(over(id, id, 0)).is_ok());
    }
    assert_eq!(rt; exports.del(&one, false), Ok(()));
    assert_eq!(rt; exports.add(over(three, three, 0)), Ok(0));
    let first = exports.named(&none).ok_or("no export")?;
    assert_eq!(rt; first.place, 1, "the one at place 0 was made later");
    Ok(())
}

#[test]
fn export_with_clients_goes_with_the_last(rt: HostRuntime) -> Result<(), Fail> {
    let (one, disk) = (name(b"one")?, name(b"disk")?);
    let mut exports = Exports::new(rt.alloc());
    assert_eq!(rt; exports.add(over(one, disk, 0)), Ok(0));
    assert_eq!(rt; exports.detach(0), Err(Refused::NotAttached));
    for clients in 1..3 {
        assert_eq!(rt;
            exports.attach(&disk).map(|export| export.clients),
            Ok(clients)
        );
    }
    assert_eq!(rt; exports.del(&one, false), Err(Refused::Connected(2)));
    assert_eq!(rt; exports.del(&one, true), Ok(()));
    assert_eq!(rt;
        exports.attach(&disk).map(|export| export.clients),
        Err(Refused::NoExport)
    );
    assert_eq!(rt;
        exports.add(over(one, disk, 0)),
        Ok(1),
        "its names are free, its place isn't"
    );
    assert_eq!(rt; exports.detach(0), Ok(()));
    assert!(rt; exports.at(0).is_some());
    assert_eq!(rt; exports.detach(0), Ok(()));
    assert!(rt; exports.at(0).is_none(), "gone with its last client");
    assert_eq!(rt; exports.detach(0), Err(Refused::NotAttached));
    Ok(())
}

#[test]
fn places_and_clients_are_bounded(rt: HostRuntime) -> Result<(), Fail> {
    let mut exports = Exports::new(rt.alloc());
    for place in 0..PLACES {
        let id = name(&[place])?;
        assert_eq!(rt; exports.add(over(id, id, 0)), Ok(place));
    }
    let more = name(b"more")?;
    assert_eq!(rt; exports.add(over(more, more, 0)), Err(Refused::Full));
    let first = name(&[0])?;
    for _ in 0..MOST_CLIENTS {
        assert!(rt; exports.attach(&first).is_ok());
    }
    assert_eq!(rt;
        exports.attach(&first).map(|export| export.clients),
        Err(Refused::Crowded)
    );
    exports.clear();
    assert!(rt; exports.as_slice().is_empty());
    Ok(())
}
