use super::*;
use std::test::Fail;

#[test]
fn numbers_are_big_endian(rt: HostRuntime) -> Result<(), Fail> {
    let mut out = Bytes::of(Vec::new(rt.alloc()));
    put16(&mut out, 0x0102)?;
    put32(&mut out, 0x25609513)?;
    put64(&mut out, 1)?;
    let spelled = [0x01, 0x02, 0x25, 0x60, 0x95, 0x13, 0, 0, 0, 0, 0, 0, 0, 1];
    assert_eq!(rt; out.as_slice(), spelled.as_slice());
    let bytes = out.as_slice();
    for (at, found) in [
        (0, Some(0x0102)),
        (12, Some(1)),
        (13, None),
        (usize::MAX, None),
    ] {
        assert_eq!(rt; be16(bytes, at), found);
    }
    for (at, found) in [(2, Some(0x25609513)), (10, Some(1)), (11, None)] {
        assert_eq!(rt; be32(bytes, at), found);
    }
    for (at, found) in [(5, Some(0x1300000000000000)), (6, Some(1)), (7, None)] {
        assert_eq!(rt; be64(bytes, at), found);
    }
    assert_eq!(rt; u16_at(&spelled, 4), 0x9513);
    assert_eq!(rt; u32_at(&spelled, 0), 0x01022560);
    assert_eq!(rt; u64_at(&spelled, 6), 1);
    Ok(())
}

#[test]
fn spans_have_ends_and_blocks(rt: HostRuntime) -> Result<(), Fail> {
    assert!(rt; Span::of(u64::MAX, 0).is_some());
    assert!(rt; Span::of(u64::MAX, 1).is_none());
    let rows = [
        (0, 512, true, Some((0, 512))),
        (510, 4, false, Some((0, 1024))),
        (1024, 1, false, Some((1024, 1536))),
        (u64::MAX - 4, 1, false, None),
    ];
    for (offset, length, aligned, whole) in rows {
        let span = Span::of(offset, length).ok_or("no span")?;
        assert_eq!(rt;
            (span.lo(), span.hi()),
            (offset, offset.wrapping_add(length))
        );
        assert_eq!(rt; span.is_aligned(512), aligned);
        assert!(rt; span.lo() < span.hi());
        let out = span.align_out(512).map(|out| (out.lo(), out.hi()));
        assert_eq!(rt; out, whole, "at {offset}");
    }
    Ok(())
}

#[test]
fn spans_that_share_a_place_overlap(rt: HostRuntime) -> Result<(), Fail> {
    let span = Span::of(10, 10).ok_or("no span")?;
    let rows = [
        (0, 10, false),
        (0, 11, true),
        (12, 3, true),
        (19, 1, true),
        (20, 5, false),
        (15, 0, false),
    ];
    for (offset, length, overlaps) in rows {
        let other = Span::of(offset, length).ok_or("no span")?;
        assert_eq!(rt; span.overlaps(&other), overlaps, "at {offset}");
        assert_eq!(rt; other.overlaps(&span), overlaps, "at {offset}");
    }
    Ok(())
}

#[test]
fn names_are_short_text(rt: HostRuntime) -> Result<(), Fail> {
    let long = [b'a'; 64];
    let rows: [(&[u8], bool, bool); 9] = [
        (b"", true, false),
        (b"disk", true, true),
        (b"file0", true, true),
        (b"a-b_c.d", true, true),
        (b"0file", true, false),
        (b"a b", true, false),
        (&long[..31], true, true),
        (&long[..32], true, false),
        (&long[..63], true, false),
    ];
    for (bytes, is_name, is_id) in rows {
        let name = Name::of(bytes);
        assert_eq!(rt; name.is_some(), is_name);
        let name = name.ok_or("no name")?;
        assert_eq!(rt; name.as_slice(), bytes);
        assert_eq!(rt; name.is_id(), is_id);
    }
    assert!(rt; Name::of(&long).is_none());
    assert!(rt; Name::of(b"\xff").is_none());
    let names = NameList([Name::of(b"disk").ok_or("no name")?].to_vec(rt.alloc())?);
    assert_eq!(rt; names.0.len(), 1);
    Ok(())
}

#[test]
fn buffers_grow_at_their_end(rt: HostRuntime) -> Result<(), Fail> {
    let mut bytes = Bytes::of(Vec::new(rt.alloc()));
    assert!(rt; bytes.is_empty());
    bytes.append(b"abc")?;
    bytes.append(b"")?;
    bytes.append(b"de")?;
    bytes.as_mut_slice().reverse();
    assert_eq!(rt; bytes.as_slice(), b"edcba".as_slice());
    assert_eq!(rt; bytes.len(), 5);
    assert!(rt; !bytes.is_empty());
    assert_eq!(rt; bytes.into_vec().as_slice(), b"edcba".as_slice());
    assert_eq!(rt;
        format!(in rt.alloc(); "{Memory}")?.as_str(),
        "out of memory"
    );
    Ok(())
}

/// The numbers of proto.md, "Error values".
#[test]
fn errors_have_the_numbers_of_the_protocol(rt: HostRuntime) {
    let rows = [
        (Errno::Perm, 1),
        (Errno::Io, 5),
        (Errno::NoMem, 12),
        (Errno::Inval, 22),
        (Errno::NoSpace, 28),
        (Errno::Shutdown, 108),
    ];
    for (errno, number) in rows {
        assert_eq!(rt; errno.number(), number);
    }
}
