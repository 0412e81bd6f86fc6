use crate::padding::{clear, merge, plan};
use qs_bytes::Span;
use std::test::Fail;

#[test]
fn blocks_that_are_covered_in_part_are_planned(rt: HostRuntime) -> Result<(), Fail> {
    let rows = [
        (0, 512, 512, (0, 512), None, None),
        (100, 200, 512, (0, 512), Some(0), None),
        (100, 1000, 512, (0, 1536), Some(0), Some(2)),
        (512, 600, 512, (512, 1536), None, Some(2)),
        (510, 4, 512, (0, 1024), Some(0), Some(1)),
        (600, 424, 512, (512, 1024), Some(1), None),
        (512, 4096, 4096, (0, 8192), Some(0), Some(1)),
        (
            (1 << 40) - 1,
            1,
            4096,
            ((1 << 40) - 4096, 1 << 40),
            Some((1 << 28) - 1),
            None,
        ),
    ];
    for (offset, length, align, whole, head, tail) in rows {
        let span = Span::of(offset, length).ok_or("no span")?;
        assert!(rt; span.lo() < span.hi() && span.hi() <= 1 << 40);
        assert!(rt; align == 512 || align == 4096);
        let plan = plan(&span, align);
        assert_eq!(rt; (plan.whole.lo(), plan.whole.hi()), whole);
        assert_eq!(rt; plan.head, head);
        assert_eq!(rt; plan.tail, tail);
    }
    Ok(())
}

#[test]
fn covered_bytes_are_merged(rt: HostRuntime) -> Result<(), Fail> {
    let span = Span::of(6, 5).ok_or("no span")?;
    let rows = [
        (0, [0, 0, 0, 0]),
        (1, [0, 0, 1, 2]),
        (2, [3, 4, 5, 0]),
        (3, [0, 0, 0, 0]),
        (1 << 62, [0, 0, 0, 0]),
    ];
    for (b, merged) in rows {
        let mut block = [0; 4];
        merge(&mut block, b, &span, &[1, 2, 3, 4, 5]);
        assert_eq!(rt; block, merged);
    }
    Ok(())
}

#[test]
fn covered_bytes_are_cleared(rt: HostRuntime) -> Result<(), Fail> {
    let span = Span::of(6, 5).ok_or("no span")?;
    let rows = [
        (0, [9, 9, 9, 9]),
        (1, [9, 9, 0, 0]),
        (2, [0, 0, 0, 9]),
        (3, [9, 9, 9, 9]),
        (1 << 62, [9, 9, 9, 9]),
    ];
    for (b, cleared) in rows {
        let mut block = [9; 4];
        clear(&mut block, b, &span);
        assert_eq!(rt; block, cleared);
    }
    Ok(())
}

#[test]
fn four_bytes_over_two_blocks_are_merged(rt: HostRuntime) -> Result<(), Fail> {
    let span = Span::of(510, 4).ok_or("no span")?;
    let mut head = [9; 512];
    merge(&mut head, 0, &span, &[1, 2, 3, 4]);
    assert_eq!(rt; &head[508..], [9, 9, 1, 2].as_slice());
    let mut tail = [9; 512];
    merge(&mut tail, 1, &span, &[1, 2, 3, 4]);
    assert_eq!(rt; &tail[..4], [3, 4, 9, 9].as_slice());
    Ok(())
}
