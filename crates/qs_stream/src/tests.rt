use crate::{State, Stream};
use qs_bytes::{Bytes, Memory};
use qs_outside::{Failed, MemSink, MemSource};
use std::alloc::Global;
use std::test::Fail;

/// A source of so many bytes, of which the reads with these numbers fail.
fn source(alloc: Global, count: usize, fails: &[u64]) -> Result<MemSource, Memory> {
    let bytes = Bytes::of(vec![in alloc; 7; count]?);
    Ok(MemSource::new(bytes, Vec::new(alloc), Vec::from_slice(alloc, fails)?))
}

/// What was put leaves where there would be more than 65,536 bytes, where it is as many itself, and at a flush.
#[test]
fn bytes_wait_until_they_are_many(rt: HostRuntime) -> Result<(), Fail> {
    let alloc = rt.alloc();
    let cases: [(&[usize], usize); 5] = [
        (&[65_535, 1], 0),
        (&[65_536], 65_536),
        (&[65_537], 65_537),
        (&[40_000, 40_000], 40_000),
        (&[1, 65_537, 1], 65_538),
    ];
    for (puts, early) in cases {
        let mut stream = Stream::new(alloc)?;
        let mut sink = MemSink::new(alloc, 1 << 18, Vec::new(alloc))?;
        let mut total = 0;
        for &count in puts {
            stream.put(&mut sink, vec![in alloc; 1; count]?.as_slice());
            total = count.saturating_add(total);
        }
        assert_eq!(rt; sink.sent().len(), early);
        assert_eq!(rt; stream.flush(&mut sink), Ok(()));
        assert_eq!(rt; sink.sent().len(), total);
    }
    Ok(())
}

/// What waits is written before more is read, and a stream whose side failed does nothing more.
#[test]
fn a_fault_ends_the_stream(rt: HostRuntime) -> Result<(), Fail> {
    let alloc = rt.alloc();
    let cases: [(&[u64], &[u64], Result<usize, Failed>, State, usize); 3] = [
        (&[], &[], Ok(3), State::Open, 5),
        (&[0], &[], Err(Failed), State::ReadFault, 5),
        (&[], &[0], Err(Failed), State::WriteFault, 0),
    ];
    for (reads, writes, result, state, sent) in cases {
        let mut stream = Stream::new(alloc)?;
        let mut input = source(alloc, 3, reads)?;
        let mut output = MemSink::new(alloc, 99, Vec::from_slice(alloc, writes)?)?;
        stream.put(&mut output, &[1, 2, 3, 4, 5]);
        if stream.waiting().is_empty() {
            assert_eq!(rt; stream.fill(&mut input, &mut output), result);
        }
        assert_eq!(rt; stream.state(), state);
        assert_eq!(rt; stream.check().is_ok(), result.is_ok());
        assert_eq!(rt; output.sent().len(), sent);
        if stream.waiting().len() == 3 {
            stream.take(2);
            assert_eq!(rt; stream.waiting(), [7].as_slice());
        }
    }
    Ok(())
}
