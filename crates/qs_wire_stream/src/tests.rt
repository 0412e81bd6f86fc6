use crate::{Sending, WireStream};
use qs_bytes::Bytes;
use qs_links::{MemLink, MemWire, Tried};
use qs_outside::{MemSink, MemSource};
use std::alloc::Global;
use std::process::Abort;
use std::test::Fail;

type TestStream = WireStream<MemWire<MemLink>>;

/// A stream over a wire of these bytes, of which each of the first two reads gives at most two. The calls with these
/// numbers fail, and the tries with these find it not ready.
fn stream_of(
    rt: &impl Abort,
    alloc: Global,
    bytes: &[u8],
    bad_reads: &[u64],
    bad_writes: &[u64],
    unready: &[u64],
) -> Result<TestStream, Fail> {
    let source = MemSource::new(
        Bytes::of(bytes.to_vec(alloc)?),
        [2, 2].to_vec(alloc)?,
        bad_reads.to_vec(alloc)?,
    );
    let sink = MemSink::new(alloc, 1 << 20, bad_writes.to_vec(alloc)?)?;
    let wire = MemWire::new(MemLink::new(source, sink), unready.to_vec(alloc)?);
    match WireStream::new(alloc, wire) {
        Ok(stream) => Ok(stream),
        Err(_) => {
            assert!(rt; false, "memory");
            unreachable!()
        }
    }
}

fn read(stream: &mut TestStream) -> Option<Tried> {
    if !stream.waiting().is_empty() {
        return None;
    }
    Some(stream.read())
}

#[test]
fn bytes_are_read_where_none_wait(rt: HostRuntime) -> Result<(), Fail> {
    let mut stream = stream_of(&rt, rt.alloc(), &[1, 2, 3], &[1], &[], &[0])?;
    assert_eq!(rt; read(&mut stream), Some(Tried::NotReady));
    assert_eq!(rt; read(&mut stream), Some(Tried::Did(2)));
    assert_eq!(rt; stream.waiting(), [1, 2].as_slice());
    assert_eq!(rt; read(&mut stream), None);
    if stream.waiting().len() == 2 {
        stream.take(1);
        assert_eq!(rt; stream.waiting(), [2].as_slice());
        if stream.waiting().len() == 1 {
            stream.take(1);
        }
    }
    assert_eq!(rt; read(&mut stream), Some(Tried::Failed));
    assert_eq!(rt; read(&mut stream), Some(Tried::Did(1)));
    Ok(())
}

/// Puts bytes, where there is or can be room for them.
fn put(stream: &mut TestStream, bytes: &[u8]) -> bool {
    match stream.reserve(bytes.len()) {
        Ok(()) => {
            stream.put(bytes);
            true
        }
        Err(_) => false,
    }
}

#[test]
fn what_is_put_waits_until_it_is_written(rt: HostRuntime) -> Result<(), Fail> {
    let alloc = rt.alloc();
    let long = vec![in alloc; 7; 200_000]?;
    let mut stream = stream_of(&rt, alloc, &[], &[], &[1], &[0, 2])?;
    assert!(rt; stream.is_written());
    assert_eq!(rt; stream.write(), Sending::Written);
    assert!(rt; put(&mut stream, &[1, 2, 3]));
    assert!(rt; put(&mut stream, long.as_slice()));
    assert!(rt; !stream.is_written());
    assert_eq!(rt; stream.write(), Sending::NotReady);
    assert_eq!(rt; stream.wire().link().sent().len(), 0);
    assert_eq!(rt; stream.write(), Sending::Written);
    assert!(rt; stream.is_written());
    assert_eq!(rt; stream.wire().link().sent().len(), 200_003);
    assert!(rt; put(&mut stream, &[4]));
    assert_eq!(rt; stream.write(), Sending::NotReady);
    assert_eq!(rt; stream.write(), Sending::Failed);
    assert!(rt; !stream.is_written());
    assert_eq!(rt; stream.write(), Sending::Written);
    assert_eq!(rt; stream.into_wire().link().sent().len(), 200_004);
    Ok(())
}
