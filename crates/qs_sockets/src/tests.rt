use crate::{BindFault, Socket, TcpAcceptor, UnixAcceptor};
use mio::net::{TcpStream, UnixStream};
use mio::{Events, Interest, Poll, Token};
use qs_links::{Acceptor, Link, Tried, Wire};
use qs_outside::Failed;
use std::fs;
use std::os::unix::net::UnixListener;
use std::sync::Wait;
use std::test::Fail;
use std::time::Duration;

/// Tries a read until the wire is ready.
fn read_ready<R: Wait, W: Wire>(rt: &R, wire: &mut W, into: &mut [u8]) -> Tried {
    for _ in rt.forever() {
        match wire.try_read(into) {
            Tried::NotReady => {}
            tried => return tried,
        }
    }
    unreachable!()
}

fn send<L: Link>(link: &mut L, piece: &[u8]) -> Result<usize, Failed> {
    link.write(piece)
}

fn receive<L: Link>(link: &mut L, into: &mut [u8]) -> Result<usize, Failed> {
    link.read(into)
}

/// Passes bytes both ways between a client's wire and a server's, up to the end.
fn talk<R: Wait, C: Wire + Link + Drop, S: Wire + Link>(
    rt: &R,
    mut client: C,
    server: &mut S,
) -> Result<(), Fail> {
    let mut into = [0; 8];
    if server.try_read(&mut into) != Tried::NotReady {
        return Err(Fail::from("it was ready"));
    }
    if client.try_write(b"abc") != Tried::Did(3) {
        return Err(Fail::from("nothing was written"));
    }
    if read_ready(rt, server, &mut into) != Tried::Did(3) || &into[..3] != b"abc".as_slice() {
        return Err(Fail::from("nothing was read"));
    }
    if send(server, b"de") != Ok(2) || receive(&mut client, &mut into) != Ok(2) {
        return Err(Fail::from("no answer came"));
    }
    drop(client);
    if read_ready(rt, server, &mut into) != Tried::Ended {
        return Err(Fail::from("there was no end"));
    }
    Ok(())
}

#[test]
fn a_unix_socket_goes_both_ways(rt: HostRuntime) -> Result<(), Fail> {
    let mut acceptor = UnixAcceptor::bind(&rt, "both_ways.sock")?;
    let client = Socket::new(UnixStream::connect(&rt, "both_ways.sock")?);
    let mut server = acceptor.accept(&rt)?;
    fs::remove_file(&rt, "both_ways.sock")?;
    assert!(rt; acceptor.reason().is_none() && server.read_reason().is_none());
    talk(&rt, client, &mut server)
}

/// A poll tells the key of the socket that has something to read.
#[test]
fn a_registered_socket_is_told(rt: HostRuntime) -> Result<(), Fail> {
    let (near, far) = UnixStream::pair(&rt)?;
    let (mut near, mut far) = (Socket::new(near), Socket::new(far));
    let mut poll = Poll::new(&rt)?;
    let mut events = Events::with_capacity(rt.alloc(), 4)?;
    poll.registry()
        .register(&mut near, Token(7), Interest::READABLE)?;
    assert_eq!(rt; far.try_write(b"a"), Tried::Did(1));
    poll.poll(&mut events, Some(Duration::from_secs(20)))?;
    assert!(rt;
        events
            .iter()
            .any(|event| event.token() == Token(7) && event.is_readable())
    );
    Ok(())
}

#[test]
fn a_port_goes_both_ways(rt: HostRuntime) -> Result<(), Fail> {
    let mut acceptor = TcpAcceptor::bind(&rt, "127.0.0.1:0")?;
    let client = Socket::new(TcpStream::connect(&rt, acceptor.local_address()?)?);
    let mut server = acceptor.accept(&rt)?;
    assert!(rt; acceptor.reason().is_none() && server.write_reason().is_none());
    talk(&rt, client, &mut server)
}

#[test]
fn only_a_dead_socket_file_is_replaced(rt: HostRuntime) -> Result<(), Fail> {
    let path = "replaced.sock";
    let _left = fs::remove_file(&rt, path);
    drop(UnixListener::bind(&rt, path)?);
    let living = UnixAcceptor::bind(&rt, path)?;
    assert!(rt; matches!(&UnixAcceptor::bind(&rt, path), Err(BindFault::InUse)));
    drop(living);
    fs::remove_file(&rt, path)?;
    fs::write(&rt, path, b"text")?;
    let refused = UnixAcceptor::bind(&rt, path);
    let kept = fs::read(&rt, path)?;
    fs::remove_file(&rt, path)?;
    assert!(rt; matches!(&refused, Err(BindFault::NoSocket)));
    assert_eq!(rt; kept.as_slice(), b"text".as_slice());
    Ok(())
}
