ghost use Rattle.std.specs.Prelude.{◌≡◌, ◌↔◌, None, IfOk, IsOk};
ghost use Rattle.qs_outside.specs.Faults.{HasCause};

use crate::bind_fault::BindFault;
use crate::old_file::remove_dead;
use crate::socket::Socket;
use mio::net::{TcpStream, UnixStream};
use qs_host::Faults;
use qs_links::Acceptor;
use qs_outside::Failed;
use std::fs::Files;
use std::io;
use std::net::{self, Net, SocketAddr, ToSocketAddrs};
use std::os::unix::net as unix;
use std::sync::Wait;

/// The socket of a client that came. That none came is counted.
fn socket_of<S>(answer: io::Result<S>, faults: &mut Faults) -> Result<Socket<S>, Failed>
    ensures cause { HasCause faults.old.count faults.new.count result }
    ensures came { IsOk result ↔ IsOk answer }
{
    match answer {
        Ok(stream) => Ok(Socket::new(stream)),
        Err(error) => Err(faults.note(error)),
    }
}

/// Clients of a Unix socket.
#[derive(Drop)]
pub struct UnixAcceptor {
    listener: unix::UnixListener,
    faults: Faults,
}

impl UnixAcceptor {
    /// Listens at this path. The socket file of a server that is gone is replaced; a file that is no socket is
    /// never removed (`NoSocket`), nor the socket of a server that answers (`InUse`).
    pub fn bind<R: Files + Net>(rt: &R, path: &str) -> Result<Self, BindFault>
        ensures faults { IfOk result (λ a. a.faults.count ≡ 0) }
    {
        let listener = match unix::UnixListener::bind(rt, path) {
            Err(error) if error.kind() == io::ErrorKind::AddrInUse => {
                remove_dead(rt, path)?;
                unix::UnixListener::bind(rt, path)?
            }
            answer => answer?,
        };
        Ok(UnixAcceptor {
            listener,
            faults: Faults::new(),
        })
    }

    /// Why the last call failed that did.
    pub fn reason(&self) -> Option<io::Error>
        ensures { result ≡ self.now.faults.last }
    {
        self.faults.reason()
    }
}

/// The next client of a Unix socket.
fn accept_unix(listener: &unix::UnixListener) -> io::Result<UnixStream> {
    let (stream, _address) = listener.accept()?;
    stream.set_nonblocking(true)?;
    Ok(UnixStream::from_std(stream))
}

/// The next client, also where a signal came.
fn next_unix<R: Wait>(rt: &R, listener: &unix::UnixListener) -> io::Result<UnixStream> {
    for _ in rt.forever() {
        match accept_unix(listener) {
            Err(error) if error.kind() == io::ErrorKind::Interrupted => {}
            answer => return answer,
        }
    }
    unreachable!()
}

impl Acceptor for UnixAcceptor {
    type L = Socket<UnixStream>;

    ghost arriving = { λ _. None };

    ghost faults = { λ a. a.faults.count };

    fn accept<R: Wait>(&mut self, rt: &R) -> Result<Socket<UnixStream>, Failed> {
        socket_of(next_unix(rt, &self.listener), &mut self.faults)
    }
}

/// Clients of a TCP port.
#[derive(Drop)]
pub struct TcpAcceptor {
    listener: net::TcpListener,
    faults: Faults,
}

impl TcpAcceptor {
    /// Listens at this address, or at the first of several that can be had.
    pub fn bind<R: Net<Listener = net::TcpListener, Stream = net::TcpStream>, A: ToSocketAddrs>(
        rt: &R,
        address: A,
    ) -> Result<Self, BindFault>
        ensures faults { IfOk result (λ a. a.faults.count ≡ 0) }
    {
        let listener = net::TcpListener::bind(rt, address)?;
        Ok(TcpAcceptor {
            listener,
            faults: Faults::new(),
        })
    }

    /// The address with the port that the system gave.
    pub fn local_address(&self) -> io::Result<SocketAddr> {
        self.listener.local_addr()
    }

    /// Why the last call failed that did.
    pub fn reason(&self) -> Option<io::Error>
        ensures { result ≡ self.now.faults.last }
    {
        self.faults.reason()
    }
}

/// The next client of a TCP port. What is written to it goes at once, and isn't gathered.
fn accept_tcp(listener: &net::TcpListener) -> io::Result<TcpStream> {
    let (stream, _address) = listener.accept()?;
    stream.set_nonblocking(true)?;
    stream.set_nodelay(true)?;
    Ok(TcpStream::from_std(stream))
}

/// The next client, also where a signal came.
fn next_tcp<R: Wait>(rt: &R, listener: &net::TcpListener) -> io::Result<TcpStream> {
    for _ in rt.forever() {
        match accept_tcp(listener) {
            Err(error) if error.kind() == io::ErrorKind::Interrupted => {}
            answer => return answer,
        }
    }
    unreachable!()
}

impl Acceptor for TcpAcceptor {
    type L = Socket<TcpStream>;

    ghost arriving = { λ _. None };

    ghost faults = { λ a. a.faults.count };

    fn accept<R: Wait>(&mut self, rt: &R) -> Result<Socket<TcpStream>, Failed> {
        socket_of(next_tcp(rt, &self.listener), &mut self.faults)
    }
}
