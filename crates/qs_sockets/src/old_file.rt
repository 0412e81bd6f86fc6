ghost use Rattle.std.specs.Prelude.{◌≡◌};
ghost use Rattle.qs_sockets.specs.OldFiles.{removal};

use crate::bind_fault::BindFault;
use mio::net::UnixStream;
use std::fs::{self, Files};
use std::io;
use std::net::Net;
use std::os::unix::fs::FileTypeExt;

/// Whether a file that is in the way may be removed: only the socket of a server that is gone.
fn may_remove(is_socket: bool, refused: bool) -> Result<(), BindFault>
    ensures { result ≡ removal is_socket refused }
{
    if !is_socket {
        Err(BindFault::NoSocket)
    } else if !refused {
        Err(BindFault::InUse)
    } else {
        Ok(())
    }
}

/// Whether no server answers at this socket.
fn is_refused<R: Net>(rt: &R, path: &str) -> bool {
    match UnixStream::connect(rt, path) {
        Ok(_) => false,
        Err(error) => error.kind() == io::ErrorKind::ConnectionRefused,
    }
}

/// Removes the socket file of a server that is gone.
pub(crate) fn remove_dead<R: Files + Net>(rt: &R, path: &str) -> Result<(), BindFault> {
    let is_socket = fs::symlink_metadata(rt, path)?.file_type().is_socket();
    may_remove(is_socket, is_socket && is_refused(rt, path))?;
    fs::remove_file(rt, path)?;
    Ok(())
}
