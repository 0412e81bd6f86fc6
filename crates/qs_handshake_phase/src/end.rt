use qs_bytes::Mode;
use qs_status::SessionEnd;

/// How a handshake came to its end.
#[derive(Clone, Copy, Debug, PartialEq, Eq)]
pub enum HandshakeEnd {
    /// Requests follow in this mode. The session is a client of the export at place `export`.
    Serves { mode: Mode, export: u8 },
    /// The session has ended so, and is a client of no export.
    Closed(SessionEnd),
}
