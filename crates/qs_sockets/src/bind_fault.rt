use std::error::Error;
use std::{fmt, io};

/// Why clients can't connect to an address.
#[derive(Clone, Copy, Debug)]
pub enum BindFault {
    /// The system refused it.
    System(io::Error),
    /// Another server listens there.
    InUse,
    /// There is a file that is no socket, which is never removed.
    NoSocket,
}

impl From<io::Error> for BindFault {
    ghost use Rattle.std.specs.Prelude.{◌≡◌};
    ghost use Rattle.qs_sockets.specs.declared.bind_fault.BindFault.TheVariants.{System};

    ghost from_gives = { λ error fault. fault ≡ System error };

    fn from(error: io::Error) -> BindFault {
        BindFault::System(error)
    }
}

impl fmt::Display for BindFault {
    fn fmt<W: fmt::Write>(&self, f: &mut fmt::Formatter<W>) -> fmt::Result {
        match self {
            BindFault::System(error) => error.fmt(f),
            BindFault::InUse => f.write_str("another server listens there"),
            BindFault::NoSocket => f.write_str("there is a file that is no socket"),
        }
    }
}

impl Error for BindFault {}
