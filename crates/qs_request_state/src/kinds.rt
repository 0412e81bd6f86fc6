ghost use Rattle.std.specs.Prelude.{◌≡◌};
ghost use Rattle.qs_model.specs.Requests.{brings_bytes, form_error, is_flush, is_known, is_read, is_trim, stores_bytes, wants_writable};

use qs_bytes::{Ask, Kind, MAX_PAYLOAD};

/// Whether there is such a request.
pub fn is_known(kind: Kind) -> bool
    ensures { result ≡ is_known kind }
{
    !matches!(kind, Kind::Unknown(_))
}

pub fn is_read(kind: Kind) -> bool
    ensures { result ≡ is_read kind }
{
    matches!(kind, Kind::Read)
}

pub fn is_flush(kind: Kind) -> bool
    ensures { result ≡ is_flush kind }
{
    matches!(kind, Kind::Flush)
}

pub fn is_trim(kind: Kind) -> bool
    ensures { result ≡ is_trim kind }
{
    matches!(kind, Kind::Trim)
}

/// Whether a request brings the bytes that it stores.
pub fn brings_bytes(kind: Kind) -> bool
    ensures { result ≡ brings_bytes kind }
{
    matches!(kind, Kind::Write)
}

/// Whether a request stores bytes, its own or zeros.
pub fn stores_bytes(kind: Kind) -> bool
    ensures { result ≡ stores_bytes kind }
{
    matches!(kind, Kind::Write | Kind::Zero)
}

/// Whether a request wants a way that may be written.
pub fn wants_writable(kind: Kind) -> bool
    ensures { result ≡ wants_writable kind }
{
    matches!(kind, Kind::Write | Kind::Zero | Kind::Trim)
}

/// Whether a request is refused by its form alone.
pub fn is_form_error(ask: Ask) -> bool
    ensures { result ≡ form_error ask }
{
    let long = is_read(ask.kind) && ask.length > MAX_PAYLOAD;
    !is_known(ask.kind) || !ask.flags_fit || long
}
