ghost use Rattle.std.specs.Prelude.{◌≡◌};
ghost use Rattle.qs_nbd_wire.specs.Requests.{has_body, is_too_long};
ghost use Rattle.qs_nbd_transmission.specs.Heads.{ask_of, flags_fit_of, has_flag, kind_of};

use qs_bytes::{Ask, Kind, MAX_PAYLOAD};
use qs_nbd_wire::{DF, FLUSH, FUA, NO_HOLE, READ, RequestHead, TRIM, WRITE, WRITE_ZEROES};

/// The kind that a type's number names.
fn kind(number: u16) -> Kind
    ensures { result ≡ kind_of number }
{
    match number {
        READ => Kind::Read,
        WRITE => Kind::Write,
        FLUSH => Kind::Flush,
        TRIM => Kind::Trim,
        WRITE_ZEROES => Kind::Zero,
        _ => Kind::Unknown(number),
    }
}

/// Whether the flag is among the flags.
fn is_set(flags: u16, flag: u16) -> bool
    ensures { result ≡ has_flag flags flag }
{
    flags & flag != 0
}

/// Whether each flag that is set fits the kind in a session of this mode.
fn flags_fit(structured: bool, head: &RequestHead) -> bool
    ensures { result ≡ flags_fit_of structured head.now }
{
    let no_hole_fits = !is_set(head.flags, NO_HOLE) || head.kind == WRITE_ZEROES;
    let df_fits = !is_set(head.flags, DF) || (structured && head.kind == READ);
    head.flags < 8 && no_hole_fits && df_fits
}

/// What the head asks for.
pub fn ask(structured: bool, head: &RequestHead) -> Ask
    ensures { result ≡ ask_of structured head.now }
{
    Ask {
        kind: kind(head.kind),
        fua: is_set(head.flags, FUA),
        flags_fit: flags_fit(structured, head),
        cookie: head.cookie,
        offset: head.offset,
        length: u64::from(head.size),
    }
}

/// Whether the head is that of a WRITE of more than 32 MiB.
pub fn is_over_long(head: &RequestHead) -> bool
    ensures { result ≡ is_too_long head.now }
{
    head.kind == WRITE && u64::from(head.size) > MAX_PAYLOAD
}

/// Whether data follow the head.
pub fn wants_body(head: &RequestHead) -> bool
    ensures { result ≡ has_body head.now }
{
    head.kind == WRITE && head.size > 0
}
