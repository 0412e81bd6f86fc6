ghost use Rattle.std.specs.Prelude.{◌≡◌, ◌++◌, OnOk, OnErr};
ghost use Rattle.qs_nbd_wire.specs.Exports.{export_answer, flags_of_export, zeros_told};

use qs_bytes::{Bytes, Memory, Mode, put16, put64};
use std::alloc::Global;

// Flags of the transmission (NBD proto.md, "Transmission flags").
const HAS_FLAGS: u16 = 0x1;

const READ_ONLY: u16 = 0x2;

const SEND_FLUSH: u16 = 0x4;

const SEND_FUA: u16 = 0x8;

const SEND_TRIM: u16 = 0x20;

const SEND_WRITE_ZEROES: u16 = 0x40;

const SEND_DF: u16 = 0x80;

const CAN_MULTI_CONN: u16 = 0x100;

/// The zeros at the end of EXPORT_NAME's answer.
const ZEROS: [u8; 124] = [0; 124];

/// What a client learns of an export. `size` is in bytes.
#[derive(Clone, Copy, Debug, PartialEq, Eq)]
pub struct ExportInfo2 {
    pub size: u64,
    pub writable: bool,
}

/// The flags of the transmission that are told of an export.
pub fn flags_told(info: &ExportInfo2, structured: bool) -> u16
    ensures { result ≡ flags_of_export info.now structured }
{
    let access = if info.writable {
        SEND_TRIM + SEND_WRITE_ZEROES
    } else {
        READ_ONLY
    };
    let chunks = if structured { SEND_DF } else { 0 };
    HAS_FLAGS + SEND_FLUSH + SEND_FUA + CAN_MULTI_CONN + access + chunks
}

/// Writes the answer to EXPORT_NAME at the end: the export's size and flags, and 124 zeros exactly
/// where the client didn't want them left out. Refused memory leaves the buffer as it was.
pub fn put_export_answer(
    alloc: Global,
    out: &mut Bytes,
    mode: &Mode,
    info: &ExportInfo2,
) -> Result<(), Memory>
    ensures ok { OnOk result (out.new ≡ out.old ++ export_answer mode.now info.now) }
    ensures err { OnErr result (out.new ≡ out.old) }
{
    let mut answer = Bytes::of(Vec::new(alloc));
    put64(&mut answer, info.size)?;
    put16(&mut answer, flags_told(info, mode.structured))?;
    answer.append(zeros(mode.no_zeroes))?;
    out.append(answer.as_slice())
}

/// The zeros behind size and flags.
fn zeros(left_out: bool) -> &'static [u8]
    ensures { result.now ≡ zeros_told left_out }
{
    if left_out { &[] } else { &ZEROS }
}
