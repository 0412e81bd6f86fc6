ghost use Rattle.std.specs.Prelude.{◌≡◌, ◌+◌, ◌%◌, ◌^◌, ◌<◌, ◌++◌, length, OnErr, OnOk};
ghost use Rattle.std.specs.Fmt.{decimal};
ghost use Rattle.qs_generate.specs.Sums.{totals_line, weighted};

use qs_bytes::{Bytes, Memory};
use std::alloc::Global;

/// What a made-up run comes to.
#[derive(Clone, Copy, Debug, PartialEq, Eq)]
pub struct RunTotals {
    /// The answers that weren't 0.
    pub errors: u64,
    /// The steps, also those that left their request as it was.
    pub steps: u64,
    /// The sum of the image's bytes, each times its place counted from 1, modulo 2^64.
    pub sum: u64,
}

/// A sum and the bytes of an image from the place `first` on, counted from 0: each byte times its place
/// counted from 1, modulo 2^64.
pub fn add_weighted(sum: u64, first: u64, bytes: &[u8]) -> u64
    requires { first + length bytes.now < 2 ^ 64 }
    ensures { result ≡ (sum + weighted first bytes.now) % 2 ^ 64 }
{
    let mut total = sum;
    for (i, byte) in bytes.iter().enumerate() {
        let weight = first + i as u64 + 1;
        total = total.wrapping_add(u64::from(*byte).wrapping_mul(weight));
    }
    total
}

/// Writes the line of a run at the end: `requests 10000 errors E steps T sum S`. Refused memory leaves
/// `out` as it was.
pub fn put_totals(alloc: Global, out: &mut Bytes, totals: &RunTotals) -> Result<(), Memory>
    ensures ok { OnOk result (out.new ≡ out.old ++ totals_line totals.now) }
    ensures err { OnErr result (out.new ≡ out.old) }
{
    let mut line = Bytes::of(Vec::new(alloc));
    line.append(b"requests 10000")?;
    put_counted(alloc, &mut line, b" errors ", totals.errors)?;
    put_counted(alloc, &mut line, b" steps ", totals.steps)?;
    put_counted(alloc, &mut line, b" sum ", totals.sum)?;
    line.append(b"\n")?;
    out.append(line.as_slice())
}

/// A word and a number.
fn put_counted(alloc: Global, out: &mut Bytes, word: &[u8], n: u64) -> Result<(), Memory>
    ensures { OnOk result (out.new ≡ out.old ++ word.now ++ decimal n) }
{
    out.append(word)?;
    let text = n.to_string(alloc)?;
    out.append(text.as_bytes())
}
