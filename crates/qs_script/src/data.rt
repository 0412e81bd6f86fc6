ghost use Rattle.std.specs.Prelude.{◌≡◌, ◌↔◌, ◌<◌, ◌%◌, Ok, IfOk, IfErr, IsTrue, codes, length, slice_index};
ghost use Rattle.std.specs.List.{AllPass};
ghost use Rattle.hex.specs.Hex.{decode_of, is_hex_digit};
ghost use Rattle.qs_script.specs.Spelled.{IsDataFault, Repeats, SpellsData};

use crate::number::number;
use hex::FromHexError;
use qs_bytes::{Bytes, MAX_PAYLOAD};
use std::alloc::Global;

/// Why a word gives no data.
#[derive(Clone, Copy, Debug, PartialEq, Eq)]
pub enum DataFault {
    /// It spells none.
    OutOfForm,
    /// Memory was refused for so many bytes.
    Memory(u64),
}

/// The data that a word spells: `-` for none, `HH*N`, or pairs of hexadecimal digits. OutOfForm exactly
/// where it spells none.
pub fn data_of(alloc: Global, word: &[u8]) -> Result<Bytes, DataFault>
    ensures ok { IfOk result (SpellsData word.now) }
    ensures fault { IfErr result (IsDataFault (SpellsData word.now)) }
{
    if word.is_empty() {
        return Err(DataFault::OutOfForm);
    }
    if is_minus(word) {
        return Ok(Bytes::of(Vec::new(alloc)));
    }
    if has_star(word) {
        return repeated(alloc, &word[..2], &word[3..]);
    }
    pairs(alloc, word)
}

/// Whether the word is `-`.
fn is_minus(word: &[u8]) -> bool
    ensures { IsTrue result ↔ (word.now ≡ codes "-") }
{
    match word {
        [byte] => *byte == b'-',
        _ => false,
    }
}

/// Whether a star stands behind two bytes.
fn has_star(word: &[u8]) -> bool
    ensures { IsTrue result ↔ ((2 < length word.now) × (slice_index word.now 2 ≡ 42)) }
{
    word.len() > 2 && word[2] == b'*'
}

/// The bytes of pairs of digits.
fn pairs(alloc: Global, word: &[u8]) -> Result<Bytes, DataFault>
    ensures ok { IfOk result (λ bytes. decode_of word.now ≡ Ok bytes) }
    ensures fault { IfErr result (IsDataFault (λ bytes. decode_of word.now ≡ Ok bytes)) }
{
    match hex::decode(alloc, word) {
        Ok(bytes) => Ok(Bytes::of(bytes)),
        Err(FromHexError::OutOfMemory) => {
            if are_pairs(word) {
                Err(DataFault::Memory(word.len() as u64 / 2))
            } else {
                Err(DataFault::OutOfForm)
            }
        }
        Err(_) => Err(DataFault::OutOfForm),
    }
}

/// Whether the word is pairs of hexadecimal digits.
fn are_pairs(word: &[u8]) -> bool
    ensures { IsTrue result ↔ ((length word.now % 2 ≡ 0) × AllPass is_hex_digit word.now) }
{
    word.len() % 2 == 0 && word.iter().all(|&byte| is_digit(byte))
}

/// Whether a byte is a hexadecimal digit.
fn is_digit(byte: u8) -> bool
    ensures { result ≡ is_hex_digit byte }
{
    byte.is_ascii_hexdigit()
}

/// One byte, spelled by two digits, over and over.
fn repeated(alloc: Global, pair: &[u8], digits: &[u8]) -> Result<Bytes, DataFault>
    ensures ok { IfOk result (Repeats pair.now digits.now) }
    ensures fault { IfErr result (IsDataFault (Repeats pair.now digits.now)) }
{
    let mut byte = [0];
    match hex::decode_to_slice(pair, &mut byte) {
        Ok(()) => {}
        Err(_) => return Err(DataFault::OutOfForm),
    }
    let Some(count) = number(digits, MAX_PAYLOAD) else {
        return Err(DataFault::OutOfForm);
    };
    match vec![in alloc; byte[0]; count as usize] {
        Ok(bytes) => Ok(Bytes::of(bytes)),
        Err(_) => Err(DataFault::Memory(count)),
    }
}
