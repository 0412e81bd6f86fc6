ghost use Rattle.std.specs.Prelude.{◌≡◌, ◌↔◌, IsTrue};
ghost use Rattle.qs_cells.specs.Cells.{Legal, value_then, fits};

/// What happened to one byte of the image by request `r`.
#[derive(Clone, Copy, Debug, PartialEq, Eq)]
pub enum CellEntry {
    /// The request read the byte, and got this value.
    Read { r: u64, v: u8 },
    /// The request wrote this value.
    Write { r: u64, v: u8 },
    /// The disk refused the request's write of this value; `took` where the byte has it all the same.
    Maybe { r: u64, v: u8, took: bool },
    /// A crash left this value.
    Crash { v: u8 },
}

/// Whether a byte with the value `first` at the beginning can have this history: each read has the
/// value of the last write, crash or refused write that took before it, or `first`. Which values a
/// crash may leave isn't said here.
pub fn legal_cell(first: u8, list: &[CellEntry]) -> bool
    ensures { IsTrue result ↔ Legal first list.now }
{
    let mut value = first;
    for entry in list {
        if !agrees(value, entry) {
            return false;
        }
        value = after(value, entry);
    }
    true
}

fn agrees(value: u8, entry: &CellEntry) -> bool
    ensures { result ≡ fits value entry.now }
{
    match *entry {
        CellEntry::Read { v, .. } => v == value,
        _ => true,
    }
}

fn after(value: u8, entry: &CellEntry) -> u8
    ensures { result ≡ value_then value entry.now }
{
    match *entry {
        CellEntry::Read { .. } => value,
        CellEntry::Write { v, .. } => v,
        CellEntry::Maybe { v, took, .. } => { if took { v } else { value } }
        CellEntry::Crash { v } => v,
    }
}

#[cfg(test)]
mod tests {
    use super::*;
    use std::test::Fail;

    #[test]
    fn reads_have_the_last_value(rt: HostRuntime) -> Result<(), Fail> {
        let read = |v: u8| CellEntry::Read { r: 1, v };
        let write = |v: u8| CellEntry::Write { r: 2, v };
        let maybe = |v: u8, took: bool| CellEntry::Maybe { r: 3, v, took };
        let crash = CellEntry::Crash { v: 7 };
        let rows: [(&[CellEntry], bool); 8] = [
            (&[], true),
            (&[read(5)], true),
            (&[read(6)], false),
            (&[write(6), read(6)], true),
            (&[write(6), read(5)], false),
            (&[write(6), maybe(8, false), read(6)], true),
            (&[write(6), maybe(8, true), read(6)], false),
            (&[write(6), read(6), crash, read(7)], true),
        ];
        for (list, answer) in rows.iter() {
            assert_eq!(rt; legal_cell(5, list), *answer, "{list:?}");
        }
        Ok(())
    }
}
