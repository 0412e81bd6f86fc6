ghost use Rattle.std.specs.Prelude.{◌≡◌, ◌+◌, ◌^◌, ◌<◌, false};
ghost use Rattle.qs_qmp_frame.specs.Objects.{braces, ends, next};

/// Where a byte of an object stands (RFC 8259, "Strings"). Each has the number of braces that are
/// open within the object's own.
#[derive(Clone, Copy, Debug, PartialEq, Eq)]
pub enum Place {
    /// Outside strings.
    Outside(usize),
    /// In a string.
    InString(usize),
    /// In a string, behind a backslash.
    Escaped(usize),
}

impl Place {
    /// Whether the byte ends the object.
    pub fn ends(self, byte: u8) -> bool
        ensures { result ≡ ends self byte }
    {
        self == Place::Outside(0) && byte == b'}'
    }

    /// The place behind a byte that doesn't end the object.
    pub fn next(self, byte: u8) -> Place
        requires room { braces self + 1 < 2 ^ 64 }
        requires goes_on { ends self byte ≡ false }
        ensures { result ≡ next self byte }
    {
        match self {
            Place::Outside(depth) => Place::outside(depth, byte),
            Place::InString(depth) => Place::in_string(depth, byte),
            Place::Escaped(depth) => Place::InString(depth),
        }
    }

    fn outside(depth: usize, byte: u8) -> Place
        requires room { depth + 1 < 2 ^ 64 }
        requires goes_on { ends (Place.Outside depth) byte ≡ false }
        ensures { result ≡ next (Place.Outside depth) byte }
    {
        match byte {
            b'"' => Place::InString(depth),
            b'{' => Place::Outside(depth + 1),
            b'}' => Place::Outside(depth - 1),
            _ => Place::Outside(depth),
        }
    }

    fn in_string(depth: usize, byte: u8) -> Place
        ensures { result ≡ next (Place.InString depth) byte }
    {
        match byte {
            b'"' => Place::Outside(depth),
            b'\\' => Place::Escaped(depth),
            _ => Place::InString(depth),
        }
    }
}
