ghost use Rattle.std.specs.Prelude.{◌≡◌, ◌<◌, true, option_map};
ghost use Rattle.qs_keyval.specs.Cutting.{split_first};
ghost use Rattle.qs_keyval.specs.Reading.{is_dotted_key, is_key_byte};

/// The text before the first such mark and the text behind it; `None` exactly where there is none.
pub fn split_at(text: &str, mark: char) -> Option<(&str, &str)>
    requires { mark < 128 }
    ensures { option_map (λ x. (x.0.now, x.1.now)) result ≡ split_first mark text.now }
{
    text.split_once(mark)
}

/// Whether a part of a key may hold the byte.
fn is_key_byte(byte: u8) -> bool
    ensures { result ≡ is_key_byte byte }
{
    byte.is_ascii_alphanumeric() || byte == b'-' || byte == b'_'
}

/// Whether the text is parts of letters, digits, `-` and `_`, parted by dots.
pub fn is_key(text: &str) -> bool
    ensures { result ≡ is_dotted_key true text.now }
{
    let mut is_empty = true;
    for &byte in text.as_bytes() {
        if byte == b'.' {
            if is_empty {
                return false;
            }
            is_empty = true;
        } else if is_key_byte(byte) {
            is_empty = false;
        } else {
            return false;
        }
    }
    !is_empty
}
