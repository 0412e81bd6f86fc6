ghost use Rattle.std.specs.Prelude.{◌≡◌, ◌<◌, ◌^◌};
ghost use Rattle.qs_nbd_wire.specs.Greetings.{flags_of, greeting_bytes};

/// The bytes by which the server begins: it is of the fixed newstyle, and leaves zeros out where
/// the client wants it so.
#[tactic(auto, unfolding(crate::specs::Greetings::greeting_bytes, qs_bytes::specs::Numbers::bytes16, qs_bytes::specs::Numbers::bytes64))]
pub fn greeting() -> [u8; 18]
    ensures { result ≡ greeting_bytes }
{
    *b"NBDMAGICIHAVEOPT\0\x03"
}

/// What a client's flags say of it.
#[derive(Clone, Copy, Debug, PartialEq, Eq)]
pub struct ClientFlags {
    /// It is of the fixed newstyle, by bit 0.
    pub fixed: bool,
    /// The zeros of EXPORT_NAME's answer are to be left out, by bit 1.
    pub no_zeroes: bool,
}

/// What a client's flags say of it; `None` exactly where a bit above 1 is set.
pub fn client_flags(flags: u32) -> Option<ClientFlags>
    ensures { result ≡ flags_of flags }
{
    if flags > 3 {
        return None;
    }
    Some(ClientFlags {
        fixed: flags == 1 || flags == 3,
        no_zeroes: flags >= 2,
    })
}
