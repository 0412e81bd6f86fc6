use crate::{
    ClientFlags, ExportInfo2, FUA, OptionError, OptionHead, OptionReply, RequestHead, WRITE,
    client_flags, flags_told, greeting, laws, option_head, put_export_answer, put_option_reply,
    put_reply, request_head,
};
use qs_bytes::{Bytes, Memory, Mode, Name};
use std::alloc::Global;
use std::process::Abort;
use std::test::Fail;

#[test]
fn greetings_and_flags(rt: HostRuntime) {
    assert_eq!(rt;
        greeting(),
        *b"\x4e\x42\x44\x4d\x41\x47\x49\x43\x49\x48\x41\x56\x45\x4f\x50\x54\x00\x03"
    );
    for (flags, fixed, no_zeroes) in [
        (0, false, false),
        (1, true, false),
        (2, false, true),
        (3, true, true),
    ] {
        assert_eq!(rt;
            client_flags(flags),
            Some(ClientFlags { fixed, no_zeroes }),
            "flags {flags}"
        );
    }
    for flags in [4, 5, 0x10001, 0xffffffff] {
        assert_eq!(rt; client_flags(flags), None, "flags {flags}");
    }
}

#[test]
fn heads_of_options(rt: HostRuntime) {
    let go = b"\x49\x48\x41\x56\x45\x4f\x50\x54\0\0\0\x07\0\0\x01\x0c\xff";
    let head = OptionHead {
        magic: 0x49484156454f5054,
        number: 7,
        length: 268,
    };
    assert_eq!(rt; option_head(&go[..15]), None);
    assert_eq!(rt; option_head(&go[..16]), Some(head));
    assert_eq!(rt; option_head(go), Some(head));
}

#[test]
fn heads_of_requests(rt: HostRuntime) {
    let write = b"\x25\x60\x95\x13\0\x01\0\x01\0\0\0\0\0\0\0\x09\0\0\0\0\0\0\x01\xfc\0\0\x02\0";
    assert_eq!(rt;
        request_head(write),
        RequestHead {
            flags: FUA,
            kind: WRITE,
            cookie: 9,
            offset: 508,
            size: 512,
        }
    );
}

/// A reply to the option of this number is spelled so, behind its magic.
fn spells(
    rt: &impl Abort,
    alloc: Global,
    number: u32,
    reply: &OptionReply,
    expected: &[u8],
) -> Result<(), Memory> {
    let mut whole = b"\x00\x03\xe8\x89\x04\x55\x65\xa9".to_vec(alloc)?;
    whole.extend_from_slice(expected)?;
    let mut out = Bytes::of(Vec::new(alloc));
    put_reply(alloc, &mut out, number, reply)?;
    assert_eq!(rt; out.as_slice(), whole.as_slice(), "{reply:?}");
    Ok(())
}

#[test]
fn replies_to_options(rt: HostRuntime) -> Result<(), Fail> {
    let disk = Name::of(b"disk").ok_or("a name")?;
    let export = OptionReply::Export {
        size: 4096,
        flags: 0x16d,
    };
    for (number, reply, expected) in [
        (
            8,
            OptionReply::Ack,
            b"\0\0\0\x08\0\0\0\x01\0\0\0\0".as_slice(),
        ),
        (
            3,
            OptionReply::Server(disk),
            b"\0\0\0\x03\0\0\0\x02\0\0\0\x08\0\0\0\x04disk".as_slice(),
        ),
        (
            7,
            export,
            b"\0\0\0\x07\0\0\0\x03\0\0\0\x0c\0\0\0\0\0\0\0\0\x10\0\x01\x6d".as_slice(),
        ),
        (
            7,
            OptionReply::BlockSize,
            b"\0\0\0\x07\0\0\0\x03\0\0\0\x0e\0\x03\0\0\0\x01\0\0\x10\0\x02\0\0\0".as_slice(),
        ),
    ] {
        spells(&rt, rt.alloc(), number, &reply, expected)?;
    }
    Ok(())
}

#[test]
fn refusals_of_options(rt: HostRuntime) -> Result<(), Fail> {
    for (number, error, expected) in [
        (
            9,
            OptionError::Unsupported,
            b"\0\0\0\x09\x80\0\0\x01\0\0\0\0".as_slice(),
        ),
        (
            7,
            OptionError::Policy,
            b"\0\0\0\x07\x80\0\0\x02\0\0\0\0".as_slice(),
        ),
        (
            7,
            OptionError::Invalid,
            b"\0\0\0\x07\x80\0\0\x03\0\0\0\0".as_slice(),
        ),
        (
            7,
            OptionError::Unknown,
            b"\0\0\0\x07\x80\0\0\x06\0\0\0\0".as_slice(),
        ),
    ] {
        let reply = OptionReply::Refused(error);
        spells(&rt, rt.alloc(), number, &reply, expected)?;
    }
    Ok(())
}

#[test]
fn a_reply_of_any_type_is_put_at_the_end(rt: HostRuntime) -> Result<(), Fail> {
    let alloc = rt.alloc();
    let mut out = Bytes::of(b"x".to_vec(alloc)?);
    put_option_reply(alloc, &mut out, 10, 4, b"\0\0\0\0base:allocation")?;
    assert_eq!(rt;
        out.as_slice(),
        b"x\x00\x03\xe8\x89\x04\x55\x65\xa9\0\0\0\x0a\0\0\0\x04\0\0\0\x13\0\0\0\0base:allocation".as_slice()
    );
    Ok(())
}

#[test]
fn answers_to_export_name(rt: HostRuntime) -> Result<(), Fail> {
    let alloc = rt.alloc();
    for (writable, structured, no_zeroes, flags, length) in [
        (true, false, false, 0x016d, 134),
        (true, false, true, 0x016d, 10),
        (true, true, true, 0x01ed, 10),
        (false, false, true, 0x010f, 10),
        (false, true, false, 0x018f, 134),
    ] {
        let info = ExportInfo2 {
            size: 4096,
            writable,
        };
        let mode = Mode {
            no_zeroes,
            structured,
        };
        assert_eq!(rt; flags_told(&info, structured), flags);
        let mut out = Bytes::of(Vec::new(alloc));
        put_export_answer(alloc, &mut out, &mode, &info)?;
        let mut expected = b"\0\0\0\0\0\0\x10\0".to_vec(alloc)?;
        expected.extend_from_slice(&flags.to_be_bytes())?;
        if length > 10 {
            expected.extend_from_slice(&[0; 124])?;
        }
        assert_eq!(rt; out.as_slice(), expected.as_slice());
        assert_eq!(rt; out.len(), length);
    }
    laws::one_flags();
    laws::one_option();
    laws::replies_apart();
    laws::answers_apart();
    laws::one_head();
    Ok(())
}
