use crate::{FrameEvent, Framer, laws};
use qs_bytes::Fed;
use std::alloc::Global;
use std::process::Abort;
use std::test::Fail;

/// What a framer told of a stream: its objects, each with a line feed behind it, and a refusal.
#[derive(Drop)]
struct Heard {
    objects: Vec<u8>,
    refusal: Option<FrameEvent>,
}

/// Feeds the stream in pieces of up to `size` bytes.
fn hear(alloc: Global, stream: &[u8], size: usize) -> Result<Heard, Fail> {
    let mut framer = Framer::new(alloc)?;
    let mut heard = Heard {
        objects: Vec::new(alloc),
        refusal: None,
    };
    let mut rest = stream;
    for _ in 0..=stream.len() {
        if rest.is_empty() {
            break;
        }
        let Fed { taken, event } = framer.feed(&rest[..rest.len().min(size)]);
        rest = &rest[taken..];
        match event {
            None => {}
            Some(FrameEvent::Object) => {
                heard.objects.extend_from_slice(framer.object())?;
                heard.objects.push(b'\n')?;
            }
            refusal => heard.refusal = refusal,
        }
    }
    Ok(heard)
}

/// The stream tells these objects and this refusal, however it is cut.
fn tells(
    rt: &impl Abort,
    alloc: Global,
    stream: &str,
    objects: &str,
    refusal: Option<FrameEvent>,
) -> Result<(), Fail> {
    for size in [1, 2, 7, 1000] {
        let heard = hear(alloc, stream.as_bytes(), size)?;
        assert_eq!(rt;
            heard.objects.as_slice(),
            objects.as_bytes(),
            "{stream} by {size}"
        );
        assert_eq!(rt; heard.refusal, refusal, "{stream} by {size}");
    }
    Ok(())
}

#[test]
fn objects_are_cut_however_they_come(rt: HostRuntime) -> Result<(), Fail> {
    let rows = [
        ("", "", None),
        (" \t\r\n", "", None),
        ("{}", "{}\n", None),
        ("{}{}\r\n{}", "{}\n{}\n{}\n", None),
        (
            r#"{"execute":"query-block-exports","id":"}"}"#,
            "{\"execute\":\"query-block-exports\",\"id\":\"}\"}\n",
            None,
        ),
        (r#"{"a":{"b":{}}} {"#, "{\"a\":{\"b\":{}}}\n", None),
        (r#"{"\"}":"{\\"}{"#, "{\"\\\"}\":\"{\\\\\"}\n", None),
        (r#"{"a\\\"}{}"#, "", None),
        (r#"{\"}"}"#, "{\\\"}\"}\n", None),
        ("{}\r\nx{}", "{}\n", Some(FrameEvent::NotObject(0x78))),
        ("}", "", Some(FrameEvent::NotObject(0x7d))),
        ("{}[", "{}\n", Some(FrameEvent::NotObject(0x5b))),
        ("{}\0{}", "{}\n", Some(FrameEvent::NotObject(0))),
        (r#"{} "{}""#, "{}\n", Some(FrameEvent::NotObject(0x22))),
    ];
    for (stream, objects, refusal) in rows {
        tells(&rt, rt.alloc(), stream, objects, refusal)?;
    }
    Ok(())
}

/// An object with so many spaces between its braces.
fn object_around(alloc: Global, spaces: u32) -> Result<Vec<u8>, Fail> {
    let mut object = Vec::new(alloc);
    object.push(b'{')?;
    for _ in 0..spaces {
        object.push(b' ')?;
    }
    object.push(b'}')?;
    Ok(object)
}

#[test]
fn an_object_has_1048576_bytes_at_most(rt: HostRuntime) -> Result<(), Fail> {
    let longest = object_around(rt.alloc(), 1_048_574)?;
    for size in [4096, 1_048_575, 1_048_576] {
        let heard = hear(rt.alloc(), longest.as_slice(), size)?;
        assert_eq!(rt; heard.objects.len(), 1_048_577);
        assert_eq!(rt; heard.refusal, None);
    }
    let longer = object_around(rt.alloc(), 1_048_575)?;
    for size in [4096, 1_048_576, 1_048_577] {
        let heard = hear(rt.alloc(), longer.as_slice(), size)?;
        assert_eq!(rt; heard.objects.len(), 0);
        assert_eq!(rt; heard.refusal, Some(FrameEvent::TooLong));
    }
    Ok(())
}

#[test]
fn what_is_taken_ends_at_the_event(rt: HostRuntime) -> Result<(), Fail> {
    let mut framer = Framer::new(rt.alloc())?;
    let rows = [
        (" {\"a\":1} {}", 8, Some(FrameEvent::Object), "{\"a\":1}"),
        ("", 0, None, "{\"a\":1}"),
        (" {}", 3, Some(FrameEvent::Object), "{}"),
        ("\n{", 2, None, ""),
        ("} x{}", 1, Some(FrameEvent::Object), "{}"),
        (" x{}", 2, Some(FrameEvent::NotObject(0x78)), ""),
        ("{}", 0, Some(FrameEvent::NotObject(0x78)), ""),
    ];
    for (piece, end, told, object) in rows {
        let Fed { taken, event } = framer.feed(piece.as_bytes());
        assert_eq!(rt; taken, end, "{piece}");
        assert_eq!(rt; event, told, "{piece}");
        assert_eq!(rt; framer.object(), object.as_bytes(), "{piece}");
    }
    Ok(())
}

#[test]
fn laws_stand(_rt: HostRuntime) -> Result<(), Fail> {
    laws::streams();
    laws::any_cutting();
    laws::refusals();
    Ok(())
}
