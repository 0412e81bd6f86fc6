//! The plain service as a slow function: requests, one after the other, over the whole content.
use qs_bytes::{Bytes, Memory, put16, put32, put64};
use std::alloc::Global;

/// A request as a client sends it, and the byte that a WRITE's data repeat.
#[derive(Clone, Copy, Debug)]
pub struct Request {
    pub flags: u16,
    pub kind: u16,
    pub cookie: u64,
    pub offset: u64,
    pub length: u32,
    pub byte: u8,
}

impl Request {
    /// The data of a WRITE; nothing else has any.
    fn body(&self, alloc: Global) -> Result<Vec<u8>, Memory> {
        let count = if self.kind == 1 { self.length } else { 0 };
        Ok(vec![in alloc; self.byte; count as usize]?)
    }

    /// Puts the request's spelling behind others (NBD proto.md, "Request message").
    pub fn put(&self, alloc: Global, stream: &mut Bytes) -> Result<(), Memory> {
        put32(stream, 0x25609513)?;
        put16(stream, self.flags)?;
        put16(stream, self.kind)?;
        put64(stream, self.cookie)?;
        put64(stream, self.offset)?;
        put32(stream, self.length)?;
        stream.append(self.body(alloc)?.as_slice())
    }

    /// Whether the type and its flags are known: FUA fits all, NO_HOLE a WRITE_ZEROES alone (NBD proto.md,
    /// "Command flags"), and a READ is at most 32 MiB.
    fn is_formed(&self) -> bool {
        let known = matches!(self.kind, 0 | 1 | 3 | 4 | 6);
        let fits = self.flags < 2 || (self.flags < 4 && self.kind == 6);
        known && fits && (self.kind != 0 || self.length <= 33_554_432)
    }

    /// The error in the reply over an image of so many bytes; 0 where it is done.
    fn error(&self, size: usize, writable: bool) -> u32 {
        let stores = matches!(self.kind, 1 | 6);
        let end = u128::from(self.offset) + u128::from(self.length);
        let passes = self.kind != 3 && end > size as u128;
        match (self.is_formed(), stores || self.kind == 4, passes) {
            (false, _, _) => 22,
            (true, true, _) if !writable => 1,
            (true, _, true) if stores => 28,
            (true, _, true) => 22,
            _ => 0,
        }
    }
}

/// The first bytes of a list, as many as it has.
pub fn front(bytes: &[u8], count: usize) -> &[u8] {
    &bytes[..count.min(bytes.len())]
}

/// Puts the bytes of a READ behind the replies.
fn put_bytes(replies: &mut Bytes, content: &[u8], request: &Request) -> Result<(), Memory> {
    let from = content.len().min(request.offset as usize);
    replies.append(front(&content[from..], request.length as usize))
}

/// Sets the bytes of a WRITE, and those of a WRITE_ZEROES to zero.
fn set_bytes(content: &mut [u8], request: &Request) {
    let byte = if request.kind == 1 { request.byte } else { 0 };
    let begin = u128::from(request.offset);
    let end = begin + u128::from(request.length);
    for at in 0..content.len() {
        if begin <= at as u128 && (at as u128) < end {
            content[at] = byte;
        }
    }
}

/// The replies to requests, one after the other, each a simple one (NBD proto.md, "Simple reply
/// message"); `content` is that of the image before and after.
pub fn plain_service(
    alloc: Global,
    requests: &[Request],
    writable: bool,
    content: &mut Vec<u8>,
) -> Result<Bytes, Memory> {
    let mut replies = Bytes::of(Vec::new(alloc));
    for request in requests {
        let error = request.error(content.len(), writable);
        put32(&mut replies, 0x67446698)?;
        put32(&mut replies, error)?;
        put64(&mut replies, request.cookie)?;
        match (error, request.kind) {
            (0, 0) => put_bytes(&mut replies, content.as_slice(), request)?,
            (0, 1 | 6) => set_bytes(content.as_mut_slice(), request),
            _ => {}
        }
    }
    Ok(replies)
}
