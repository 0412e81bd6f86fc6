use qs_bytes::Span;

/// What a request on a span needs: the whole blocks that it reaches, and the blocks of which it
/// covers only a part, whose other bytes have to be read first (QEMU block/io.c, "padding").
#[derive(Clone, Copy, Debug, PartialEq, Eq)]
pub struct Plan {
    /// The whole blocks that the span reaches, in bytes.
    pub whole: Span,
    /// The first block, where the span doesn't cover it wholly.
    pub head: Option<u64>,
    /// The last block, where the span doesn't cover it wholly and it isn't the first.
    pub tail: Option<u64>,
}
