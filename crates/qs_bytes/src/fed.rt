/// What a reader of a stream took of the piece that it was fed, and what it found at the end of it.
#[derive(Debug, Drop)]
pub struct Fed<E> {
    /// How many bytes it took, from the front of the piece.
    pub taken: usize,
    /// What stands at their end; without an event the whole piece was taken.
    pub event: Option<E>,
}
