use std::collections::LinkedList;

/// A link, and its place in the line of all that were ever put into the pool. No value of it is made.
pub struct LinkAt<L> {
    pub at: u64,
    pub link: L,
}

/// What a pass put and took. No value of it is made.
pub struct Ledger<L> {
    pub put: LinkedList<LinkAt<L>>,
    pub got: LinkedList<LinkAt<L>>,
}
