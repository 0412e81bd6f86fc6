/// Whole blocks that a request reads or writes next, one behind the other: `n` blocks from `b` on, of one
/// group of sixteen, for the request at place `k`. Their bytes stand in the request's buffer from place
/// `at` on.
#[derive(Clone, Copy, Debug, PartialEq, Eq)]
pub struct WholeRun {
    pub k: u8,
    pub b: u64,
    pub n: u8,
    pub at: u64,
}
