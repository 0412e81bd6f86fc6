/// Whether a stream goes on, or which of its sides failed. One that failed stays so.
#[derive(Clone, Copy, Debug, PartialEq, Eq)]
pub enum State {
    Open,
    ReadFault,
    WriteFault,
}
