// A range of a stream's bytes.

/// The bytes `from..to` of a stream, counted from the start of its first block.
#[derive(Clone, Copy, Debug)]
pub struct Span {
    /// In bytes.
    pub from: u128,
    /// In bytes, exclusive.
    pub to: u128,
}
