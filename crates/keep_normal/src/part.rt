// The files of a manifest.
use keep_spec::{Bytes, Items};

/// `length` bytes of a block from `offset` on.
#[derive(Drop, Debug)]
pub struct Part {
    /// The block's locator as it stands in the manifest, hints included.
    pub locator: Bytes,
    /// In bytes, from the start of the block.
    pub offset: u64,
    /// In bytes; more than 0.
    pub length: u64,
}

/// A file: its path, and its bytes as parts of blocks, in their order.
#[derive(Drop, Debug)]
pub struct FileParts {
    /// The stream's name, `/` and the file's name, all decoded.
    pub path: Bytes,
    /// In the order of the file's bytes; none for a file of no bytes.
    pub parts: Items<Part>,
}
