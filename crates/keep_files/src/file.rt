// Files as users have them, and packed.
use keep_event::Block;
use keep_spec::{Bytes, Items};

/// A file: its path, and its bytes.
#[derive(Drop, Debug)]
pub struct FileIn {
    /// Path components with `/` between, none of them empty, `.` or `..`: a path of a manifest without its leading `./`.
    pub path: Bytes,
    pub bytes: Bytes,
}

/// What files are packed into.
#[derive(Drop, Debug)]
pub struct Packed {
    /// Each block once, in the order in which it is first cut.
    pub blocks: Items<Block>,
    /// The manifest of the files, in normal form.
    pub text: Bytes,
}
