// What a store holds, and under which names.
use keep_spec::{Bytes, Digest};

/// A name in a store: that of a digest's replica, or with a deadline (nanoseconds since 1970) that of a trashed copy, which is kept until then.
/// Names are ordered by digest; of one digest the replica comes first, then the copies by deadline.
#[derive(Clone, Copy, Debug, PartialEq, Eq, PartialOrd, Ord)]
pub struct Name {
    pub digest: Digest,
    pub deadline: Option<u64>,
}

/// What a store holds under a name: bytes, and a time in nanoseconds since 1970.
#[derive(Drop, Debug)]
pub struct Stored {
    pub mtime: u64,
    pub bytes: Bytes,
}

/// The time (nanoseconds since 1970) and the size in bytes of what a store holds under a name.
#[derive(Clone, Copy, Debug, PartialEq, Eq)]
pub struct Metadata {
    pub mtime: u64,
    pub size: u64,
}

/// A name in a store, with the time (nanoseconds since 1970) and the size in bytes of what the store holds under it.
#[derive(Clone, Copy, Debug, PartialEq, Eq)]
pub struct Held {
    pub name: Name,
    pub mtime: u64,
    pub size: u64,
}
