// What a path names.
use keep_spec::{Bytes, Digest};

/// What a path names. Devices are numbers of the configuration; a part of a path is as it stands there, with nothing decoded.
#[derive(Drop, Debug)]
pub enum Place {
    /// A block, by the text of a locator or a digest.
    Block {
        part: Bytes,
    },
    /// The trashed copies of a block.
    Untrash {
        digest: Digest,
    },
    /// The place where collections are made.
    Collections,
    /// A collection, by the text of its UUID.
    Collection {
        uuid: Bytes,
    },
    /// A version of a collection.
    Version {
        uuid: Bytes,
        version: u64,
    },
    /// Putting a collection into the trash.
    Trash {
        uuid: Bytes,
    },
    /// Taking a collection out of the trash.
    Restore {
        uuid: Bytes,
    },
    /// A page of a device's index in a round: the replicas whose digest begins with the prefix.
    Page {
        device: u32,
        round: u64,
        prefix: Bytes,
    },
    /// The beginning of a round on a device.
    Clear {
        device: u32,
        round: u64,
    },
    /// The lists of a device in a round.
    Lists {
        device: u32,
        round: u64,
    },
    /// Removing what is due.
    Sweep,
    /// A round of the balancer.
    Balance,
    /// The trash list of a device.
    TrashWorker {
        device: u32,
    },
    /// The pull list of a device.
    PullWorker {
        device: u32,
    },
    /// The trashed copies of a device.
    EmptyWorker {
        device: u32,
    },
}
