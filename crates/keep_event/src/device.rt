// Queries to a device, its rules, and its answers.
use crate::{Block, Entry, Lists, PullItem};
use keep_spec::{Bytes, Digest, Items, TokenId};

/// What the configuration says of a device.
#[derive(Clone, Copy, Debug, PartialEq, Eq)]
pub struct DeviceRules {
    /// The most bytes that its replicas and trashed copies may have together.
    pub capacity: u64,
    /// A device that is read-only answers ReadOnly to every query that would change a replica or a trashed copy.
    pub read_only: bool,
    /// The lifetime of signatures, in seconds. With the guard it makes the grace, the age that a replica must have passed before it is trashed.
    pub ttl: u32,
    /// By how much two clocks may differ, in seconds. The guard is twice that.
    pub skew: u32,
    /// How long a trashed copy is kept, in seconds.
    pub trash_life: u32,
}

/// A query to a device. A `token` is that of the client for whom an answer Touched or Written issues a signature; without one, none is issued.
/// Besides the answers named here, each but Accept, PullNext and Restart may be answered StoreFault.
#[derive(Drop, Debug)]
pub enum DeviceQuery {
    /// Renews the time of the replica where it holds the block's bytes. Answers ReadOnly, Absent, Touched, Collision or Corrupt.
    CompareTouch {
        block: Block,
        token: Option<TokenId>,
    },
    /// Stores the block, or renews the time of its replica; a corrupt replica is replaced. Answers ReadOnly, Written, Collision or Full.
    Write {
        block: Block,
        token: Option<TokenId>,
    },
    /// Reads a replica. Answers Absent, Corrupt or Block.
    Fetch {
        digest: Digest,
    },
    /// Renews the time of a replica, whatever its bytes. Answers ReadOnly, Absent or Touched.
    Touch {
        digest: Digest,
        token: Option<TokenId>,
    },
    /// Begins a round: the device keeps its number and empties both lists. Answers Stale or Cleared.
    Clear {
        round: u64,
    },
    /// Gives the device its two lists. Answers Stale or Accepted.
    Accept {
        round: u64,
        lists: Lists,
    },
    /// Lists the replicas whose hexadecimal digest begins with the prefix. Answers Stale or Page.
    Page {
        round: u64,
        prefix: Bytes,
    },
    /// Takes the first item of the trash list. Answers Idle, ReadOnly, Gone, Skipped, Young or Trashed.
    TrashNext,
    /// Takes the first item of the pull list. Answers Idle or Pull.
    PullNext,
    /// Makes the trashed copy with the greatest deadline the replica again. Answers ReadOnly, Present, NoTrash or Back.
    Untrash {
        digest: Digest,
    },
    /// Removes the first trashed copy whose deadline has passed. Answers ReadOnly, Idle or Emptied.
    EmptyNext,
    /// Empties both lists and keeps the round, as the start of the device's server does. Answers Restarted.
    Restart,
}

/// An answer of a device. Times and deadlines are in nanoseconds since 1970. Where the query isn't said to change something, all stays.
#[derive(Drop, Debug)]
pub enum DeviceAnswer {
    /// The device is read-only.
    ReadOnly,
    /// There is no replica of the digest.
    Absent,
    /// The replica's time became the greater of its own and the reading: `mtime`.
    Touched {
        mtime: u64,
    },
    /// The replica holds the block's bytes, with this time.
    Written {
        mtime: u64,
    },
    /// The replica holds other bytes with the block's MD5.
    Collision,
    /// The replica's bytes have the MD5 `found`, which isn't its digest.
    Corrupt {
        found: Digest,
    },
    /// The block doesn't fit: replicas and trashed copies, a corrupt one included, have `used` bytes.
    Full {
        used: u128,
        capacity: u64,
    },
    /// The replica's bytes, whose MD5 is the digest.
    Block {
        bytes: Bytes,
    },
    /// The device keeps the round `held`: a later one at Clear, another one at Accept and Page.
    Stale {
        held: u64,
    },
    /// The round is kept, and both lists are empty.
    Cleared,
    /// Both lists were replaced by these; `trash` and `pull` are their numbers of items.
    Accepted {
        trash: u64,
        pull: u64,
    },
    /// The replicas asked for, ascending by digest.
    Page {
        entries: Items<Entry>,
    },
    /// The list is empty; at EmptyNext, no deadline has passed.
    Idle,
    /// The item was taken; there is no replica of its digest.
    Gone {
        digest: Digest,
    },
    /// The item was taken; the replica's time `mtime` isn't the item's.
    Skipped {
        digest: Digest,
        mtime: u64,
    },
    /// The item was taken; the replica isn't older than the grace.
    Young {
        digest: Digest,
        mtime: u64,
    },
    /// The item was taken; the replica became a trashed copy with this deadline, in the round that the device keeps.
    Trashed {
        digest: Digest,
        deadline: u64,
        round: u64,
    },
    /// The item that was taken from the pull list.
    Pull {
        item: PullItem,
    },
    /// There is a replica, with this time.
    Present {
        mtime: u64,
    },
    /// There is neither a replica nor a trashed copy.
    NoTrash,
    /// The trashed copy became the replica, with the greater of its time and the reading: `mtime`.
    Back {
        mtime: u64,
    },
    /// The trashed copy with this deadline was removed.
    Emptied {
        digest: Digest,
        deadline: u64,
    },
    /// Both lists are empty.
    Restarted,
    /// The store failed, and counted a fault; nothing changed.
    StoreFault,
}
