// Tasks: what opens them, what they go on with, how they end, and the script lines that name them.
use keep_event::{Block, SaveRequest, TableQuery};
use keep_spec::{Bytes, Digest, Items, Kind, Portable, TokenId, Unverified};

/// What a task is opened with. Servers and devices are named by their numbers in the configuration, from 0; a collection by the text of its UUID.
/// The rules of each opening and of its end are this project's own.
#[derive(Drop, Debug)]
pub enum Opening {
    /// Stores bytes. With a digest, only if it is the MD5 of the bytes.
    Put {
        token: Bytes,
        server: u32,
        bytes: Bytes,
        digest: Option<Digest>,
    },
    /// Returns the bytes of the block that a locator names. The locator is a text as it was given, with its hints.
    Get {
        token: Bytes,
        server: u32,
        locator: Bytes,
    },
    /// Renews the time of a block's replica, and signs its locator again.
    Touch {
        token: Bytes,
        server: u32,
        locator: Bytes,
    },
    /// Brings the trashed copies of a block back. Only the system token may.
    Untrash {
        token: Bytes,
        server: u32,
        digest: Digest,
    },
    /// Restarts a device, which forgets its lists of blocks to trash and to pull.
    Restart {
        device: u32,
    },
    /// Makes a collection.
    Save {
        request: SaveRequest,
    },
    /// Gives a collection a new version. With `preserve` the version before it is kept until the collection goes.
    Update {
        collection: Bytes,
        preserve: bool,
        request: SaveRequest,
    },
    /// Returns the text of a collection, of its current version where none is named, with each locator signed for the token.
    Read {
        token: Bytes,
        collection: Bytes,
        version: Option<u64>,
    },
    /// Puts a collection into the trash from one time on, to be deleted at another. Both are readings, in nanoseconds since 1970.
    Trash {
        token: Bytes,
        collection: Bytes,
        trash_at: u64,
        delete_at: u64,
    },
    /// Takes a collection out of the trash.
    Restore {
        token: Bytes,
        collection: Bytes,
    },
    /// Removes the versions and collections whose time has come.
    Sweep,
    /// Begins a round: gathers what devices hold and what collections want, and sends each device its lists of blocks to trash and to pull.
    Balance,
    /// Works the list of blocks to trash of a device off.
    TrashWorker {
        device: u32,
    },
    /// Works the list of blocks to pull of a device off.
    PullWorker {
        device: u32,
    },
    /// Removes the trashed copies of a device whose deadline has passed.
    EmptyWorker {
        device: u32,
    },
}

/// A task that its opening did not end, with what its queries need. `devices` are those that it asks, by their numbers in the configuration, in the order of
/// their server's mounts, each once.
#[derive(Drop, Debug)]
pub enum Task {
    /// Compares on each writable device, then writes on each, until one takes the block.
    Put {
        devices: Items<u32>,
        token: Bytes,
        id: TokenId,
        block: Block,
    },
    /// Fetches from each device until one has the block.
    Get {
        devices: Items<u32>,
        digest: Digest,
    },
    /// Touches on each writable device until one has the block. `stripped` is the locator without its hints.
    Touch {
        devices: Items<u32>,
        token: Bytes,
        id: TokenId,
        digest: Digest,
        stripped: Bytes,
    },
    /// Untrashes on each writable device.
    Untrash {
        devices: Items<u32>,
        digest: Digest,
    },
    /// Restarts the device.
    Restart {
        device: u32,
    },
    /// Asks the table once.
    Table {
        query: TableQuery,
    },
    /// Begins a round, clears each device, takes each device's pages, scans the table to its end, and sends each device its lists.
    Balance,
    /// Takes items from the device's trash list until it is empty, 1,048,576 at most.
    TrashWorker {
        device: u32,
    },
    /// Takes items from the device's pull list until it is empty, 1,048,576 at most; fetches the block of each from a source, and writes it on the device.
    PullWorker {
        device: u32,
    },
    /// Removes trashed copies of the device until none is due, 1,048,576 at most.
    EmptyWorker {
        device: u32,
    },
}

/// How a task ends. An expiry is in seconds since 1970, other times are in nanoseconds since 1970, a place is an offset in bytes from 0.
#[derive(Drop, Debug)]
pub enum Outcome {
    /// A put's block is on a device. The locator is signed for the put's token until the replica's time and the lifetime of signatures later; the empty
    /// block's has no hint.
    Stored {
        locator: Bytes,
    },
    /// A touch found the block. The locator is the one that was given without its hints, signed as `Stored`'s; the empty block's has no hint.
    Touched {
        locator: Bytes,
    },
    /// A get found the block: the bytes that a device returned for the digest, or none for the empty block.
    Bytes {
        bytes: Bytes,
    },
    /// An untrash brought this many trashed copies back; 0 where none came back, no store failed and a device has the block.
    Untrashed {
        copies: u64,
    },
    /// The device was restarted.
    Restarted,
    /// The configuration doesn't have the token. It comes before any other refusal: before anything was asked, or as the table's refusal.
    UnknownToken,
    /// A put of more than 67,108,864 bytes. Nothing was asked.
    TooLong,
    /// A put's bytes have this MD5 and not the digest that was given. Nothing was asked.
    HashMismatch {
        computed: Digest,
    },
    /// A device holds other bytes with the block's MD5. They stay.
    Collision,
    /// The server has no writable device, or each write was answered that there is no room. Nothing was written.
    NoRoom,
    /// A store failed, and no device gave another end.
    StoreFault,
    /// The text is no locator: the first `at` bytes are the longest beginning that one has. Nothing was asked.
    BadLocator {
        at: u64,
    },
    /// The locator has no signature that is valid for the token, or an untrash wants the system token. Nothing was asked.
    Forbidden,
    /// The locator's one permission hint has an expiry that is past. Whether its signature was right isn't looked at. Nothing was asked.
    Expired {
        expiry: u32,
    },
    /// No device has the block, or none takes changes.
    NotFound,
    /// A device holds bytes with this other MD5 under the digest that was asked for, and no device has the block. It is the first that was found.
    Corrupt {
        found: Digest,
    },
    /// The collection was made, with its version's number and the portable hash of its text.
    Saved {
        uuid: Bytes,
        version: u64,
        portable: Portable,
    },
    /// The collection has a new version.
    Updated {
        uuid: Bytes,
        version: u64,
        portable: Portable,
    },
    /// The text of a version, with the number of replicas that it wants, and when the collection goes into the trash, if that is set. Its locators are signed
    /// for the token, unless the collection is in the trash.
    Row {
        version: u64,
        want: u8,
        trash_at: Option<u64>,
        text: Bytes,
    },
    /// The collection's times were set to these.
    TrashSet {
        trash_at: u64,
        delete_at: u64,
    },
    /// The collection is out of the trash.
    Restored,
    /// A sweep removed this many versions of collections that stay, and this many collections.
    Swept {
        versions: u64,
        collections: u64,
    },
    /// There is no such collection, or none of its records is the one to read. This and the ends that follow are refusals of the table, which is as before.
    NoSuch,
    /// The token is neither the owner's nor the system's.
    NotOwner,
    /// The collection has been in the trash since this time.
    InTrash {
        at: u64,
    },
    /// The text isn't a manifest: its first refusal, and where it is.
    BadManifest {
        at: u64,
        kind: Kind,
    },
    /// The first locator that isn't validly signed, by its number in the text, from 0 and empty blocks included.
    Unsigned {
        index: u64,
        why: Unverified,
    },
    /// The claimed portable data hash isn't the text's, which is this.
    WrongHash {
        computed: Portable,
    },
    /// The wanted number of copies isn't within 1 to 255.
    BadWant,
    /// The collection holds this many versions that aren't due, as many as the configuration allows or more.
    TooManyVersions {
        held: u64,
    },
    /// A balance task's round came to its end. `trash`, `pull` and `lost` are the plan's numbers of trash items, of pull items and of lost digests, with those
    /// of lists that a device refused; `stale` is the number of devices that refused theirs, since they keep another round.
    Balanced {
        round: u64,
        trash: u64,
        pull: u64,
        lost: u64,
        stale: u64,
    },
    /// A balance task's round isn't the one that a device keeps, `held`: a later one where the device was to be cleared, another where it was asked for a page.
    Stale {
        device: u32,
        held: u64,
    },
    /// A page or rows came to a balance task with the tick `later`, which isn't above `earlier`, the greatest tick of its round's clears.
    Disordered {
        earlier: u64,
        later: u64,
    },
    /// A trash worker trashed this many replicas.
    Trashed {
        replicas: u64,
    },
    /// A pull worker wrote the blocks of `done` items, and those of `failed` items not.
    Pulled {
        done: u64,
        failed: u64,
    },
    /// An empty worker removed this many trashed copies.
    Emptied {
        copies: u64,
    },
    /// An empty worker's device is read-only. It is as before.
    ReadOnly,
}

/// What has become of a name that a script opened. `T` is what is kept of a task that asks.
#[derive(Drop, Debug)]
pub enum TaskState<T> {
    /// The task has not ended.
    Open { task: T },
    /// The task ended with a locator, which later lines can name.
    Located { locator: Bytes },
    /// The task ended with a row's text, whose locators later lines can name.
    Row { text: Bytes },
    /// The task ended otherwise.
    Ended,
}

/// What a script line asks for. The reading is in nanoseconds since 1970.
#[derive(Drop, Debug)]
pub enum Command {
    /// Opens a task under a name that has not been opened.
    Open {
        name: Bytes,
        reading: u64,
        opening: Opening,
    },
    /// Asks the next query of the open task of a name.
    Step {
        name: Bytes,
        reading: u64,
    },
    /// Asks until the open task of a name ends.
    Finish {
        name: Bytes,
        reading: u64,
    },
}
