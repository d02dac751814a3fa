// What the table of collections keeps, queries to it, and its answers.
use keep_spec::{Bytes, Digest, Items, Kind, Portable, TokenId, Unverified};

/// What the table has of its configuration.
#[derive(Clone, Copy, Debug, PartialEq, Eq)]
pub struct TableRules {
    /// How many tokens there are besides the system's.
    pub tokens: u32,
    /// How many versions of a collection are held besides the current one.
    pub versions: u32,
    /// The lifetime of a signature, in seconds.
    pub ttl: u32,
    /// By how much two clocks may differ, in seconds.
    pub skew: u32,
}

/// What a record is to its collection.
#[derive(Clone, Copy, Debug, PartialEq, Eq)]
pub enum Standing {
    /// The newest version, which a read gives where it asks for none. A collection has at most one.
    Current,
    /// An older version that can't be read; it is due at a reading above `until` (nanoseconds since 1970).
    Kept { until: u64 },
    /// An older version that can be read, and stays as long as the collection.
    Preserved,
}

/// What a good save or update makes a record of.
#[derive(Drop, Debug)]
pub struct NewRecord {
    /// A text in the grammar of manifests, without permission hints.
    pub text: Bytes,
    /// The digests that it names, but the empty block's, ascending and each once.
    pub named: Items<Digest>,
    /// Its portable data hash.
    pub portable: Portable,
    /// The wanted number of copies, from 1.
    pub want: u8,
}

/// A version of a collection. All but its standing never changes.
#[derive(Drop, Debug)]
pub struct Record {
    /// The number of its collection.
    pub collection: u64,
    /// Its number among the versions of its collection, from 1.
    pub version: u64,
    /// Its number among all records, from 1.
    pub revision: u64,
    /// What the save or the update made it of.
    pub made: NewRecord,
    /// What it is to its collection.
    pub standing: Standing,
}

/// A collection. Times are in nanoseconds since 1970.
#[derive(Clone, Copy, Debug, PartialEq, Eq)]
pub struct Collection {
    /// Its number among all collections, from 1.
    pub number: u64,
    /// The token that saved it.
    pub owner: TokenId,
    /// It is in the trash from this reading on; without one, it isn't.
    pub trash_at: Option<u64>,
    /// A sweep at a reading above this removes it; without one, none does.
    pub delete_at: Option<u64>,
}

/// What a save or an update asks to store.
#[derive(Drop, Debug)]
pub struct SaveRequest {
    pub token: Bytes,
    /// The manifest, each locator but empty blocks signed for the token.
    pub text: Bytes,
    /// The wanted number of copies.
    pub want: u64,
    /// The portable data hash that the text must have, compared byte by byte; without one, it may have any.
    pub portable: Option<Bytes>,
}

/// A record on a page of a scan.
#[derive(Drop, Debug)]
pub struct ScanRow {
    /// The record's number among all records.
    pub revision: u64,
    /// The digests that it names, ascending and each once.
    pub digests: Items<Digest>,
    /// The wanted number of copies.
    pub want: u8,
}

/// A query to the table. Times are readings, in nanoseconds since 1970; a token is its text.
#[derive(Drop, Debug)]
pub enum TableQuery {
    /// Draws the next round. Answers Round.
    BeginRound,
    /// Makes a collection. Answers UnknownToken, BadManifest, Unsigned, WrongHash, BadWant or Saved, in this order.
    Save {
        request: SaveRequest,
    },
    /// Makes a new current record of a collection; the one before becomes a version, preserved where `preserve` asks for it, and versions that are due go. Answers UnknownToken, NoSuch, NotOwner, InTrash, BadManifest, Unsigned, WrongHash, BadWant, TooManyVersions or Updated, in this order.
    Update {
        collection: u64,
        preserve: bool,
        request: SaveRequest,
    },
    /// Reads the current record of a collection, or the version asked for. Answers UnknownToken, NoSuch, NotOwner or Row, in this order.
    Read {
        token: Bytes,
        collection: u64,
        version: Option<u64>,
    },
    /// Sets the times from which a collection is in the trash and from which a sweep removes it. Answers UnknownToken, NoSuch, NotOwner or TrashSet, in this order.
    SetTrash {
        token: Bytes,
        collection: u64,
        trash_at: u64,
        delete_at: u64,
    },
    /// Takes both times of a collection away. Answers UnknownToken, NoSuch, NotOwner or Restored, in this order.
    Restore {
        token: Bytes,
        collection: u64,
    },
    /// Removes the versions that are due, and the collections whose time has passed with all their records. Answers Swept.
    Sweep,
    /// Lists the records whose revision is above `after`, at most `limit` of them. The round has no part in the answer. Answers Rows.
    Scan {
        round: u64,
        after: u64,
        limit: u32,
    },
}

/// An answer of the table. Times are in nanoseconds since 1970. A refusal, Row and Rows change nothing.
#[derive(Drop, Debug)]
pub enum TableAnswer {
    /// The number of the round, from 1, and the reading at which it began.
    Round {
        round: u64,
        started: u64,
    },
    /// The new collection's number, its version 1, and the text's portable data hash.
    Saved {
        number: u64,
        version: u64,
        portable: Portable,
    },
    /// The collection's number, its new version, and the text's portable data hash.
    Updated {
        number: u64,
        version: u64,
        portable: Portable,
    },
    /// The record that was read. Its text, without permission hints, is to be signed until `expiry` (seconds since 1970); in the trash it has none.
    Row {
        number: u64,
        version: u64,
        expiry: Option<u32>,
        want: u8,
        trash_at: Option<u64>,
        text: Bytes,
    },
    /// The times that were set. `delete_at` is raised, if needed, past the expiry of every signature that a read has issued, where readings go back by no more
    /// than the skew.
    TrashSet {
        trash_at: u64,
        delete_at: u64,
    },
    /// Both times are gone.
    Restored,
    /// How many versions were removed, those of removed collections not counted, and how many collections.
    Swept {
        versions: u64,
        collections: u64,
    },
    /// The rows, ascending by revision, and whether no further record is left.
    Rows {
        rows: Items<ScanRow>,
        last: bool,
    },
    /// The configuration doesn't have the token.
    UnknownToken,
    /// There is no such collection, or none of its records is the one to read.
    NoSuch,
    /// The token is neither the owner's nor the system's.
    NotOwner,
    /// The collection has been in the trash since this reading.
    InTrash {
        at: u64,
    },
    /// The text isn't a manifest: the first refusal, at this offset in bytes.
    BadManifest {
        at: u64,
        kind: Kind,
    },
    /// The first locator that isn't validly signed, by its number in the text, from 0 and empty blocks included.
    Unsigned {
        index: u64,
        why: Unverified,
    },
    /// The claimed portable data hash isn't the text's, which is this.
    WrongHash {
        computed: Portable,
    },
    /// The wanted number of copies isn't within 1 to 255.
    BadWant,
    /// The collection holds as many versions that aren't due as the configuration allows, or more; `held` is their number.
    TooManyVersions {
        held: u64,
    },
}
