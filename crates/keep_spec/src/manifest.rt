// What a manifest says: streams of blocks, and the files that lie in them (the Arvados manifest format).
use crate::{Bytes, Items};

/// A manifest: the streams of its text in their order.
#[derive(Drop, Debug)]
pub struct Manifest {
    pub streams: Items<Stream>,
}

/// One line of a manifest. The blocks of its locators lie end to end, and its segments name parts of them.
#[derive(Drop, Debug)]
pub struct Stream {
    /// Decoded: `.`, or `./` and path components.
    pub name: Bytes,
    /// The locators as they are written, hints included.
    pub locators: Items<Bytes>,
    /// The parts of files, in the order of the text.
    pub segments: Items<Segment>,
}

/// `size` bytes of a stream from `position` on, which belong to a file.
#[derive(Drop, Debug)]
pub struct Segment {
    /// Bytes from the start of the stream's first block.
    pub position: u64,
    /// Bytes.
    pub size: u64,
    /// Decoded: path components below the stream's name, or `.` for the mark of an empty directory.
    pub name: Bytes,
}

/// What is wrong with a manifest's text.
#[derive(Clone, Copy, Debug, PartialEq, Eq)]
pub enum Kind {
    /// The first token of a line isn't the name of a stream.
    BadStream,
    /// The second token of a line isn't a locator.
    BadLocator,
    /// A line ends after its locators.
    NoSegment,
    /// A later token is neither a locator before all segments nor of the form of a segment.
    BadSegment,
    /// A segment's name is refused.
    BadName,
    /// A segment lies past the end of its stream.
    PastEnd,
    /// The text ends without a newline.
    NoNewline,
}

/// The first refusal of a manifest's text from the left.
#[derive(Clone, Copy, Debug, PartialEq, Eq)]
pub struct Refusal {
    /// The offset, in bytes of the text, of the token that is refused, or of the end that comes too early.
    pub at: usize,
    /// What is wrong there.
    pub kind: Kind,
}
