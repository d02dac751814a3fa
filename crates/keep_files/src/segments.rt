// The segments of a directory's files.
ghost use Rattle.std.specs.Prelude.{◌≡◌, ◌+◌, ◌^◌, ◌<◌, map, length, IsTrue, IfOk};
ghost use Rattle.keep_files.specs.Layout.{end_to_end, name_of, segments_from};
ghost use Rattle.keep_files.specs.Places.{file_at, are_within};

use crate::file::FileIn;
use crate::path::name_of;
use keep_spec::{Bytes, Segment};
use std::alloc::{AllocError, Global};

// Numbers of a manifest have at most 19 digits.
const NUMBERS_END: u64 = 10_000_000_000_000_000_000;

/// The segments of files that lie end to end.
#[derive(Drop)]
pub(crate) struct Segments {
    pub(crate) segments: Vec<Segment>,
    /// The sum of their sizes, in bytes.
    pub(crate) total: u64,
}

// The segments of the files at these places. An error also where they have 10^19 bytes or more.
pub(crate) fn segments_of(
    alloc: Global,
    files: &[FileIn],
    places: &[usize],
) -> Result<Segments, AllocError>
    requires { IsTrue (are_within (length files.now) places.now) }
    ensures segments { IfOk result (λ s. s.segments.items ≡ segments_from 0 (map (file_at files.now) places.now)) }
    ensures total { IfOk result (λ s. s.total ≡ length (end_to_end (map (file_at files.now) places.now))) }
    ensures bound { IfOk result (λ s. s.total < 10 ^ 19) }
{
    let mut segments = Vec::with_capacity(alloc, places.len())?;
    let mut position = 0;
    for place in places {
        let file = &files[*place];
        segments.push(segment_of(alloc, file, position)?)?;
        position = after(position, file.bytes.len())?;
    }
    Ok(Segments {
        segments,
        total: position,
    })
}

// The segment of a file that lies at this position.
fn segment_of(alloc: Global, file: &FileIn, position: u64) -> Result<Segment, AllocError>
    ensures { IfOk result (λ g. g ≡ record { position = position; size = length file.now.bytes; name = name_of file.now.path }) }
{
    Ok(Segment {
        position,
        size: file.bytes.len() as u64,
        name: Bytes::of(Vec::from_slice(alloc, name_of(file.path.as_slice()))?),
    })
}

// The position after `bytes` more bytes; an error where it isn't below 10^19.
fn after(position: u64, bytes: usize) -> Result<u64, AllocError>
    ensures value { IfOk result (λ end. end ≡ position + bytes) }
    ensures bound { IfOk result (λ end. end < 10 ^ 19) }
{
    match position.checked_add(bytes as u64) {
        Some(end) if end < NUMBERS_END => Ok(end),
        _ => Err(AllocError),
    }
}
