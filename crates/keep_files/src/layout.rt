// The files of each directory laid out in blocks.
ghost use Rattle.std.specs.Prelude.{◌≡◌, ◌<◌, ◌≤◌, ◌^◌, map, fold, length, IsTrue, IfOk, OnOk, nat_lt, true};
ghost use Rattle.std.specs.List.{list_all, flat_map};
ghost use Rattle.keep_normal.specs.Normal.{or_empty_block};
ghost use Rattle.keep_files.specs.Layout.{line_of, pieces_of, with_block, distinct, end_to_end};
ghost use Rattle.keep_files.specs.Places.{group_at, are_within};
ghost use Rattle.keep_files.specs.Pieces.{IsKnown};

use crate::blocks::Blocks;
use crate::cutter::cut_files;
use crate::file::FileIn;
use crate::places::Directories;
use crate::segments::segments_of;
use keep_event::Block;
use keep_spec::{Bytes, Items, Stream};
use std::alloc::{AllocError, Global};

/// What files are laid out in.
#[derive(Drop)]
pub(crate) struct LaidOut {
    pub(crate) blocks: Vec<Block>,
    pub(crate) streams: Vec<Stream>,
}

// The lines of directories, and their blocks. An error also where one of them has 10^19 bytes or more.
pub(crate) fn lay_out(
    alloc: Global,
    files: &[FileIn],
    directories: Directories,
    size: usize,
) -> Result<LaidOut, AllocError>
    requires within { IsTrue (list_all (λ g. are_within (length files.now) g.1) directories.entries) }
    requires size { 0 < size }
    requires bound { size ≤ 67108864 }
    ensures streams { IfOk result (λ l. l.streams.items ≡ map (λ g. line_of size (group_at files.now g)) directories.entries) }
    ensures blocks { IfOk result
        (λ l. l.blocks.items ≡ distinct (flat_map (λ g. pieces_of size (group_at files.now g)) directories.entries)) }
    ensures small { IfOk result
        (λ l. list_all (λ g. nat_lt (length (end_to_end (group_at files.now g).1)) (10 ^ 19)) directories.entries ≡ true) }
{
    let mut blocks = Blocks::new(alloc);
    let mut streams = Vec::new(alloc);
    for (name, places) in directories {
        streams.push(line_of(alloc, &mut blocks, files, name, places, size)?)?;
    }
    Ok(LaidOut {
        blocks: blocks.blocks,
        streams,
    })
}

// The line of a directory and the files at these places, whose blocks are added.
fn line_of(
    alloc: Global,
    blocks: &mut Blocks,
    files: &[FileIn],
    name: Bytes,
    places: Items<usize>,
    size: usize,
) -> Result<Stream, AllocError>
    requires within { IsTrue (are_within (length files.now) places) }
    requires size { 0 < size }
    requires bound { size ≤ 67108864 }
    requires known { IsKnown blocks.old }
    ensures known { OnOk result (IsKnown blocks.new) }
    ensures blocks { OnOk result
        (blocks.new.blocks.items ≡ fold with_block blocks.old.blocks.items (pieces_of size (group_at files.now (name, places)))) }
    ensures line { IfOk result (λ s. s ≡ line_of size (group_at files.now (name, places))) }
    ensures small { OnOk result (length (end_to_end (group_at files.now (name, places)).1) < 10 ^ 19) }
{
    let segments = segments_of(alloc, files, places.as_slice())?;
    let pieces = cut_files(alloc, files, places.as_slice(), size, segments.total)?;
    let locators = blocks.add_all(alloc, pieces)?;
    Ok(Stream {
        name,
        locators: Items::of(or_empty_block(alloc, locators)?),
        segments: Items::of(segments.segments),
    })
}

// The locators, and that of the empty block where there are none.
fn or_empty_block(alloc: Global, mut locators: Vec<Bytes>) -> Result<Vec<Bytes>, AllocError>
    ensures { IfOk result (λ all. all.items ≡ or_empty_block locators.items) }
{
    if locators.is_empty() {
        let empty = Vec::from_slice(alloc, b"d41d8cd98f00b204e9800998ecf8427e+0")?;
        locators.push(Bytes::of(empty))?;
    }
    Ok(locators)
}
