// The files of a manifest.
ghost use Rattle.std.specs.Prelude.{◌≡◌, ◌↔◌, ℕ, List, map, fold, All, Contains, IsTrue, IfOk, OnOk};
ghost use Rattle.std.specs.BTreeMap.{IsOrdered};
ghost use Rattle.std.specs.List.{list_all};
ghost use Rattle.std.specs.List.Sorted.{IsStrictlySortedBy};
ghost use Rattle.keep_spec.specs.Manifest.{IsGood};
ghost use Rattle.keep_manifest.specs.Good.{is_good_manifest, is_good_stream};
ghost use Rattle.keep_normal.specs.Grouped.{byte_order, put, grouped};
ghost use Rattle.keep_normal.specs.Files.{files as files_of, file_of, is_mark, path_of, piece_of, stream_pieces, pieces, paths_named, parts_named};
ghost use Rattle.keep_normal.specs.Placed.{placed};
ghost use Rattle.keep_normal.specs.Sound.{are_sound};

use crate::block::{Block, blocks_of, parts_in};
use crate::groups::{Groups, put};
use crate::joining::join_parts;
use crate::part::{FileParts, Part};
use crate::span::Span;
use keep_spec::{Bytes, Items, Manifest, NoMemory, Segment, Stream};
use std::alloc::{AllocError, Global};
use std::collections::BTreeMap;

/// The files of a good manifest, in ascending order of their paths' bytes. A file's path is its stream's name, `/` and its own name; its
/// parts are those that all segments with this path name, in the order of the text. Parts of no bytes are left out, and parts that touch
/// in one block are joined; a joined part has the whole locator, hints included, of the first. Marks of empty directories are no files.
pub fn files(alloc: Global, manifest: &Manifest) -> Result<Vec<FileParts>, NoMemory>
    requires { IsGood manifest.now }
    ensures files { IfOk result (λ files. files.items ≡ files_of manifest.now) }
    ensures ascending { IfOk result (λ files. IsStrictlySortedBy byte_order (map (λ f. f.path) files.items)) }

    // A path is that of a file exactly where a segment names it, and the file has what the segments with this path name.
    ensures paths { IfOk result
        (λ files. (path : List ℕ) → Contains (map (λ f. f.path) files.items) path ↔ Contains (paths_named manifest.now) path) }
    ensures parts { IfOk result (λ files. All (λ f. f.parts ≡ parts_named manifest.now f.path) files.items) }
{
    let pieces = pieces_of(alloc, manifest)?;
    Ok(files_from(alloc, pieces)?)
}

#[tactic(auto, unfolding(crate::specs::Grouped::grouped))]
fn pieces_of(alloc: Global, manifest: &Manifest) -> Result<Groups<Items<Part>>, AllocError>
    requires { IsTrue (is_good_manifest manifest.now) }
    ensures { IfOk result (λ groups. groups.entries ≡ grouped (pieces manifest.now)) }
{
    let mut groups = BTreeMap::new(alloc);
    for stream in manifest.streams.as_slice() {
        put_stream(alloc, &mut groups, stream)?;
    }
    Ok(groups)
}

fn files_from(alloc: Global, groups: Groups<Items<Part>>) -> Result<Vec<FileParts>, AllocError>
    requires { IsTrue (list_all (λ g. list_all are_sound g.1) groups.entries) }
    ensures { IfOk result (λ files. files.items ≡ map file_of groups.entries) }
{
    let mut files = Vec::new(alloc);
    for (path, pieces) in groups {
        files.push(file_of(alloc, path, pieces)?)?;
    }
    Ok(files)
}

// Adds what the segments of a stream name to the groups of their paths.
fn put_stream(
    alloc: Global,
    groups: &mut Groups<Items<Part>>,
    stream: &Stream,
) -> Result<(), AllocError>
    requires ordered { IsOrdered byte_order groups.old }
    requires good { IsTrue (is_good_stream stream.now) }
    ensures ordered { IsOrdered byte_order groups.new }
    ensures entries { OnOk result
        (groups.new.entries ≡ fold put groups.old.entries (stream_pieces stream.now)) }
{
    let blocks = blocks_of(alloc, stream.locators.as_slice())?;
    for segment in stream.segments.as_slice() {
        put_segment(alloc, groups, stream, &blocks, segment)?;
    }
    Ok(())
}

// Adds what a segment names to the group of its path.
fn put_segment(
    alloc: Global,
    groups: &mut Groups<Items<Part>>,
    stream: &Stream,
    blocks: &[Block],
    segment: &Segment,
) -> Result<(), AllocError>
    requires ordered { IsOrdered byte_order groups.old }
    requires good { IsTrue (is_good_stream stream.now) }
    requires placed { blocks.now ≡ placed 0 stream.now.locators }
    ensures ordered { IsOrdered byte_order groups.new }
    ensures entries { OnOk result
        (groups.new.entries ≡ fold put groups.old.entries (piece_of stream.now segment.now)) }
{
    if is_mark(segment) {
        return Ok(());
    }
    let path = path_of(alloc, &stream.name, &segment.name)?;
    let from = u128::from(segment.position);
    let span = Span {
        from,
        to: from + u128::from(segment.size),
    };
    let parts = parts_in(alloc, stream.locators.as_slice(), blocks, span)?;
    put(alloc, groups, path, parts)
}

// Whether a segment marks an empty directory.
fn is_mark(segment: &Segment) -> bool
    ensures { result ≡ is_mark segment.now }
{
    segment.size == 0 && segment.name.as_slice() == b".".as_slice()
}

fn path_of(alloc: Global, directory: &Bytes, name: &Bytes) -> Result<Bytes, AllocError>
    ensures { IfOk result (λ path. path ≡ path_of directory.now name.now) }
{
    let mut path = Vec::with_capacity(alloc, directory.len())?;
    path.extend_from_slice(directory.as_slice())?;
    path.push(b'/')?;
    path.extend_from_slice(name.as_slice())?;
    Ok(Bytes::of(path))
}

// The file of a path, from what each of its segments names, in their order.
fn file_of(alloc: Global, path: Bytes, pieces: Items<Items<Part>>) -> Result<FileParts, AllocError>
    requires { IsTrue (list_all are_sound pieces) }
    ensures { IfOk result (λ file. file ≡ file_of (path, pieces)) }
{
    let mut parts = Vec::new(alloc);
    for piece in pieces.into_vec() {
        join_parts(&mut parts, piece.into_vec())?;
    }
    Ok(FileParts {
        path,
        parts: Items::of(parts),
    })
}
