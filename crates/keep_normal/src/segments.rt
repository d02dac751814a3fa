// One line of the normal form.
ghost use Rattle.std.specs.Prelude.{◌≡◌, ◌++◌, map, IsTrue, IfOk};
ghost use Rattle.std.specs.List.{list_all, flat_map};
ghost use Rattle.keep_normal.specs.Outcomes.{ReturnsIf, CollectsIf, LeavesIf};
ghost use Rattle.keep_normal.specs.Known.{IsKnown};
ghost use Rattle.keep_normal.specs.Normal.{spans, span_in, segment_of, or_empty, file_name, file_segments, or_empty_block, line_of, is_small_segment, is_small_stream};
ghost use Rattle.keep_normal.specs.Sound.{are_sound};

use crate::blocks::{Blocks, blocks_of};
use crate::fault::NormalError;
use crate::joining::join_span;
use crate::part::{FileParts, Part};
use crate::path::path_parts;
use crate::span::Span;
use keep_spec::{Bytes, Items, Segment, Stream};
use std::alloc::{AllocError, Global};

// Numbers have at most 19 digits.
const NUMBERS_END: u128 = 10_000_000_000_000_000_000;

// The line of a directory and its files, whose locators are stripped.
pub(crate) fn line_of(
    alloc: Global,
    name: Bytes,
    files: Items<FileParts>,
) -> Result<Stream, NormalError>
    requires { IsTrue (list_all (λ f. are_sound f.parts) files) }
    ensures { ReturnsIf result (line_of (name, files)) (is_small_stream (line_of (name, files))) }
{
    let blocks = blocks_of(alloc, files.as_slice())?;
    let segments = segments_of(alloc, &blocks, files.as_slice())?;
    Ok(Stream {
        name,
        locators: Items::of(or_empty_block(alloc, blocks.locators)?),
        segments: Items::of(segments),
    })
}

// The blocks, and the empty one where there are none.
fn or_empty_block(alloc: Global, mut locators: Vec<Bytes>) -> Result<Vec<Bytes>, AllocError>
    ensures { IfOk result (λ all. all.items ≡ or_empty_block locators.items) }
{
    if locators.is_empty() {
        let empty = Vec::from_slice(alloc, b"d41d8cd98f00b204e9800998ecf8427e+0")?;
        locators.push(Bytes::of(empty))?;
    }
    Ok(locators)
}

// The segments of files in a line that lists these blocks.
fn segments_of(
    alloc: Global,
    blocks: &Blocks,
    files: &[FileParts],
) -> Result<Vec<Segment>, NormalError>
    requires { IsKnown blocks.now }
    ensures { CollectsIf result (flat_map (file_segments blocks.now.locators.items) files.now)
        (list_all is_small_segment (flat_map (file_segments blocks.now.locators.items) files.now)) }
{
    let mut segments = Vec::new(alloc);
    for file in files {
        push_file(alloc, &mut segments, blocks, file)?;
    }
    Ok(segments)
}

// Appends the segments of a file. On error a part of them may remain.
fn push_file(
    alloc: Global,
    segments: &mut Vec<Segment>,
    blocks: &Blocks,
    file: &FileParts,
) -> Result<(), NormalError>
    requires { IsKnown blocks.now }
    ensures { LeavesIf result segments.new.items
        (segments.old.items ++ file_segments blocks.now.locators.items file.now)
        (list_all is_small_segment (file_segments blocks.now.locators.items file.now)) }
{
    let (_, name) = path_parts(file.path.as_slice());
    let spans = spans_of(alloc, blocks, file.parts.as_slice())?;
    push_segments(alloc, segments, name, &spans)
}

// The spans of a file's parts, joined where they meet; one span of no bytes where there are none.
fn spans_of(alloc: Global, blocks: &Blocks, parts: &[Part]) -> Result<Vec<Span>, AllocError>
    requires { IsKnown blocks.now }
    ensures { IfOk result (λ v. v.items ≡ or_empty (spans blocks.now.locators.items parts.now)) }
{
    let mut spans = Vec::new(alloc);
    for part in parts {
        join_span(&mut spans, span_in(blocks, part))?;
    }
    if spans.is_empty() {
        spans.push(Span { from: 0, to: 0 })?;
    }
    Ok(spans)
}

// Where a part lies among the blocks.
fn span_in(blocks: &Blocks, part: &Part) -> Span
    requires { IsKnown blocks.now }
    ensures { result ≡ span_in blocks.now.locators.items part.now }
{
    let length = part.length;
    let from = blocks.start(&part.locator) + u128::from(part.offset);
    Span {
        from,
        to: from + u128::from(length),
    }
}

// Appends segments with this name.
fn push_segments(
    alloc: Global,
    segments: &mut Vec<Segment>,
    name: &[u8],
    spans: &[Span],
) -> Result<(), NormalError>
    ensures { LeavesIf result segments.new.items (segments.old.items ++ map (segment_of name.now) spans.now)
        (list_all is_small_segment (map (segment_of name.now) spans.now)) }
{
    for span in spans {
        segments.push(segment_of(alloc, name, *span)?)?;
    }
    Ok(())
}

// The segment of a name and a span; `TooLarge` where a number isn't below 10^19.
fn segment_of(alloc: Global, name: &[u8], span: Span) -> Result<Segment, NormalError>
    ensures { ReturnsIf result (segment_of name.now span) (is_small_segment (segment_of name.now span)) }
{
    let size = span.to.saturating_sub(span.from);
    if span.from >= NUMBERS_END || size >= NUMBERS_END {
        return Err(NormalError::TooLarge);
    }
    Ok(Segment {
        position: span.from as u64,
        size: size as u64,
        name: Bytes::of(Vec::from_slice(alloc, name)?),
    })
}
