// The blocks of a stream, which lie end to end in it.
ghost use Rattle.std.specs.Prelude.{◌≡◌, ◌+◌, ◌*◌, ◌^◌, ◌<◌, ◌≤◌, ◌++◌, [], ◌∷◌, length, take, IsTrue, IfOk, OnOk, slice_index_or};
ghost use Rattle.std.specs.List.{list_all};
ghost use Rattle.keep_spec.specs.Locator.{is_locator, size};
ghost use Rattle.keep_spec.specs.Manifest.{total_size};
ghost use Rattle.keep_normal.specs.Files.{kept, part_in, parts_in};
ghost use Rattle.keep_normal.specs.Placed.{placed};
ghost use Rattle.keep_normal.specs.declared.block.Block.{Block};

use crate::part::Part;
use crate::span::Span;
use keep_locator::Locator;
use keep_spec::{Bytes, Items};
use std::alloc::{AllocError, Global};

/// The bytes `start..end` of a stream, those of one block.
#[derive(Drop)]
pub(crate) struct Block {
    pub(crate) start: u128,
    pub(crate) end: u128,
}

// Where the blocks of these locators lie in their stream.
pub(crate) fn blocks_of(alloc: Global, locators: &[Bytes]) -> Result<Vec<Block>, AllocError>
    requires { IsTrue (list_all is_locator locators.now) }
    ensures { IfOk result (λ blocks. blocks.items ≡ placed 0 locators.now) }
{
    let mut blocks = Vec::new(alloc);
    let mut start: u128 = 0;
    for locator in locators {
        let end = start + u128::from(block_size(locator.as_slice()));
        blocks.push(Block { start, end })?;
        start = end;
    }
    Ok(blocks)
}

// The size of a block in bytes.
pub(crate) fn block_size(locator: &[u8]) -> u64
    requires { IsTrue (is_locator locator.now) }
    ensures value { result ≡ size locator.now }
    ensures bound { result < 10 ^ 19 }
{
    let Ok(locator) = Locator::read(locator) else {
        unreachable!()
    };
    locator.size()
}

// The last block that begins at `from` or before, by binary search.
fn find_block(blocks: &[Block], from: u128) -> usize
    requires not_empty { 0 < length blocks.now }
    requires first { (d : Block) → (slice_index_or blocks.now 0 d).start ≤ from }
    ensures within { result < length blocks.now }
    ensures before { (d : Block) → (slice_index_or blocks.now result d).start ≤ from }
{
    let mut low = 0;
    let mut high = blocks.len();
    while high - low > 1 {
        let middle = low + (high - low) / 2;
        if blocks[middle].start <= from {
            low = middle;
        } else {
            high = middle;
        }
    }
    low
}

// The parts of a stream's blocks that lie in a span.
pub(crate) fn parts_in(
    alloc: Global,
    locators: &[Bytes],
    blocks: &[Block],
    span: Span,
) -> Result<Items<Part>, AllocError>
    requires not_empty { 0 < length locators.now }
    requires locators { IsTrue (list_all is_locator locators.now) }
    requires placed { blocks.now ≡ placed 0 locators.now }
    ensures { IfOk result (λ parts. parts ≡ parts_in 0 span locators.now) }
{
    let mut parts = Vec::new(alloc);
    for index in find_block(blocks, span.from)..blocks.len() {
        let block = &blocks[index];
        if block.start >= span.to {
            return Ok(Items::of(parts));
        }
        push_part(alloc, &mut parts, &locators[index], block, span)?;
    }
    Ok(Items::of(parts))
}

// Appends the part of a block that lies in a span, unless it has no bytes.
fn push_part(
    alloc: Global,
    parts: &mut Vec<Part>,
    locator: &Bytes,
    block: &Block,
    span: Span,
) -> Result<(), AllocError>
    requires ends { block.now.end ≡ block.now.start + size locator.now }
    requires locator { IsTrue (is_locator locator.now) }
    ensures { OnOk result
        (parts.new.items ≡ parts.old.items ++ kept (part_in block.now.start span locator.now)) }
{
    let first = block.start.max(span.from);
    let last = block.end.min(span.to);
    if last <= first {
        return Ok(());
    }
    let locator = Bytes::of(Vec::from_slice(alloc, locator.as_slice())?);
    parts.push(Part {
        locator,
        offset: (first - block.start) as u64,
        length: (last - first) as u64,
    })?;
    Ok(())
}
