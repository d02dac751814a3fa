// All blocks, each once.
ghost use Rattle.std.specs.Prelude.{◌≡◌, ◌<◌, ◌≤◌, [], length, map, fold, nat_le, IsTrue, IfOk, OnOk};
ghost use Rattle.std.specs.List.{list_any, list_all};
ghost use Rattle.std.specs.Str.{bytes_eq};
ghost use Rattle.std.specs.BTreeMap.{get};
ghost use Rattle.md5.specs.Md5.{md5};
ghost use Rattle.keep_event.specs.Index.{locator_text};
ghost use Rattle.keep_normal.specs.Grouped.{byte_order};
ghost use Rattle.keep_files.specs.Layout.{locator_of, with_block};
ghost use Rattle.keep_files.specs.Pieces.{IsKnown};

use itoa::Buffer;
use keep_event::Block;
use keep_spec::{Bytes, Digest};
use std::alloc::{AllocError, Global};
use std::collections::BTreeMap;

/// Blocks, each once, in the order in which they came.
#[derive(Drop)]
pub(crate) struct Blocks {
    pub(crate) blocks: Vec<Block>,
    // The place of the first block of each digest.
    pub(crate) known: BTreeMap<Digest, usize>,
}

impl Blocks {
    pub(crate) fn new(alloc: Global) -> Blocks
        ensures empty { result.blocks.items ≡ [] }
        ensures known { IsKnown result }
    {
        Blocks {
            blocks: Vec::new(alloc),
            known: BTreeMap::new(alloc),
        }
    }

    // Appends the blocks of pieces unless they are there, and returns the locator of each piece.
    pub(crate) fn add_all(
        &mut self,
        alloc: Global,
        pieces: Vec<Bytes>,
    ) -> Result<Vec<Bytes>, AllocError>
        requires known { IsKnown self.old }
        requires sizes { IsTrue (list_all (λ p. nat_le (length p) 67108864) pieces.items) }
        ensures known { OnOk result (IsKnown self.new) }
        ensures added { OnOk result (self.new.blocks.items ≡ fold with_block self.old.blocks.items pieces.items) }
        ensures locators { IfOk result (λ locators. locators.items ≡ map locator_of pieces.items) }
    {
        let mut locators = Vec::with_capacity(alloc, pieces.len())?;
        for piece in pieces {
            let block = block_of(piece);
            locators.push(locator_of(alloc, &block)?)?;
            self.add(block)?;
        }
        Ok(locators)
    }

    // Appends a block unless it is there.
    fn add(&mut self, block: Block) -> Result<(), AllocError>
        requires { IsKnown self.old }
        ensures known { OnOk result (IsKnown self.new) }
        ensures added { OnOk result (self.new.blocks.items ≡ with_block self.old.blocks.items block) }
    {
        let digest = block.digest();
        match self.place_of(&digest) {
            Some(place) => {
                if self.has(place, &block) {
                    return Ok(());
                }
                self.blocks.push(block)?;
            }
            None => {
                self.known.insert(digest, self.blocks.len())?;
                self.blocks.push(block)?;
            }
        }
        Ok(())
    }

    // The place of the first block of a digest.
    fn place_of(&self, digest: &Digest) -> Option<usize>
        ensures { result ≡ get byte_order self.now.known digest.now }
    {
        match self.known.get(digest) {
            Some(place) => Some(*place),
            None => None,
        }
    }

    // Whether a block is there; `place` is that of one with its digest.
    fn has(&self, place: usize, block: &Block) -> bool
        requires { place < length self.now.blocks.items }
        ensures { result ≡ list_any (bytes_eq block.now) self.now.blocks.items }
    {
        block.bytes() == self.blocks[place].bytes()
            || self.blocks.iter().any(|b| b.bytes() == block.bytes())
    }
}

// The block of a piece.
fn block_of(piece: Bytes) -> Block
    requires { length piece ≤ 67108864 }
    ensures { result ≡ piece }
{
    match Block::of(piece) {
        Ok(block) => block,
        Err(_) => unreachable!(),
    }
}

// The digits of a block's digest, `+` and its size in bytes.
fn locator_of(alloc: Global, block: &Block) -> Result<Bytes, AllocError>
    ensures { IfOk result (λ locator. locator ≡ locator_of block.now) }
{
    let mut buffer = Buffer::new();
    let mut locator = Vec::from_slice(alloc, &block.digest().write())?;
    locator.push(b'+')?;
    locator.extend_from_slice(buffer.format(block.bytes().len()).as_bytes())?;
    Ok(Bytes::of(locator))
}
