// The blocks of a line of the normal form.
ghost use Rattle.std.specs.Prelude.{◌≡◌, ◌+◌, ◌^◌, ◌<◌, [], ◌∷◌, ◌++◌, None, fold, map, IsTrue, OnOk, IfOk, unwrap_or};
ghost use Rattle.std.specs.List.{list_all};
ghost use Rattle.keep_spec.specs.Locator.{is_locator};
ghost use Rattle.keep_normal.specs.Normal.{start_at, with_block, blocks};
ghost use Rattle.keep_normal.specs.Sound.{are_sound};
ghost use Rattle.keep_normal.specs.Known.{IsKnown};

use crate::block::block_size;
use crate::part::{FileParts, Part};
use keep_spec::Bytes;
use std::alloc::{AllocError, Global};
use std::collections::BTreeMap;

/// The blocks of a line, each once, which lie end to end.
#[derive(Drop)]
pub(crate) struct Blocks {
    pub(crate) locators: Vec<Bytes>,
    // Where each begins, in bytes.
    known: BTreeMap<Bytes, u128>,
    // The sum of their sizes, in bytes.
    total: u128,
}

impl Blocks {
    pub(crate) fn new(alloc: Global) -> Blocks
        ensures empty { result.locators.items ≡ [] }
        ensures known { IsKnown result }
    {
        Blocks {
            locators: Vec::new(alloc),
            known: BTreeMap::new(alloc),
            total: 0,
        }
    }

    // Where a block begins, in bytes; 0 for a block that isn't listed.
    pub(crate) fn start(&self, locator: &Bytes) -> u128
        requires { IsKnown self.now }
        ensures value { result ≡ unwrap_or (start_at self.now.locators.items locator.now) 0 }
        ensures bound { result + 2 ^ 65 < 2 ^ 128 }
    {
        match self.known.get(locator) {
            Some(start) => *start,
            None => 0,
        }
    }

    // Appends a block, unless it is listed.
    fn add(&mut self, alloc: Global, locator: &Bytes) -> Result<(), AllocError>
        requires known { IsKnown self.old }
        requires locator { IsTrue (is_locator locator.now) }
        ensures known { OnOk result (IsKnown self.new) }
        ensures added { OnOk result
            (self.new.locators.items ≡ with_block self.old.locators.items locator.now) }
    {
        if self.known.contains_key(locator) {
            return Ok(());
        }
        self.push(alloc, locator)
    }

    // Appends a block that isn't listed.
    fn push(&mut self, alloc: Global, locator: &Bytes) -> Result<(), AllocError>
        requires known { IsKnown self.old }
        requires locator { IsTrue (is_locator locator.now) }
        requires new { start_at self.old.locators.items locator.now ≡ None }
        ensures known { OnOk result (IsKnown self.new) }
        ensures added { OnOk result (self.new.locators.items ≡ self.old.locators.items ++ locator.now ∷ []) }
    {
        let size = block_size(locator.as_slice());
        let key = Bytes::of(Vec::from_slice(alloc, locator.as_slice())?);
        self.known.insert(key, self.total)?;
        let copy = Bytes::of(Vec::from_slice(alloc, locator.as_slice())?);
        self.locators.push(copy)?;
        self.total += u128::from(size);
        Ok(())
    }

    // Appends the blocks of parts that aren't listed.
    fn add_all(&mut self, alloc: Global, parts: &[Part]) -> Result<(), AllocError>
        requires known { IsKnown self.old }
        requires locators { IsTrue (are_sound parts.now) }
        ensures known { OnOk result (IsKnown self.new) }
        ensures added { OnOk result
            (self.new.locators.items ≡ fold with_block self.old.locators.items (map (λ p. p.locator) parts.now)) }
    {
        for part in parts {
            self.add(alloc, &part.locator)?;
        }
        Ok(())
    }
}

// The blocks of files in the order of their first use.
pub(crate) fn blocks_of(alloc: Global, files: &[FileParts]) -> Result<Blocks, AllocError>
    requires { IsTrue (list_all (λ f. are_sound f.parts) files.now) }
    ensures known { IfOk result IsKnown }
    ensures blocks { IfOk result (λ b. b.locators.items ≡ blocks files.now) }
{
    let mut blocks = Blocks::new(alloc);
    for file in files {
        blocks.add_all(alloc, file.parts.as_slice())?;
    }
    Ok(blocks)
}
