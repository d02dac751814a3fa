// Pages of replicas, and the two lists that a device takes in a round.
ghost use Rattle.std.specs.Prelude.{◌≡◌, IfOk};

use keep_spec::{Digest, Items, NoMemory};
use std::alloc::Global;

/// A replica on a page.
#[derive(Clone, Copy, Debug, PartialEq, Eq)]
pub struct Entry {
    pub digest: Digest,
    /// In bytes.
    pub size: u64,
    /// In nanoseconds since 1970.
    pub mtime: u64,
}

/// A replica to be trashed, provided that its time is still `mtime`.
#[derive(Clone, Copy, Debug, PartialEq, Eq)]
pub struct TrashItem {
    pub digest: Digest,
    /// In bytes.
    pub size: u64,
    /// In nanoseconds since 1970.
    pub mtime: u64,
}

/// A block to be pulled from one of the devices that held it.
#[derive(Drop, Debug)]
pub struct PullItem {
    pub digest: Digest,
    /// In bytes.
    pub size: u64,
    /// The numbers of the devices that held it, in their order.
    pub sources: Items<u32>,
}

/// The trash list and the pull list that a device takes in a round.
#[derive(Drop, Debug)]
pub struct Lists {
    pub trash: Items<TrashItem>,
    pub pull: Items<PullItem>,
}

impl PullItem {
    /// Copies the item. NoMemory is the only error.
    pub fn duplicate(&self, alloc: Global) -> Result<PullItem, NoMemory>
        ensures { IfOk result (λ item. item ≡ self.now) }
    {
        Ok(PullItem {
            digest: self.digest,
            size: self.size,
            sources: Items::of(Vec::from_slice(alloc, self.sources.as_slice())?),
        })
    }
}

impl Lists {
    /// Copies both lists. NoMemory is the only error.
    pub fn duplicate(&self, alloc: Global) -> Result<Lists, NoMemory>
        ensures { IfOk result (λ lists. lists ≡ self.now) }
    {
        Ok(Lists {
            trash: Items::of(Vec::from_slice(alloc, self.trash.as_slice())?),
            pull: Items::of(duplicate_pulls(alloc, self.pull.as_slice())?),
        })
    }
}

fn duplicate_pulls(alloc: Global, items: &[PullItem]) -> Result<Vec<PullItem>, NoMemory>
    ensures { IfOk result (λ copy. copy.items ≡ items.now) }
{
    let mut copy = Vec::with_capacity(alloc, items.len())?;
    for item in items {
        if copy.push(item.duplicate(alloc)?).is_err() {
            return Err(NoMemory);
        }
    }
    Ok(copy)
}
