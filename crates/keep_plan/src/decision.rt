// What is decided of one digest.
ghost use Rattle.std.specs.Prelude.{◌≡◌, ◌==◌, ◌&&◌, IfOk, length, nat_lt, take};
ghost use Rattle.keep_event.specs.Plan.{is_member};
ghost use Rattle.keep_plan.specs.Decided.{trashed, pulled, pulled_from};

use keep_event::{Entry, PullItem, TrashItem};
use keep_spec::{Digest, Items, NoMemory};
use std::alloc::Global;

/// What is decided of one digest: how many copies are wanted, which devices hold it, in their order, which are to hold it, and
/// the size that the first of the holders gave, in bytes. Without a want the holders are left out, since nobody asks for them.
#[derive(Drop, Debug)]
pub struct Decision {
    pub digest: Digest,
    pub want: usize,
    pub sources: Vec<u32>,
    pub targets: Vec<u32>,
    pub size: u64,
}

impl Decision {
    /// Whether the device is among the first holders, which are kept.
    pub fn keeps(&self, device: u32) -> bool
        ensures { result ≡ is_member device (take self.now.want self.now.sources.items) }
    {
        let kept = self.want.min(self.sources.len());
        self.sources.as_slice()[..kept].contains(&device)
    }

    /// Whether copies are wanted and there is no holder.
    pub fn is_lost(&self) -> bool
        ensures { result ≡ (nat_lt 0 self.now.want && (length self.now.sources.items == 0)) }
    {
        0 < self.want && self.sources.is_empty()
    }

    /// The trash item of a device, by the entry that it gave: where it isn't kept, is writable, and its time is below the
    /// threshold, in nanoseconds since 1970.
    pub fn trash_item(
        &self,
        device: u32,
        entry: &Option<Entry>,
        writable: bool,
        threshold: u64,
    ) -> Option<TrashItem>
        ensures { result ≡ trashed self.now.digest (take self.now.want self.now.sources.items) writable threshold device entry.now }
    {
        match entry {
            None => None,
            Some(entry) => {
                if !self.keeps(device) && writable && entry.mtime < threshold {
                    Some(TrashItem {
                        digest: self.digest,
                        size: entry.size,
                        mtime: entry.mtime,
                    })
                } else {
                    None
                }
            }
        }
    }

    /// The pull item of a device, by the entry that it gave: where it is a target and gave none, and there is a holder.
    pub fn pull_item(
        &self,
        alloc: Global,
        device: u32,
        entry: &Option<Entry>,
    ) -> Result<Option<PullItem>, NoMemory>
        ensures { IfOk result (λ o. o ≡ pulled self.now.digest self.now.targets.items self.now.size self.now.sources.items device entry.now) }
    {
        match entry {
            None => self.pull(alloc, device),
            Some(_) => Ok(None),
        }
    }

    fn pull(&self, alloc: Global, device: u32) -> Result<Option<PullItem>, NoMemory>
        ensures { IfOk result (λ o. o ≡ pulled_from self.now.digest self.now.targets.items self.now.size self.now.sources.items device) }
    {
        if 0 < self.sources.len() && self.targets.contains(&device) {
            let sources = Vec::from_slice(alloc, self.sources.as_slice())?;
            return Ok(Some(PullItem {
                digest: self.digest,
                size: self.size,
                sources: Items::of(sources),
            }));
        }
        Ok(None)
    }
}
