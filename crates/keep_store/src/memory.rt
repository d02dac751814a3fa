// A store in memory, with a list of the calls that are to fail.
ghost use Rattle.std.specs.Prelude.{◌≡◌, Some, IfOk, [], option_map, option_copied, take, map};
ghost use Rattle.keep_event.specs.Store.{above, held_of, size_of, AreAscending};
ghost use Rattle.keep_store.specs.Names.{IsCounted};
ghost use Rattle.keep_store.specs.Plans.{FollowsPlan, new_plan};

use crate::name_tree::{Entry, NameTree};
use crate::{Failed, Store, StoreError};
use keep_event::{Held, Metadata, Name, Stored};
use keep_spec::NoMemory;
use std::alloc::Global;

/// A store in memory, with a list of the calls that are to fail. The calls whose only error is `Failed` take no memory.
#[derive(Drop)]
pub struct MemoryStore {
    names: NameTree,
    round: u64,
    failing: Vec<u64>,
    calls: u64,
    faults: u64,
    alloc: Global,
}

impl MemoryStore {
    /// An empty store with note 0, whose n-th call fails exactly where n is in the list; calls of all kinds are counted together, from 1.
    pub fn new(alloc: Global, failing: Vec<u64>) -> MemoryStore
        ensures empty { ⟦<MemoryStore as Store>⟧.held result ≡ Some [] }
        ensures note { ⟦<MemoryStore as Store>⟧.noted result ≡ Some 0 }
        ensures faults { ⟦<MemoryStore as Store>⟧.faults result ≡ 0 }
        ensures plan { ⟦<MemoryStore as Store>⟧.fault_plan result ≡ Some (new_plan failing.items) }
    {
        MemoryStore {
            names: NameTree::new(),
            round: 0,
            failing,
            calls: 0,
            faults: 0,
            alloc,
        }
    }

    // Counts a call, and says whether it is to fail.
    fn is_failing(&mut self) -> bool
        ensures unchanged { (self.new.names ≡ self.old.names) × (self.new.round ≡ self.old.round) }
        ensures cause { IsCounted self.old.faults self.new.faults result }
        ensures planned { FollowsPlan (⟦<MemoryStore as Store>⟧.fault_plan self.old) (⟦<MemoryStore as Store>⟧.fault_plan self.new) self.old.faults self.new.faults result }
    {
        self.calls = self.calls.saturating_add(1);
        if self.failing.contains(&self.calls) {
            self.faults = self.faults.saturating_add(1);
            return true;
        }
        false
    }
}

impl Store for MemoryStore {
    ghost held = { λ s. Some s.names };

    ghost noted = { λ s. Some s.round };

    ghost faults = { λ s. s.faults };

    ghost fault_plan = { λ s. Some (record { failing = s.failing.items; calls = s.calls }) };

    fn get(&mut self, name: &Name) -> Result<Option<Stored>, StoreError> {
        if self.is_failing() {
            return Err(StoreError::Failed);
        }
        match copy_of(self.alloc, self.names.get(name)) {
            Ok(stored) => Ok(stored),
            Err(NoMemory) => Err(StoreError::NoMemory),
        }
    }

    fn put(&mut self, name: &Name, mtime: u64, bytes: &[u8]) -> Result<(), StoreError> {
        if self.is_failing() {
            return Err(StoreError::Failed);
        }
        let Ok(entry) = Entry::new(self.alloc, name, mtime, bytes) else {
            return Err(StoreError::NoMemory);
        };
        self.names.put(entry);
        Ok(())
    }

    fn names_from(&mut self, after: Option<Name>, limit: usize) -> Result<Vec<Held>, StoreError> {
        if self.is_failing() {
            return Err(StoreError::Failed);
        }
        match names_above(self.alloc, &self.names, after, limit) {
            Ok(names) => Ok(names),
            Err(NoMemory) => Err(StoreError::NoMemory),
        }
    }

    fn stat(&mut self, name: &Name) -> Result<Option<Metadata>, Failed> {
        if self.is_failing() {
            return Err(Failed);
        }
        Ok(metadata_of(self.names.get(name)))
    }

    fn touch(&mut self, name: &Name, mtime: u64) -> Result<bool, Failed> {
        if self.is_failing() {
            return Err(Failed);
        }
        Ok(self.names.touch(name, mtime))
    }

    fn rename(&mut self, from: &Name, to: &Name, mtime: u64) -> Result<bool, Failed> {
        if self.is_failing() {
            return Err(Failed);
        }
        Ok(self.names.rename(from, to, mtime))
    }

    fn remove(&mut self, name: &Name) -> Result<bool, Failed> {
        if self.is_failing() {
            return Err(Failed);
        }
        Ok(self.names.remove(name).is_some())
    }

    fn note(&mut self) -> Result<u64, Failed> {
        if self.is_failing() {
            return Err(Failed);
        }
        Ok(self.round)
    }

    fn set_note(&mut self, round: u64) -> Result<(), Failed> {
        if self.is_failing() {
            return Err(Failed);
        }
        self.round = round;
        Ok(())
    }
}

// A copy of what is stored.
pub(crate) fn copy_of(alloc: Global, stored: Option<&Stored>) -> Result<Option<Stored>, NoMemory>
    ensures { IfOk result (λ o. o ≡ option_copied stored.entry) }
{
    match stored {
        Some(stored) => Ok(Some(Stored {
            mtime: stored.mtime,
            bytes: stored.bytes.duplicate(alloc)?,
        })),
        None => Ok(None),
    }
}

// The first names of a tree above a name, or of all.
pub(crate) fn names_above(
    alloc: Global,
    names: &NameTree,
    after: Option<Name>,
    limit: usize,
) -> Result<Vec<Held>, NoMemory>
    ensures value { IfOk result (λ v. v.items ≡ take limit (map held_of (above after names.now))) }
    ensures ascending { IfOk result (λ v. AreAscending (map (λ h. h.name) v.items)) }
{
    let mut out = Vec::new(alloc);
    names.list(after.as_ref(), limit, &mut out)?;
    Ok(out)
}

// The time and the size of what is stored.
pub(crate) fn metadata_of(stored: Option<&Stored>) -> Option<Metadata>
    ensures { result ≡ option_map size_of (option_copied stored.entry) }
{
    let stored = stored?;
    Some(Metadata {
        mtime: stored.mtime,
        size: stored.bytes.len() as u64,
    })
}
