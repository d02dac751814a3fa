// A store in memory that never fails.
ghost use Rattle.std.specs.Prelude.{◌≡◌, Some, []};

use crate::memory::{copy_of, metadata_of, names_above};
use crate::name_tree::{Entry, NameTree};
use crate::{Failed, Store, StoreError};
use keep_event::{Held, Metadata, Name, Stored};
use keep_spec::NoMemory;
use std::alloc::Global;

/// A store in memory that never fails: its count of faults is always 0, so its calls answer no `Failed`.
#[derive(Drop)]
pub struct SureStore {
    names: NameTree,
    round: u64,
    alloc: Global,
}

impl SureStore {
    /// An empty store with note 0.
    pub fn new(alloc: Global) -> SureStore
        ensures empty { ⟦<SureStore as Store>⟧.held result ≡ Some [] }
        ensures note { ⟦<SureStore as Store>⟧.noted result ≡ Some 0 }
    {
        SureStore {
            names: NameTree::new(),
            round: 0,
            alloc,
        }
    }
}

impl Store for SureStore {
    ghost held = { λ s. Some s.names };

    ghost noted = { λ s. Some s.round };

    ghost faults = { λ s. 0 };

    fn get(&mut self, name: &Name) -> Result<Option<Stored>, StoreError> {
        match copy_of(self.alloc, self.names.get(name)) {
            Ok(stored) => Ok(stored),
            Err(NoMemory) => Err(StoreError::NoMemory),
        }
    }

    fn put(&mut self, name: &Name, mtime: u64, bytes: &[u8]) -> Result<(), StoreError> {
        let Ok(entry) = Entry::new(self.alloc, name, mtime, bytes) else {
            return Err(StoreError::NoMemory);
        };
        self.names.put(entry);
        Ok(())
    }

    fn names_from(&mut self, after: Option<Name>, limit: usize) -> Result<Vec<Held>, StoreError> {
        match names_above(self.alloc, &self.names, after, limit) {
            Ok(names) => Ok(names),
            Err(NoMemory) => Err(StoreError::NoMemory),
        }
    }

    fn stat(&mut self, name: &Name) -> Result<Option<Metadata>, Failed> {
        Ok(metadata_of(self.names.get(name)))
    }

    fn touch(&mut self, name: &Name, mtime: u64) -> Result<bool, Failed> {
        Ok(self.names.touch(name, mtime))
    }

    fn rename(&mut self, from: &Name, to: &Name, mtime: u64) -> Result<bool, Failed> {
        Ok(self.names.rename(from, to, mtime))
    }

    fn remove(&mut self, name: &Name) -> Result<bool, Failed> {
        Ok(self.names.remove(name).is_some())
    }

    fn note(&mut self) -> Result<u64, Failed> {
        Ok(self.round)
    }

    fn set_note(&mut self, round: u64) -> Result<(), Failed> {
        self.round = round;
        Ok(())
    }
}
