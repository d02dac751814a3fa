// A store that counts the calls that change it.
ghost use Rattle.std.specs.Prelude.{◌≡◌};

use keep_event::{Held, Metadata, Name, Stored};
use keep_store::{Failed, MemoryStore, Store, StoreError};

/// A store, and how many calls that change a store were made of it.
#[derive(Drop)]
pub struct Counted {
    pub inner: MemoryStore,
    pub changes: u64,
}

impl Counted {
    pub fn over(inner: MemoryStore) -> Counted {
        Counted { inner, changes: 0 }
    }

    fn change(&mut self)
        ensures { self.new.inner ≡ self.old.inner }
    {
        self.changes = self.changes.saturating_add(1);
    }
}

impl Store for Counted {
    ghost held = { λ s. ⟦<MemoryStore as Store>⟧.held s.inner };

    ghost noted = { λ s. ⟦<MemoryStore as Store>⟧.noted s.inner };

    ghost faults = { λ s. ⟦<MemoryStore as Store>⟧.faults s.inner };

    fn get(&mut self, name: &Name) -> Result<Option<Stored>, StoreError> {
        self.inner.get(name)
    }

    fn put(&mut self, name: &Name, mtime: u64, bytes: &[u8]) -> Result<(), StoreError> {
        self.change();
        self.inner.put(name, mtime, bytes)
    }

    fn names_from(&mut self, after: Option<Name>, limit: usize) -> Result<Vec<Held>, StoreError> {
        self.inner.names_from(after, limit)
    }

    fn stat(&mut self, name: &Name) -> Result<Option<Metadata>, Failed> {
        self.inner.stat(name)
    }

    fn touch(&mut self, name: &Name, mtime: u64) -> Result<bool, Failed> {
        self.change();
        self.inner.touch(name, mtime)
    }

    fn rename(&mut self, from: &Name, to: &Name, mtime: u64) -> Result<bool, Failed> {
        self.change();
        self.inner.rename(from, to, mtime)
    }

    fn remove(&mut self, name: &Name) -> Result<bool, Failed> {
        self.change();
        self.inner.remove(name)
    }

    fn note(&mut self) -> Result<u64, Failed> {
        self.inner.note()
    }

    fn set_note(&mut self, round: u64) -> Result<(), Failed> {
        self.change();
        self.inner.set_note(round)
    }
}
