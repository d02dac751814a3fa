// Ascending names, each with its time and its size.
ghost use Rattle.std.specs.Prelude.{◌≡◌, ◌<◌, ◌↔◌, [], true, IsTrue, OnOk};
ghost use Rattle.std.specs.Slice.Iter.{iter_rest};
ghost use Rattle.keep_event.specs.Store.{cut, find, put, without, above, change, IsAscending, with_mtime};
ghost use Rattle.std.specs.List.{filter};
ghost use Rattle.std.specs.Str.{bytes_eq};
ghost use Rattle.keep_volume.specs.Digits.{is_within};
ghost use Rattle.keep_store.specs.Names.{has, named};
ghost use Rattle.keep_volume.specs.Places.{IsPlace};

use crate::digits::digits_order;
use keep_event::{Metadata, Name};
use keep_spec::{Digest, NoMemory};
use std::alloc::Global;
use std::marker::Model;
use std::slice::Iter;

/// Names in their order, each once and with its time and size. It is seen as the list of these, with the number of names for which it has room.
/// A look-up is a binary search, and a name that comes or goes moves those after it; so a device has one for each first byte of a digest, in a `NameMap`.
#[derive(Drop)]
pub(crate) struct NameList {
    items: Vec<(Name, Metadata)>,
}

impl Model for NameList {
    ghost use Rattle.std.specs.Prelude.{◌-◌};
    ghost use Rattle.std.specs.Vec.{vec_len, vec_capacity};
    ghost use Rattle.keep_event.specs.Store.{IsAscending};
    ghost use Rattle.keep_volume.specs.Buckets.{Listed};
    ghost use Rattle.keep_event.specs.declared.names.Metadata.{Metadata as TheMetadata};

    ghost Value = { Listed TheMetadata };

    ghost view = { λ l. record { entries = l.items.items; room = vec_capacity l.items - vec_len l.items } };

    ghost invariant = { λ l. IsAscending l.items.items };
}

impl NameList {
    /// No names. It takes no memory.
    pub(crate) fn new(alloc: Global) -> NameList
        ensures { result.entries ≡ [] }
    {
        NameList {
            items: Vec::new(alloc),
        }
    }

    /// Whether it has no names.
    pub(crate) fn is_empty(&self) -> bool
        ensures { IsTrue result ↔ (self.now.entries ≡ []) }
    {
        self.items.is_empty()
    }

    /// The time and the size of the name. None: it isn't there.
    pub(crate) fn get(&self, name: &Name) -> Option<Metadata>
        ensures { result ≡ find name.now self.now.entries }
    {
        match place_of(&self.items, name) {
            Ok(i) => Some(self.items[i].1),
            Err(_) => None,
        }
    }

    /// The entries above a name, or all, ascending.
    pub(crate) fn above(&self, after: Option<&Name>) -> Iter<'_, (Name, Metadata)>
        ensures rest { iter_rest result ≡ above (named after.entry) self.now.entries }
        ensures ascending { IsAscending self.now.entries }
    {
        let start = match after {
            None => 0,
            Some(name) => match place_of(&self.items, name) {
                Ok(i) => i + 1,
                Err(i) => i,
            },
        };
        self.items[start..].iter()
    }

    /// The entries of one digest: its replica first, then its trashed copies by deadline.
    pub(crate) fn of_digest(&self, digest: &Digest) -> Iter<'_, (Name, Metadata)>
        ensures { iter_rest result ≡ filter (λ e. bytes_eq e.0.digest digest.now) self.now.entries }
    {
        let start = self
            .items
            .partition_point(|item| item.0.digest.cmp(digest).is_lt());
        let rest = &self.items[start..];
        let end = rest.partition_point(|item| item.0.digest.cmp(digest).is_le());
        rest[..end].iter()
    }

    /// The entries whose digits begin with the prefix, as far as it has lower-case digits.
    pub(crate) fn within(&self, prefix: &[u8]) -> Iter<'_, (Name, Metadata)>
        ensures { iter_rest result ≡ filter (λ e. is_within prefix.now e.0.digest) self.now.entries }
    {
        let start = self
            .items
            .partition_point(|item| digits_order(&item.0.digest, prefix).is_lt());
        let rest = &self.items[start..];
        let end = rest.partition_point(|item| digits_order(&item.0.digest, prefix).is_le());
        rest[..end].iter()
    }

    /// Makes room for one more name. After NoMemory the names are as they were.
    pub(crate) fn reserve_one(&mut self) -> Result<(), NoMemory>
        ensures unchanged { self.new.entries ≡ self.old.entries }
        ensures ok { OnOk result (0 < self.new.room) }
    {
        if self.items.reserve(1).is_err() {
            return Err(NoMemory);
        }
        Ok(())
    }

    /// Stores a time and a size under the name, replacing what it has. There must be room for one more name.
    pub(crate) fn put_in_room(&mut self, name: &Name, value: Metadata)
        requires { 0 < self.old.room }
        ensures { self.new.entries ≡ put name.now value self.old.entries }
    {
        match place_of(&self.items, name) {
            Ok(i) => self.items[i] = (*name, value),
            Err(i) => match self.items.insert(i, (*name, value)) {
                Ok(()) => {}
                Err(_) => unreachable!(),
            },
        }
    }

    /// Removes the name and returns what it had; the room that it took is free for another.
    pub(crate) fn remove(&mut self, name: &Name) -> Option<Metadata>
        ensures value { result ≡ find name.now self.old.entries }
        ensures after { self.new.entries ≡ without name.now self.old.entries }
        ensures room { has name.now self.old.entries ≡ true → 0 < self.new.room }
    {
        match place_of(&self.items, name) {
            Ok(i) => {
                let (_, value) = self.items.remove(i);
                Some(value)
            }
            Err(_) => None,
        }
    }

    /// Sets the time of the name, in nanoseconds since 1970. False: the name isn't there.
    pub(crate) fn touch(&mut self, name: &Name, mtime: u64) -> bool
        ensures value { result ≡ has name.now self.old.entries }
        ensures after { self.new.entries ≡ change (with_mtime mtime) name.now self.old.entries (find name.now self.old.entries) }
    {
        match place_of(&self.items, name) {
            Ok(i) => {
                let size = self.items[i].1.size;
                self.items[i] = (*name, Metadata { mtime, size });
                true
            }
            Err(_) => false,
        }
    }
}

// Where the name stands (Ok), or would go (Err).
fn place_of(items: &[(Name, Metadata)], name: &Name) -> Result<usize, usize>
    requires { IsAscending items.now }
    ensures { IsPlace items.now (cut name.now items.now) result }
{
    items.binary_search_by(|item| item.0.cmp(name))
}
