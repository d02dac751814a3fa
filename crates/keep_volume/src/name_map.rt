// Names in buckets, each with its time and its size.
ghost use Rattle.std.specs.Prelude.{◌≡◌, ◌<◌, ◌↔◌, [], true, IsTrue, OnOk, OnErr, IfOk, MatchOption, length, slice_index};
ghost use Rattle.std.specs.Slice.Iter.{iter_rest};
ghost use Rattle.std.specs.List.{filter};
ghost use Rattle.std.specs.Str.{bytes_eq};
ghost use Rattle.keep_event.specs.Store.{find, put, without, above, change, with_mtime, IsAscending};
ghost use Rattle.keep_store.specs.Names.{has, named};
ghost use Rattle.keep_volume.specs.Buckets.{first_byte, first_bucket, room_for, entries_above, entries_of, AreBuckets};

use crate::name_list::NameList;
use keep_event::{Metadata, Name};
use keep_spec::{Digest, NoMemory};
use std::alloc::Global;
use std::marker::Model;
use std::slice::Iter;

/// Names in their order, each once and with its time and size, in a bucket for each first byte of a digest. It is seen as the list of all, with the number of names for which each bucket has room.
/// A name that comes or goes moves those after it in its bucket alone, so where digests are spread evenly, as those of MD5 are, it moves a 512th of all names.
#[derive(Drop)]
pub(crate) struct NameMap {
    buckets: Vec<NameList>,
    alloc: Global,
}

impl Model for NameMap {
    ghost use Rattle.std.specs.Prelude.{map};
    ghost use Rattle.keep_volume.specs.Buckets.{Bucketed, entries_of, AreBuckets};
    ghost use Rattle.keep_event.specs.declared.names.Metadata.{Metadata as TheMetadata};

    ghost Value = { Bucketed TheMetadata };

    ghost view = { λ m. record { entries = entries_of m.buckets.items; rooms = map (λ b. b.room) m.buckets.items } };

    ghost invariant = { λ m. AreBuckets m.buckets.items };
}

impl NameMap {
    /// No names. It takes no memory.
    pub(crate) fn new(alloc: Global) -> NameMap
        ensures { result.entries ≡ [] }
    {
        NameMap {
            buckets: Vec::new(alloc),
            alloc,
        }
    }

    /// Whether it has no names.
    pub(crate) fn is_empty(&self) -> bool
        ensures { IsTrue result ↔ (self.now.entries ≡ []) }
    {
        for bucket in &self.buckets {
            if !bucket.is_empty() {
                return false;
            }
        }
        true
    }

    /// The time and the size of the name. None: it isn't there.
    pub(crate) fn get(&self, name: &Name) -> Option<Metadata>
        ensures { result ≡ find name.now self.now.entries }
    {
        match self.buckets.get(bucket_of(name)) {
            Some(bucket) => bucket.get(name),
            None => None,
        }
    }

    /// The buckets in which entries above a name may stand, or all, ascending: each gives its own by `above`.
    pub(crate) fn above(&self, after: Option<&Name>) -> &[NameList]
        ensures rest { entries_above (named after.entry) result.now ≡ above (named after.entry) self.now.entries }
        ensures ascending { IsAscending self.now.entries }
    {
        let start = start_of(after).min(self.buckets.len());
        &self.buckets[start..]
    }

    /// The entries of one digest: its replica first, then its trashed copies by deadline. None: there are none.
    pub(crate) fn of_digest(&self, digest: &Digest) -> Option<Iter<'_, (Name, Metadata)>>
        ensures { MatchOption result (filter (λ e. bytes_eq e.0.digest digest.now) self.now.entries ≡ []) (λ i. iter_rest i ≡ filter (λ e. bytes_eq e.0.digest digest.now) self.now.entries) }
    {
        match self.buckets.get(byte_of(digest)) {
            Some(bucket) => Some(bucket.of_digest(digest)),
            None => None,
        }
    }

    // Makes one bucket for each byte, unless they are there.
    fn make_buckets(&mut self) -> Result<(), NoMemory>
        ensures unchanged { self.new.entries ≡ self.old.entries }
        ensures ok { OnOk result (length self.new.rooms ≡ 256) }
    {
        if self.buckets.is_empty() {
            self.buckets = empty_buckets(self.alloc)?;
        }
        Ok(())
    }

    /// Makes room for the name. After NoMemory the names are as they were.
    pub(crate) fn reserve_for(&mut self, name: &Name) -> Result<(), NoMemory>
        ensures unchanged { self.new.entries ≡ self.old.entries }
        ensures ok { OnOk result (0 < room_for name.now self.new.rooms) }
    {
        self.make_buckets()?;
        let bucket = &mut self.buckets[bucket_of(name)];
        bucket.reserve_one()
    }

    /// Stores a time and a size under the name, replacing what it has. There must be room for it.
    pub(crate) fn put_in_room(&mut self, name: &Name, value: Metadata)
        requires { 0 < room_for name.now self.old.rooms }
        ensures { self.new.entries ≡ put name.now value self.old.entries }
    {
        let bucket = &mut self.buckets[bucket_of(name)];
        bucket.put_in_room(name, value);
    }

    /// The same, with memory for it. After NoMemory the names are as they were.
    pub(crate) fn put(&mut self, name: &Name, value: Metadata) -> Result<(), NoMemory>
        ensures ok { OnOk result (self.new.entries ≡ put name.now value self.old.entries) }
        ensures err { OnErr result (self.new.entries ≡ self.old.entries) }
    {
        self.reserve_for(name)?;
        self.put_in_room(name, value);
        Ok(())
    }

    /// Removes the name and returns what it had; the room that it took is free for another name of its bucket.
    pub(crate) fn remove(&mut self, name: &Name) -> Option<Metadata>
        ensures value { result ≡ find name.now self.old.entries }
        ensures after { self.new.entries ≡ without name.now self.old.entries }
        ensures room { has name.now self.old.entries ≡ true → 0 < room_for name.now self.new.rooms }
    {
        let place = bucket_of(name);
        if place >= self.buckets.len() {
            return None;
        }
        let bucket = &mut self.buckets[place];
        bucket.remove(name)
    }

    /// Sets the time of the name, in nanoseconds since 1970. False: the name isn't there.
    pub(crate) fn touch(&mut self, name: &Name, mtime: u64) -> bool
        ensures value { result ≡ has name.now self.old.entries }
        ensures after { self.new.entries ≡ change (with_mtime mtime) name.now self.old.entries (find name.now self.old.entries) }
    {
        let place = bucket_of(name);
        if place >= self.buckets.len() {
            return false;
        }
        let bucket = &mut self.buckets[place];
        bucket.touch(name, mtime)
    }
}

// The place of a name's bucket.
fn bucket_of(name: &Name) -> usize
    ensures value { result ≡ first_byte name.now }
    ensures small { result < 256 }
{
    byte_of(&name.digest)
}

// The first byte of a digest.
fn byte_of(digest: &Digest) -> usize
    ensures value { result ≡ slice_index digest.now 0 }
    ensures small { result < 256 }
{
    digest.to_md5()[0] as usize
}

// The first bucket in which names may lie above this one.
fn start_of(after: Option<&Name>) -> usize
    ensures value { result ≡ first_bucket (named after.entry) }
    ensures small { result < 256 }
{
    match after {
        Some(name) => bucket_of(name),
        None => 0,
    }
}

// A bucket without names for each byte.
fn empty_buckets(alloc: Global) -> Result<Vec<NameList>, NoMemory>
    ensures buckets { IfOk result (λ v. AreBuckets v.items) }
    ensures number { IfOk result (λ v. length v.items ≡ 256) }
    ensures none { IfOk result (λ v. entries_of v.items ≡ []) }
{
    let mut buckets = Vec::new(alloc);
    for _ in 0usize..256 {
        if buckets.push(NameList::new(alloc)).is_err() {
            return Err(NoMemory);
        }
    }
    Ok(buckets)
}
