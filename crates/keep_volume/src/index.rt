// What a device remembers of its store: the names with their times and sizes, and the bytes of all.
ghost use Rattle.std.specs.Prelude.{◌≡◌, ◌≤◌, ◌<◌, ◌^◌, ◌+◌, ◌-◌, ◌++◌, ◌↔◌, IsTrue, IfOk, IfSome, OnOk, [], map, option_map, true};
ghost use Rattle.std.specs.List.{find as list_find, last_or, filter};
ghost use Rattle.hex.specs.Hex.{encode_lower};
ghost use Rattle.keep_event.specs.Device as machine;
ghost use Rattle.keep_event.specs.Store.{find, put, without, above, change, move as moved, with_mtime, AreAscending};
ghost use Rattle.keep_volume.specs.Index.{size_at, total, due, sized_entry, sized_held, ArePassed, earlier_of};
ghost use Rattle.keep_volume.specs.Looks.{look};
ghost use Rattle.keep_volume.specs.Buckets.{room_for};
ghost use Rattle.keep_store.specs.Names.{has, named};

use crate::name_list::NameList;
use crate::name_map::NameMap;
use hex::encode_to_slice;
use keep_event::{Entry, Held, Metadata, Name};
use keep_spec::{Digest, NoMemory};
use std::alloc::Global;
use std::marker::Model;

/// How far the search for due copies has come: no copy up to a name has a deadline below `earliest`.
#[derive(Clone, Copy)]
pub(crate) struct Passed {
    pub(crate) up_to: Option<Name>,
    pub(crate) earliest: u64,
}

/// What a search for a due copy finds, and how far it came.
#[derive(Clone, Copy)]
struct Looked {
    found: Option<Name>,
    passed: Passed,
}

/// The names of a store with their times and sizes, and the bytes of all. It is seen as the names; the sum and the place of the search are in its invariant.
#[derive(Drop)]
pub(crate) struct Index {
    names: NameMap,
    used: u128,
    passed: Passed,
}

impl Model for Index {
    ghost use Rattle.std.specs.Prelude.{◌≡◌, ◌<◌, ◌^◌};
    ghost use Rattle.keep_volume.specs.Buckets.{Bucketed};
    ghost use Rattle.keep_event.specs.declared.names.Metadata.{Metadata as TheMetadata};
    ghost use Rattle.keep_volume.specs.Index.{total, ArePassed};

    ghost Value = { Bucketed TheMetadata };

    ghost view = { λ i. i.names };

    ghost invariant = { λ i. record { sum : i.used ≡ total i.names.entries; small : i.used < 2 ^ 127; passed : ArePassed i.passed.up_to i.passed.earliest i.names.entries } };
}

impl Index {
    /// The index of these names. They ascend.
    pub(crate) fn of_names(alloc: Global, names: &[Held]) -> Result<Index, NoMemory>
        requires { AreAscending (map (λ h. h.name) names.now) }
        ensures { IfOk result (λ i. i.entries ≡ map sized_held names.now) }
    {
        let (names, used) = sized_names(alloc, names)?;
        Ok(Index {
            names,
            used,
            passed: Passed {
                up_to: None,
                earliest: u64::MAX,
            },
        })
    }

    /// Whether there are no names.
    pub(crate) fn is_empty(&self) -> bool
        ensures { IsTrue result ↔ (self.now.entries ≡ []) }
    {
        self.names.is_empty()
    }

    /// The bytes of all names together.
    pub(crate) fn used(&self) -> u128
        ensures value { result ≡ total self.now.entries }
        ensures small { result < 2 ^ 127 }
    {
        self.used
    }

    /// The time and the size of a name.
    pub(crate) fn get(&self, name: &Name) -> Option<Metadata>
        ensures { result ≡ find name.now self.now.entries }
    {
        self.names.get(name)
    }

    /// The bytes of a name; 0 where it isn't there.
    pub(crate) fn size_at(&self, name: &Name) -> u64
        ensures value { result ≡ size_at name.now self.now.entries }
        ensures part { result ≤ total self.now.entries }
    {
        match self.get(name) {
            Some(sized) => sized.size,
            None => 0,
        }
    }

    /// Sets the time of a name, if it is there.
    pub(crate) fn touch(&mut self, name: &Name, mtime: u64)
        ensures { self.new.entries ≡ change (with_mtime mtime) name.now self.old.entries (find name.now self.old.entries) }
    {
        let _ = self.names.touch(name, mtime);
        self.passed.earliest = earlier(self.passed.earliest, name);
    }

    /// Removes a name, if it is there.
    pub(crate) fn remove(&mut self, name: &Name)
        ensures after { self.new.entries ≡ without name.now self.old.entries }
        ensures room { has name.now self.old.entries ≡ true → 0 < room_for name.now self.new.rooms }
        ensures fits { total self.new.entries + size_at name.now self.old.entries < 2 ^ 127 }
    {
        let freed = self.size_at(name);
        let _ = self.names.remove(name);
        self.used -= freed as u128;
    }

    /// Moves a name to another of the same digest, replacing any existing entry, and sets its time. It takes no memory.
    pub(crate) fn rename(&mut self, from: &Name, to: &Name, mtime: u64)
        requires { from.now.digest ≡ to.now.digest }
        ensures { self.new.entries ≡ moved (with_mtime mtime) from.now to.now self.old.entries (find from.now self.old.entries) }
    {
        let Some(sized) = self.get(from) else {
            return;
        };
        self.remove(from);
        let size = sized.size;
        self.put_in_room(to, Metadata { mtime, size });
    }

    /// Makes room for a name. After NoMemory the names are as they were.
    pub(crate) fn reserve_for(&mut self, name: &Name) -> Result<(), NoMemory>
        ensures unchanged { self.new.entries ≡ self.old.entries }
        ensures ok { OnOk result (0 < room_for name.now self.new.rooms) }
    {
        self.names.reserve_for(name)
    }

    /// Stores a time and a size under a name, replacing any existing entry. There must be room for it.
    pub(crate) fn put_in_room(&mut self, name: &Name, sized: Metadata)
        requires room { 0 < room_for name.now self.old.rooms }
        requires fits { total self.old.entries - size_at name.now self.old.entries + sized.size < 2 ^ 127 }
        ensures { self.new.entries ≡ put name.now sized self.old.entries }
    {
        let freed = self.size_at(name);
        self.names.put_in_room(name, sized);
        self.used = self.used - freed as u128 + sized.size as u128;
        self.passed.earliest = earlier(self.passed.earliest, name);
    }

    /// The first trashed copy whose deadline is below the reading. It goes on from where the last search stopped.
    pub(crate) fn first_due(&mut self, reading: u64) -> Option<Name>
        ensures value { result ≡ option_map (λ e. e.0) (list_find (due reading) self.old.entries) }
        ensures unchanged { self.new.entries ≡ self.old.entries }
    {
        if reading > self.passed.earliest {
            self.passed = Passed {
                up_to: None,
                earliest: u64::MAX,
            };
        }
        let looked = look_through(&self.names, self.passed, reading);
        self.passed = looked.passed;
        looked.found
    }

    /// The trashed copy of a digest with the greatest deadline.
    pub(crate) fn last_copy(&self, digest: &Digest) -> Option<(Name, Metadata)>
        ensures value { result ≡ last_or None (filter (λ e. machine.is_copy_of digest.now e.0) self.now.entries) }
        ensures digest { IfSome result (λ e. e.0.digest ≡ digest.now) }
    {
        let Some(entries) = self.names.of_digest(digest) else {
            return None;
        };
        let mut last = None;
        for entry in entries {
            if entry.0.deadline.is_some() {
                last = Some(*entry);
            }
        }
        last
    }

    /// The replicas whose digits begin with the prefix, ascending.
    pub(crate) fn page(&self, alloc: Global, prefix: &[u8]) -> Result<Vec<Entry>, NoMemory>
        ensures { IfOk result (λ v. v.items ≡ map sized_entry (filter (λ e. machine.is_paged prefix.now e.0) self.now.entries)) }
    {
        let mut entries = Vec::new(alloc);
        for bucket in self.names.above(None) {
            page_more(&mut entries, bucket, prefix)?;
        }
        Ok(entries)
    }
}

// Appends the replicas of one bucket whose digits begin with the prefix.
fn page_more(entries: &mut Vec<Entry>, names: &NameList, prefix: &[u8]) -> Result<(), NoMemory>
    ensures { OnOk result (entries.new.items ≡ entries.old.items ++ map sized_entry (filter (λ e. machine.is_paged prefix.now e.0) names.now.entries)) }
{
    for item in names.within(prefix) {
        if is_paged(&item.0, prefix) {
            let entry = Entry {
                digest: item.0.digest,
                size: item.1.size,
                mtime: item.1.mtime,
            };
            if entries.push(entry).is_err() {
                return Err(NoMemory);
            }
        }
    }
    Ok(())
}

// Searches for the first due copy from where an earlier search stopped.
fn look_through(names: &NameMap, passed: Passed, reading: u64) -> Looked
    requires waiting { reading ≤ passed.earliest }
    requires passed { ArePassed passed.up_to passed.earliest names.now.entries }
    ensures found { result.found ≡ option_map (λ e. e.0) (list_find (due reading) names.now.entries) }
    ensures passed { ArePassed result.passed.up_to result.passed.earliest names.now.entries }
{
    let after = passed.up_to;
    let mut came = passed;
    for bucket in names.above(after.as_ref()) {
        let looked = look_in(bucket, after.as_ref(), came, reading);
        if looked.found.is_some() {
            return looked;
        }
        came = looked.passed;
    }
    Looked {
        found: None,
        passed: came,
    }
}

// The same in one bucket, among the names above one.
fn look_in(names: &NameList, after: Option<&Name>, passed: Passed, reading: u64) -> Looked
    ensures { result ≡ look reading passed (above (named after.entry) names.now.entries) }
{
    let mut came = passed;
    for entry in names.above(after) {
        let name = entry.0;
        if is_due(name.deadline, reading) {
            let found = Some(name);
            return Looked {
                found,
                passed: came,
            };
        }
        came = Passed {
            up_to: Some(name),
            earliest: earlier(came.earliest, &name),
        };
    }
    Looked {
        found: None,
        passed: came,
    }
}

// The earlier of a deadline and that of a name.
fn earlier(earliest: u64, name: &Name) -> u64
    ensures { result ≡ earlier_of earliest name.now.deadline }
{
    match name.deadline {
        Some(deadline) => earliest.min(deadline),
        None => earliest,
    }
}

// The names with their times and sizes, and the bytes of all together.
fn sized_names(alloc: Global, names: &[Held]) -> Result<(NameMap, u128), NoMemory>
    requires { AreAscending (map (λ h. h.name) names.now) }
    ensures entries { IfOk result (λ r. r.0.entries ≡ map sized_held names.now) }
    ensures used { IfOk result (λ r. r.1 ≡ total r.0.entries) }
    ensures small { IfOk result (λ r. r.1 < 2 ^ 127) }
{
    let mut index = NameMap::new(alloc);
    let mut used = 0u128;
    for held in names {
        let sized = Metadata {
            mtime: held.mtime,
            size: held.size,
        };
        index.put(&held.name, sized)?;
        used += held.size as u128;
    }
    Ok((index, used))
}

// Whether a name's deadline is below the reading.
fn is_due(deadline: Option<u64>, reading: u64) -> bool
    ensures { result ≡ machine.is_due_at reading deadline }
{
    match deadline {
        Some(deadline) => deadline < reading,
        None => false,
    }
}

// Whether the name is a replica's, with digits that begin with the prefix.
fn is_paged(name: &Name, prefix: &[u8]) -> bool
    ensures { result ≡ machine.is_paged prefix.now name.now }
{
    if name.deadline.is_some() {
        return false;
    }
    begins(&name.digest, prefix)
}

// Whether the digits begin with the prefix.
fn begins(digest: &Digest, prefix: &[u8]) -> bool
    ensures { result ≡ machine.begins prefix.now digest.now }
{
    let digits = digits_of(digest);
    let wanted = prefix.len().min(digits.len());
    &digits[..wanted] == prefix
}

// The 32 hexadecimal digits.
fn digits_of(digest: &Digest) -> [u8; 32]
    ensures { result ≡ encode_lower digest.now }
{
    let mut digits = [0; 32];
    let _ = encode_to_slice(digest.to_md5().as_slice(), &mut digits);
    digits
}
