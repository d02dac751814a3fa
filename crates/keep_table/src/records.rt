// The records of a table: an ordered map by revision, and beside it the versions of each collection with their revisions, how many they are, those that are kept for a time, and what is wanted of each digest.
ghost use Rattle.std.specs.Prelude.{◌≡◌, ◌==◌, ◌<◌, ◌^◌, ◌++◌, ◌∷◌, [], true, not, map, filter, length, count_by, option_map, is_ok, is_some, IfSome, IsTrue, if◌then◌else◌};
ghost use Rattle.std.specs.List.{find, list_any, AllByRecursion};
ghost use Rattle.keep_event.specs.Table.{is_of, is_current, is_current_of, is_due_of, row_of};
ghost use Rattle.keep_event.specs.Plan.{wanted_in};
ghost use Rattle.keep_table.specs.Contents.{RisesAbove, AreSuperseded, is_version_of};
ghost use Rattle.keep_table.specs.Maps.{is_next, is_at_version, any_record, marked, revisions_of, is_due_at, AreBefore, AreCurrentAt, AreVersioned};

use crate::kept::Kept;
use crate::places::Places;
use crate::sizes::Sizes;
use crate::wants::Wants;
use keep_event::{Record, Standing};
use keep_spec::{Digest, NoMemory};
use std::alloc::Global;
use std::collections::BTreeMap;
use std::marker::Model;
use std::ops::Bound;

/// The records that a table holds. Contracts see them in the order of their revisions.
#[derive(Drop, Debug)]
pub(crate) struct Records {
    // by revision
    rows: BTreeMap<u64, Record>,
    // the number of each record's collection, with its version and its revision
    places: Places,
    // how many records each collection has: its versions and its current one
    sizes: Sizes,
    // the versions that are kept for a time
    kept: Kept,
    // what the records want of the digests that they name
    wants: Wants,
}

impl Model for Records {
    ghost use Rattle.std.specs.Prelude.{List};
    ghost use Rattle.std.specs.Map.{values_of};
    ghost use Rattle.keep_event.specs.declared.table.Record.{Record};
    ghost use Rattle.keep_table.specs.Maps.{AreIndexed};

    ghost Value = { List Record };

    ghost view = { λ t. values_of t.rows.entries };

    ghost invariant = { λ t. AreIndexed t.rows.entries t.places t.sizes t.kept t.wants };
}

impl Records {
    /// No records. Takes no memory.
    pub(crate) fn new(alloc: Global) -> Records
        ensures { result ≡ [] }
    {
        Records {
            rows: BTreeMap::new(alloc),
            places: Places::new(alloc),
            sizes: Sizes::new(alloc),
            kept: Kept::new(alloc),
            wants: Wants::new(alloc),
        }
    }

    /// Returns the first record whose revision is above `after`.
    pub(crate) fn next_above(&self, after: u64) -> Option<&Record>
        ensures next { option_map (λ r. r.now) result ≡ find (is_next any_record after) self.now }
        ensures rising { RisesAbove 0 (revisions_of self.now) }
        ensures few { length self.now < 2 ^ 63 }
    {
        // no map has more entries
        let _ = self.rows.len();
        let mut later = self.rows.range((Bound::Excluded(after), Bound::Unbounded));
        match later.next() {
            Some((_, row)) => Some(row),
            None => None,
        }
    }

    /// Returns the record of a version of a collection, whatever its standing.
    pub(crate) fn version_at(&self, number: u64, version: u64) -> Option<&Record>
        ensures found { option_map (λ r. r.now) result ≡ find (is_at_version number version) self.now }
        ensures versioned { AreVersioned self.now }
    {
        match self.places.at(number, version) {
            Some(revision) => self.rows.get(&revision),
            None => None,
        }
    }

    /// Returns the current record of a collection, which is its newest.
    pub(crate) fn current_of(&self, number: u64) -> Option<&Record>
        requires { AreSuperseded self.now }
        ensures found { option_map (λ r. r.now) result ≡ find (is_current_of number) self.now }
        ensures versioned { AreVersioned self.now }
    {
        match self.places.newest(number) {
            Some((_, revision)) => self.rows.get(&revision),
            None => None,
        }
    }

    /// Returns how many versions a collection has besides its current record.
    pub(crate) fn versions_of(&self, number: u64) -> u64
        requires { AreSuperseded self.now }
        ensures { result ≡ count_by (is_version_of number) self.now }
    {
        self.sizes.get(number).saturating_sub(1)
    }

    /// Returns the revision of a version of a collection that is due at a reading.
    pub(crate) fn first_due(&self, number: u64, reading: u64) -> Option<u64>
        ensures due { IfSome result (λ v. IsTrue (list_any (is_due_at reading number v) self.now)) }
        ensures some { is_some result ≡ list_any (is_due_of reading number) self.now }
        ensures rising { RisesAbove 0 (revisions_of self.now) }
    {
        match self.kept.first_due(number, reading) {
            Some((_, revision)) => Some(revision),
            None => None,
        }
    }

    /// Returns the greatest number of copies that the records want of a digest, or 0 where none names it. Takes no memory.
    pub(crate) fn wanted(&self, digest: &Digest) -> u8
        ensures { result ≡ wanted_in digest.now (map row_of self.now) }
    {
        self.wants.greatest(digest)
    }

    /// Adds a current record whose revision is above all others, and whose version above those of its collection. Where memory is refused, nothing changes.
    pub(crate) fn add(&mut self, row: Record) -> Result<(), NoMemory>
        requires positive { 0 < row.revision }
        requires newest { AllByRecursion (λ r. r.revision < row.revision) self.old }
        requires later { AreBefore row.collection row.version self.old }
        requires current { is_current row.standing ≡ true }
        ensures { self.new ≡ (if is_ok result then self.old ++ row ∷ [] else self.old) }
    {
        let number = row.collection;
        let version = row.version;
        let revision = row.revision;
        if self.places.add(number, version, revision).is_err() {
            return Err(NoMemory);
        }
        if self.sizes.raise(number).is_err() {
            self.places.remove(number, version, revision);
            return Err(NoMemory);
        }
        if self
            .wants
            .add(row.made.named.as_slice(), row.made.want)
            .is_err()
        {
            self.sizes.lower(number);
            self.places.remove(number, version, revision);
            return Err(NoMemory);
        }
        let Err(refused) = self.rows.insert(revision, row) else {
            return Ok(());
        };
        let (_, back) = refused.value;
        self.wants.take(back.made.named.as_slice(), back.made.want);
        self.sizes.lower(number);
        self.places.remove(number, version, revision);
        Err(NoMemory)
    }

    /// Removes the record with this revision, where there is one.
    pub(crate) fn drop_one(&mut self, revision: u64)
        ensures { self.new ≡ filter (λ r. not (r.revision == revision)) self.old }
    {
        let Some(row) = self.rows.remove(&revision) else {
            return;
        };
        let number = row.collection;
        self.places.remove(number, row.version, revision);
        self.sizes.lower(number);
        self.kept.remove(number, revision, row.standing);
        self.wants.take(row.made.named.as_slice(), row.made.want);
    }

    /// Gives the current record with this revision, where there is one, another standing. Where memory is refused, nothing changes.
    pub(crate) fn mark(&mut self, revision: u64, standing: Standing) -> Result<(), NoMemory>
        requires { AreCurrentAt revision self.old }
        ensures { self.new ≡ (if is_ok result then map (marked revision standing) self.old else self.old) }
    {
        let Some(row) = self.rows.get_mut(&revision) else {
            return Ok(());
        };
        if self.kept.add(row.collection, revision, standing).is_err() {
            return Err(NoMemory);
        }
        row.standing = standing;
        Ok(())
    }
}
