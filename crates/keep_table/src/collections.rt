// The collections of a table: an ordered map by number.
ghost use Rattle.std.specs.Prelude.{◌≡◌, ◌==◌, ◌<◌, ◌++◌, ◌∷◌, [], not, map, filter, length, is_ok, if◌then◌else◌};
ghost use Rattle.std.specs.List.{find, AllByRecursion};
ghost use Rattle.keep_event.specs.Table as machine;
ghost use Rattle.keep_table.specs.Contents.{RisesAbove};
ghost use Rattle.keep_table.specs.Maps.{is_next_collection};

use keep_event::Collection;
use keep_spec::NoMemory;
use std::alloc::Global;
use std::collections::BTreeMap;
use std::marker::Model;
use std::ops::Bound;

/// The collections that a table holds. Contracts see them in the order of their numbers.
#[derive(Drop, Debug)]
pub(crate) struct Collections {
    // by number
    held: BTreeMap<u64, Collection>,
}

impl Model for Collections {
    ghost use Rattle.std.specs.Prelude.{List};
    ghost use Rattle.std.specs.Map.{values_of};
    ghost use Rattle.keep_event.specs.declared.table.Collection.{Collection};
    ghost use Rattle.keep_table.specs.Maps.{AreNumbered};

    ghost Value = { List Collection };

    ghost view = { λ t. values_of t.held.entries };

    ghost invariant = { λ t. AreNumbered t.held.entries };
}

impl Collections {
    /// No collections. Takes no memory.
    pub(crate) fn new(alloc: Global) -> Collections
        ensures { result ≡ [] }
    {
        Collections {
            held: BTreeMap::new(alloc),
        }
    }

    /// Returns the collection with this number.
    pub(crate) fn get(&self, number: u64) -> Option<Collection>
        ensures { result ≡ find (λ x. x.number == number) self.now }
    {
        self.held.get(&number).copied()
    }

    /// Adds a collection whose number is above all others. Where memory is refused, nothing changes.
    pub(crate) fn add(&mut self, collection: Collection) -> Result<(), NoMemory>
        requires positive { 0 < collection.number }
        requires newest { AllByRecursion (λ x. x.number < collection.number) self.old }
        ensures { self.new ≡ (if is_ok result then self.old ++ collection ∷ [] else self.old) }
    {
        let Ok(_) = self.held.insert(collection.number, collection) else {
            return Err(NoMemory);
        };
        Ok(())
    }

    /// Removes the collection with this number, where there is one.
    pub(crate) fn drop_one(&mut self, number: u64)
        ensures { self.new ≡ filter (λ x. not (x.number == number)) self.old }
    {
        self.held.remove(&number);
    }

    /// Sets both times of the collection with this number.
    pub(crate) fn set_times(&mut self, number: u64, trash_at: Option<u64>, delete_at: Option<u64>)
        ensures { self.new ≡ map (machine.with_times number trash_at delete_at) self.old }
    {
        if let Some(collection) = self.held.get_mut(&number) {
            collection.trash_at = trash_at;
            collection.delete_at = delete_at;
        }
    }

    /// Returns the first collection whose number is above `after`.
    pub(crate) fn next_above(&self, after: u64) -> Option<Collection>
        ensures { result ≡ find (is_next_collection after) self.now }
    {
        let mut later = self.held.range((Bound::Excluded(after), Bound::Unbounded));
        match later.next() {
            Some((_, collection)) => Some(*collection),
            None => None,
        }
    }

    /// Returns how many there are.
    pub(crate) fn len(&self) -> usize
        ensures len { result ≡ length self.now }
        ensures rising { RisesAbove 0 (map (λ x. x.number) self.now) }
    {
        self.held.len()
    }
}
