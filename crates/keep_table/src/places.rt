// The places of records: an ordered set of their collections' numbers, their versions and their revisions, so that a version is found by its number, and the newest of a collection stands last of it.
ghost use Rattle.std.specs.Prelude.{◌≡◌, ◌<◌, ◌≤◌, ◌^◌, ◌&&◌, ◌||◌, ℕ, false, not, is_ok, IsTrue, IfSome, IfNone};
ghost use Rattle.std.specs.BTreeSet.{contains};
ghost use Rattle.keep_table.specs.Maps.{triple_cmp, is_place};

use keep_spec::NoMemory;
use std::alloc::Global;
use std::collections::BTreeSet;
use std::marker::Model;
use std::ops::Bound;

/// The places of records. Contracts see the set of their collections' numbers, their versions and their revisions.
#[derive(Drop, Debug)]
pub(crate) struct Places {
    held: BTreeSet<(u64, u64, u64)>,
}

impl Model for Places {
    ghost use Rattle.std.specs.Prelude.{ℕ};
    ghost use Rattle.std.specs.BTreeSet.{BTreeSet};

    ghost Value = { BTreeSet (ℕ × ℕ × ℕ) };

    ghost view = { λ p. p.held };
}

impl Places {
    /// No places. Takes no memory.
    pub(crate) fn new(alloc: Global) -> Places
        ensures { (n u v : ℕ) → contains triple_cmp result (n, u, v) ≡ false }
    {
        Places {
            held: BTreeSet::new(alloc),
        }
    }

    /// Adds a record's place. Where memory is refused, nothing changes.
    pub(crate) fn add(&mut self, number: u64, version: u64, revision: u64) -> Result<(), NoMemory>
        ensures added { (n u v : ℕ) → contains triple_cmp self.new (n, u, v) ≡ (contains triple_cmp self.old (n, u, v) || (is_ok result && is_place number version revision n u v)) }
        ensures bounds { (version < 2 ^ 64) × (revision < 2 ^ 64) }
    {
        let Ok(_) = self.held.insert((number, version, revision)) else {
            return Err(NoMemory);
        };
        Ok(())
    }

    /// Removes a record's place. Takes no memory.
    pub(crate) fn remove(&mut self, number: u64, version: u64, revision: u64)
        ensures { (n u v : ℕ) → contains triple_cmp self.new (n, u, v) ≡ (contains triple_cmp self.old (n, u, v) && not (is_place number version revision n u v)) }
    {
        self.held.remove(&(number, version, revision));
    }

    /// Returns the revision of a version of a collection.
    pub(crate) fn at(&self, number: u64, version: u64) -> Option<u64>
        ensures at { IfSome result (λ v. IsTrue (contains triple_cmp self.now (number, version, v))) }
        ensures none { IfNone result ((v : ℕ) → v < 2 ^ 64 → contains triple_cmp self.now (number, version, v) ≡ false) }
    {
        let mut places = self.held.range((
            Bound::Included((number, version, 0)),
            Bound::Included((number, version, u64::MAX)),
        ));
        match places.next() {
            Some(place) => {
                let (_, _, revision) = *place;
                Some(revision)
            }
            None => None,
        }
    }

    /// Returns the newest version of a collection, and its revision.
    pub(crate) fn newest(&self, number: u64) -> Option<(u64, u64)>
        ensures at { IfSome result (λ p. IsTrue (contains triple_cmp self.now (number, p.0, p.1))) }
        ensures newest { IfSome result (λ p. (u v : ℕ) → u < 2 ^ 64 → v < 2 ^ 64 → IsTrue (contains triple_cmp self.now (number, u, v)) → u ≤ p.0) }
        ensures none { IfNone result ((u v : ℕ) → u < 2 ^ 64 → v < 2 ^ 64 → contains triple_cmp self.now (number, u, v) ≡ false) }
    {
        let mut places = self.held.range((
            Bound::Included((number, 0, 0)),
            Bound::Included((number, u64::MAX, u64::MAX)),
        ));
        match places.next_back() {
            Some(place) => {
                let (_, version, revision) = *place;
                Some((version, revision))
            }
            None => None,
        }
    }
}
