// How many records each collection has: an ordered map of counts.
ghost use Rattle.std.specs.Prelude.{◌≡◌, ◌≤◌, ◌<◌, ◌+◌, ◌==◌, ℕ, is_ok, if◌then◌else◌, cond};
ghost use Rattle.keep_table.specs.Maps.{size_in};

use keep_spec::NoMemory;
use std::alloc::Global;
use std::collections::BTreeMap;
use std::marker::Model;

/// The numbers of records. Contracts see the entries of their map.
#[derive(Drop, Debug)]
pub(crate) struct Sizes {
    // by the collection's number; no count is 0
    counts: BTreeMap<u64, u64>,
}

impl Model for Sizes {
    ghost use Rattle.std.specs.Prelude.{List, ℕ};

    ghost Value = { List (ℕ × ℕ) };

    ghost view = { λ s. s.counts.entries };
}

impl Sizes {
    /// No records. Takes no memory.
    pub(crate) fn new(alloc: Global) -> Sizes
        ensures { (n : ℕ) → size_in result n ≡ 0 }
    {
        Sizes {
            counts: BTreeMap::new(alloc),
        }
    }

    /// Returns how many records a collection has.
    pub(crate) fn get(&self, number: u64) -> u64
        ensures { result ≡ size_in self.now number }
    {
        self.counts.get(&number).copied().unwrap_or(0)
    }

    /// Counts one more record of a collection. Where memory is refused, nothing changes; a count that would pass 2^64 − 1 is refused as memory is.
    pub(crate) fn raise(&mut self, number: u64) -> Result<(), NoMemory>
        ensures { (n : ℕ) → size_in self.new n ≡ size_in self.old n + (if is_ok result then cond (number == n) 1 0 else 0) }
    {
        let Some(count) = self.get(number).checked_add(1) else {
            return Err(NoMemory);
        };
        let Ok(_) = self.counts.insert(number, count) else {
            return Err(NoMemory);
        };
        Ok(())
    }

    /// Counts one record of a collection less. Takes no memory.
    pub(crate) fn lower(&mut self, number: u64)
        requires { 0 < size_in self.old number }
        ensures { (n : ℕ) → size_in self.new n + cond (number == n) 1 0 ≡ size_in self.old n }
    {
        let Some(count) = self.counts.get_mut(&number) else {
            return;
        };
        *count -= 1;
        if *count == 0 {
            self.counts.remove(&number);
        }
    }
}
