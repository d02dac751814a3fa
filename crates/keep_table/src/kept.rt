// The versions that are kept for a time: an ordered set of their collections, the ends of their times and their revisions, so that those of a collection that are due stand together.
ghost use Rattle.std.specs.Prelude.{◌≡◌, ◌<◌, ◌&&◌, ◌||◌, ℕ, false, not, is_ok, IsTrue, IfSome, IfNone};
ghost use Rattle.std.specs.BTreeSet.{contains};
ghost use Rattle.keep_table.specs.Maps.{triple_cmp, is_kept_as};

use keep_event::Standing;
use keep_spec::NoMemory;
use std::alloc::Global;
use std::collections::BTreeSet;
use std::marker::Model;
use std::ops::Bound;

/// The versions that are kept for a time. Contracts see the set of their collections' numbers, the ends of their times and their revisions.
#[derive(Drop, Debug)]
pub(crate) struct Kept {
    times: BTreeSet<(u64, u64, u64)>,
}

impl Model for Kept {
    ghost use Rattle.std.specs.Prelude.{ℕ};
    ghost use Rattle.std.specs.BTreeSet.{BTreeSet};

    ghost Value = { BTreeSet (ℕ × ℕ × ℕ) };

    ghost view = { λ k. k.times };
}

impl Kept {
    /// No versions. Takes no memory.
    pub(crate) fn new(alloc: Global) -> Kept
        ensures { (n t v : ℕ) → contains triple_cmp result (n, t, v) ≡ false }
    {
        Kept {
            times: BTreeSet::new(alloc),
        }
    }

    /// Adds a record of a collection, where its standing says that it is kept for a time. Where memory is refused, nothing changes.
    pub(crate) fn add(
        &mut self,
        number: u64,
        revision: u64,
        standing: Standing,
    ) -> Result<(), NoMemory>
        ensures { (n t v : ℕ) → contains triple_cmp self.new (n, t, v) ≡ (contains triple_cmp self.old (n, t, v) || (is_ok result && is_kept_as number revision standing n t v)) }
    {
        let Standing::Kept { until } = standing else {
            return Ok(());
        };
        let Ok(_) = self.times.insert((number, until, revision)) else {
            return Err(NoMemory);
        };
        Ok(())
    }

    /// Removes a record of a collection, where its standing says that it is kept for a time. Takes no memory.
    pub(crate) fn remove(&mut self, number: u64, revision: u64, standing: Standing)
        ensures { (n t v : ℕ) → contains triple_cmp self.new (n, t, v) ≡ (contains triple_cmp self.old (n, t, v) && not (is_kept_as number revision standing n t v)) }
    {
        let Standing::Kept { until } = standing else {
            return;
        };
        self.times.remove(&(number, until, revision));
    }

    /// Returns the end of the time, and the revision, of the first version of a collection that is due at a reading.
    pub(crate) fn first_due(&self, number: u64, reading: u64) -> Option<(u64, u64)>
        ensures due { IfSome result (λ p. (p.0 < reading) × IsTrue (contains triple_cmp self.now (number, p.0, p.1))) }
        ensures none { IfNone result ((t v : ℕ) → t < reading → contains triple_cmp self.now (number, t, v) ≡ false) }
    {
        let mut due = self.times.range((
            Bound::Included((number, 0, 0)),
            Bound::Excluded((number, reading, 0)),
        ));
        match due.next() {
            Some(first) => {
                let (_, until, revision) = *first;
                Some((until, revision))
            }
            None => None,
        }
    }
}
