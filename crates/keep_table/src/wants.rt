// How often each digest is named with each number of copies that is wanted: an ordered map of counts.
ghost use Rattle.std.specs.Prelude.{◌≡◌, ◌≤◌, ◌<◌, ◌+◌, ℕ, List, length, count_by, is_ok, if◌then◌else◌, cond};
ghost use Rattle.keep_table.specs.Wants.{counted, is_mention, mentions};

use keep_spec::{Digest, NoMemory};
use std::alloc::Global;
use std::collections::BTreeMap;
use std::marker::Model;
use std::ops::Bound;

/// The counts of what is wanted. Contracts see the entries of their map: the 16 bytes of a digest and a number of copies, with how often the two are named.
#[derive(Drop, Debug)]
pub(crate) struct Wants {
    // no count is 0
    counts: BTreeMap<([u8; 16], u8), u64>,
}

impl Model for Wants {
    ghost use Rattle.std.specs.Prelude.{List, ℕ};
    ghost use Rattle.keep_table.specs.Wants.{AreCounts};

    ghost Value = { List ((List ℕ × ℕ) × ℕ) };

    ghost view = { λ w. w.counts.entries };

    ghost invariant = { λ w. AreCounts w.counts.entries };
}

impl Wants {
    /// Counts of nothing. Takes no memory.
    pub(crate) fn new(alloc: Global) -> Wants
        ensures { (h : List ℕ) (n : ℕ) → counted result h n ≡ 0 }
    {
        Wants {
            counts: BTreeMap::new(alloc),
        }
    }

    /// Counts each of the digests once more with the number of copies. Where memory is refused, nothing changes.
    pub(crate) fn add(&mut self, named: &[Digest], want: u8) -> Result<(), NoMemory>
        ensures { (h : List ℕ) (n : ℕ) → counted self.new h n ≡ counted self.old h n + (if is_ok result then mentions h n want named.now else 0) }
    {
        for (index, digest) in named.iter().enumerate() {
            if self.raise(digest, want).is_err() {
                self.take(&named[..index], want);
                return Err(NoMemory);
            }
        }
        Ok(())
    }

    /// Counts each of the digests once less with the number of copies. Takes no memory.
    pub(crate) fn take(&mut self, named: &[Digest], want: u8)
        requires { (h : List ℕ) (n : ℕ) → mentions h n want named.now ≤ counted self.old h n }
        ensures { (h : List ℕ) (n : ℕ) → counted self.new h n + mentions h n want named.now ≡ counted self.old h n }
    {
        for digest in named {
            self.lower(digest, want);
        }
    }

    // A count that would pass 2^64 − 1 is refused as memory is.
    fn raise(&mut self, digest: &Digest, want: u8) -> Result<(), NoMemory>
        ensures { (h : List ℕ) (n : ℕ) → counted self.new h n ≡ counted self.old h n + (if is_ok result then cond (is_mention h n want digest.now) 1 0 else 0) }
    {
        let key = (digest.to_md5(), want);
        let before = self.counts.get(&key).copied().unwrap_or(0);
        let Some(count) = before.checked_add(1) else {
            return Err(NoMemory);
        };
        let Ok(_) = self.counts.insert(key, count) else {
            return Err(NoMemory);
        };
        Ok(())
    }

    fn lower(&mut self, digest: &Digest, want: u8)
        requires { 0 < counted self.old digest.now want }
        ensures { (h : List ℕ) (n : ℕ) → counted self.new h n + cond (is_mention h n want digest.now) 1 0 ≡ counted self.old h n }
    {
        let key = (digest.to_md5(), want);
        let Some(count) = self.counts.get_mut(&key) else {
            return;
        };
        *count -= 1;
        if *count == 0 {
            self.counts.remove(&key);
        }
    }

    /// Returns the greatest number of copies with which the digest is counted, or 0 where it isn't.
    pub(crate) fn greatest(&self, digest: &Digest) -> u8
        ensures counted { 0 < result → 0 < counted self.now digest.now result }
        ensures greatest { (n : ℕ) → 0 < counted self.now digest.now n → n ≤ result }
    {
        let bytes = digest.to_md5();
        let mut wanted = self.counts.range((
            Bound::Included((bytes, 0)),
            Bound::Included((bytes, u8::MAX)),
        ));
        match wanted.next_back() {
            Some(((_, want), _)) => *want,
            None => 0,
        }
    }
}
