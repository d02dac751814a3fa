// A device over a plain list.
ghost use Rattle.std.specs.Prelude.{◌≡◌, false, IsOk, ◌≤◌, ◌*◌, ◌^◌, ◌-◌, option_copied};
ghost use Rattle.md5.specs.Md5.{md5};
ghost use Rattle.keep_spec.specs.Times.{IsReading, nanos};
ghost use Rattle.keep_event.specs.Device as machine;
ghost use Rattle.keep_plain.specs.Lines.{IsLine, reply, takes_memory};

use crate::held::{find, put, remove, rename, set_time};
use crate::walks::{first_due, last_copy, page, used};
use keep_event::{
    Block, DeviceAnswer, DeviceQuery, DeviceRules, Lists, Name, PullItem, Stored, TrashItem,
};
use keep_spec::{Bytes, Digest, Items, NANOS_PER_SECOND, NoMemory, grace_nanos};
use md5::Md5;
use std::alloc::Global;
use std::collections::VecDeque;
use std::marker::Model;

/// A device that keeps all that it holds in one list. It is seen as the state of the device machine, and each call is a line of that machine at a reading, in nanoseconds since 1970.
/// A call takes time in proportion to what the device holds and to the bytes that it reads. `NoMemory` is the only error, and leaves the device as it was.
#[derive(Drop, Debug)]
pub struct PlainDevice {
    held: Vec<(Name, Stored)>,
    round: u64,
    trash: VecDeque<TrashItem>,
    pull: VecDeque<PullItem>,
    alloc: Global,
}

impl Model for PlainDevice {
    ghost use Rattle.keep_event.specs.Device.{State};

    ghost Value = { State };

    ghost view = { λ d. record { held = d.held.items; round = d.round; trash = d.trash.items; pull = d.pull.items } };
}

impl PlainDevice {
    /// A device that holds nothing, at round 0 with empty lists. It takes no memory.
    pub fn new(alloc: Global) -> PlainDevice
        ensures { result ≡ machine.initial }
    {
        PlainDevice {
            held: Vec::new(alloc),
            round: 0,
            trash: VecDeque::new(alloc),
            pull: VecDeque::new(alloc),
            alloc,
        }
    }

    /// Makes the call that the query names, by the rules of the device. A token has no part in it. Only a write, a fetch, an accept and a page may want memory.
    pub fn step(
        &mut self,
        rules: DeviceRules,
        reading: u64,
        query: &DeviceQuery,
    ) -> Result<DeviceAnswer, NoMemory>
        requires { IsReading reading }
        ensures line { IsLine (machine.step rules reading query.now self.old) self.old self.new result }
        ensures memory { takes_memory query.now ≡ false → IsOk result }
    {
        match query {
            DeviceQuery::CompareTouch { block, token: _ } => {
                Ok(self.compare_touch(rules, reading, block))
            }
            DeviceQuery::Write { block, token: _ } => self.write(rules, reading, block),
            DeviceQuery::Fetch { digest } => self.fetch(digest),
            DeviceQuery::Touch { digest, token: _ } => Ok(self.touch(rules, reading, digest)),
            DeviceQuery::Clear { round } => Ok(self.clear(*round)),
            DeviceQuery::Accept { round, lists } => self.accept(*round, lists),
            DeviceQuery::Page { round, prefix } => self.page(*round, prefix.as_slice()),
            DeviceQuery::TrashNext => Ok(self.trash_next(rules, reading)),
            DeviceQuery::PullNext => Ok(self.pull_next()),
            DeviceQuery::Untrash { digest } => Ok(self.untrash(rules, reading, digest)),
            DeviceQuery::EmptyNext => Ok(self.empty_next(rules, reading)),
            DeviceQuery::Restart => Ok(self.restart()),
        }
    }

    /// Touches the block where the device has it with the same bytes: its time becomes the greater of its own and the reading.
    #[tactic(auto, unfolding(keep_event::specs::Device::compare_touch))]
    pub fn compare_touch(&mut self, rules: DeviceRules, reading: u64, block: &Block) -> DeviceAnswer
        ensures { reply result self.new ≡ machine.compare_touch rules block.now reading self.old }
    {
        if rules.read_only {
            return DeviceAnswer::ReadOnly;
        }
        let name = replica(block.digest());
        let Some(stored) = find(&self.held, &name) else {
            return DeviceAnswer::Absent;
        };
        if stored.bytes.as_slice() != block.bytes() {
            return other_bytes(block, stored.bytes.as_slice());
        }
        let mtime = stored.mtime.max(reading);
        set_time(&mut self.held, &name, mtime);
        DeviceAnswer::Touched { mtime }
    }

    /// Touches the block where the device has it with the same bytes, and stores it where the device doesn't have it, or has it corrupt: with the greater of the corrupt replica's time and the reading, and only where the bytes of all replicas and trashed copies stay within the capacity. Other bytes with the same MD5 are never replaced.
    #[tactic(auto, unfolding(keep_event::specs::Device::write))]
    pub fn write(
        &mut self,
        rules: DeviceRules,
        reading: u64,
        block: &Block,
    ) -> Result<DeviceAnswer, NoMemory>
        ensures line { IsLine (machine.write rules block.now reading self.old) self.old self.new result }
    {
        if rules.read_only {
            return Ok(DeviceAnswer::ReadOnly);
        }
        let name = replica(block.digest());
        let Some(stored) = find(&self.held, &name) else {
            return self.place(rules, reading, block);
        };
        let mtime = stored.mtime.max(reading);
        if stored.bytes.as_slice() != block.bytes() {
            if digest_of(stored.bytes.as_slice()) == block.digest() {
                return Ok(DeviceAnswer::Collision);
            }
            return self.place(rules, mtime, block);
        }
        set_time(&mut self.held, &name, mtime);
        Ok(DeviceAnswer::Written { mtime })
    }

    /// Returns the bytes of the replica, where their MD5 is the digest.
    #[tactic(auto, unfolding(keep_event::specs::Device::fetch))]
    pub fn fetch(&self, digest: &Digest) -> Result<DeviceAnswer, NoMemory>
        ensures line { IsLine (machine.fetch digest.now self.now) self.now self.now result }
    {
        let Some(stored) = find(&self.held, &replica(*digest)) else {
            return Ok(DeviceAnswer::Absent);
        };
        let found = digest_of(stored.bytes.as_slice());
        if found != *digest {
            return Ok(DeviceAnswer::Corrupt { found });
        }
        let bytes = stored.bytes.duplicate(self.alloc)?;
        Ok(DeviceAnswer::Block { bytes })
    }

    /// Sets the replica's time to the greater of its own and the reading, whatever its bytes. It takes no memory.
    #[tactic(auto, unfolding(keep_event::specs::Device::touch))]
    pub fn touch(&mut self, rules: DeviceRules, reading: u64, digest: &Digest) -> DeviceAnswer
        ensures { reply result self.new ≡ machine.touch rules digest.now reading self.old }
    {
        if rules.read_only {
            return DeviceAnswer::ReadOnly;
        }
        let name = replica(*digest);
        let Some(stored) = find(&self.held, &name) else {
            return DeviceAnswer::Absent;
        };
        let mtime = stored.mtime.max(reading);
        set_time(&mut self.held, &name, mtime);
        DeviceAnswer::Touched { mtime }
    }

    /// Keeps the round and empties both lists. Below the kept round the answer is Stale. It takes no memory.
    #[tactic(auto, unfolding(keep_event::specs::Device::clear))]
    pub fn clear(&mut self, round: u64) -> DeviceAnswer
        ensures { reply result self.new ≡ machine.clear round self.old }
    {
        if round < self.round {
            return DeviceAnswer::Stale { held: self.round };
        }
        self.round = round;
        self.trash.clear();
        self.pull.clear();
        DeviceAnswer::Cleared
    }

    /// Replaces both lists by copies of these, where the round is the kept one.
    #[tactic(auto, unfolding(keep_event::specs::Device::accept))]
    pub fn accept(&mut self, round: u64, lists: &Lists) -> Result<DeviceAnswer, NoMemory>
        ensures line { IsLine (machine.accept round lists.now self.old) self.old self.new result }
    {
        if round != self.round {
            return Ok(DeviceAnswer::Stale { held: self.round });
        }
        let copy = lists.duplicate(self.alloc)?;
        let trash = copy.trash.len() as u64;
        let pull = copy.pull.len() as u64;
        self.trash = VecDeque::from(copy.trash.into_vec());
        self.pull = VecDeque::from(copy.pull.into_vec());
        Ok(DeviceAnswer::Accepted { trash, pull })
    }

    /// Lists the replicas whose digits begin with the prefix, where the round is the kept one.
    #[tactic(auto, unfolding(keep_event::specs::Device::page))]
    pub fn page(&self, round: u64, prefix: &[u8]) -> Result<DeviceAnswer, NoMemory>
        ensures line { IsLine (machine.page prefix.now round self.now) self.now self.now result }
    {
        if self.round != round {
            return Ok(DeviceAnswer::Stale { held: self.round });
        }
        let entries = page(self.alloc, &self.held, prefix)?;
        Ok(DeviceAnswer::Page {
            entries: Items::of(entries),
        })
    }

    /// Takes the first item of the trash list. The replica becomes a trashed copy where its time is the item's and the reading is above that time plus the grace; the copy's deadline is the reading plus the trash life. It takes no memory.
    #[tactic(auto, unfolding(keep_event::specs::Device::trash_next))]
    pub fn trash_next(&mut self, rules: DeviceRules, reading: u64) -> DeviceAnswer
        requires { IsReading reading }
        ensures { reply result self.new ≡ machine.trash_next rules reading self.old }
    {
        match self.trash.pop_front() {
            Some(item) => self.trash_item(rules, reading, item),
            None => DeviceAnswer::Idle,
        }
    }

    /// Takes the first item of the pull list. It takes no memory.
    #[tactic(auto, unfolding(keep_event::specs::Device::pull_next))]
    pub fn pull_next(&mut self) -> DeviceAnswer
        ensures { reply result self.new ≡ machine.pull_next self.old }
    {
        match self.pull.pop_front() {
            Some(item) => DeviceAnswer::Pull { item },
            None => DeviceAnswer::Idle,
        }
    }

    /// Makes the trashed copy with the greatest deadline the replica again, where there is none, with the greater of its own time and the reading. It takes no memory.
    #[tactic(auto, unfolding(keep_event::specs::Device::untrash))]
    pub fn untrash(&mut self, rules: DeviceRules, reading: u64, digest: &Digest) -> DeviceAnswer
        ensures { reply result self.new ≡ machine.untrash rules digest.now reading self.old }
    {
        if rules.read_only {
            return DeviceAnswer::ReadOnly;
        }
        let name = replica(*digest);
        if let Some(stored) = find(&self.held, &name) {
            return DeviceAnswer::Present {
                mtime: stored.mtime,
            };
        }
        let Some((copy, mtime)) = last_copy(&self.held, digest) else {
            return DeviceAnswer::NoTrash;
        };
        let mtime = mtime.max(reading);
        rename(&mut self.held, &copy, &name, mtime);
        DeviceAnswer::Back { mtime }
    }

    /// Removes the first trashed copy whose deadline is below the reading. It takes no memory.
    #[tactic(auto, unfolding(keep_event::specs::Device::empty_next))]
    pub fn empty_next(&mut self, rules: DeviceRules, reading: u64) -> DeviceAnswer
        ensures { reply result self.new ≡ machine.empty_next rules reading self.old }
    {
        if rules.read_only {
            return DeviceAnswer::ReadOnly;
        }
        let Some(name) = first_due(&self.held, reading) else {
            return DeviceAnswer::Idle;
        };
        let _ = remove(&mut self.held, &name);
        DeviceAnswer::Emptied {
            digest: name.digest,
            deadline: name.deadline.unwrap_or(0),
        }
    }

    /// Empties both lists and keeps the round. It takes no memory.
    #[tactic(auto, unfolding(keep_event::specs::Device::restart))]
    pub fn restart(&mut self) -> DeviceAnswer
        ensures { reply result self.new ≡ machine.restart self.old }
    {
        self.trash.clear();
        self.pull.clear();
        DeviceAnswer::Restarted
    }

    // Stores the block with this time, replacing a corrupt replica, where the capacity allows.
    fn place(
        &mut self,
        rules: DeviceRules,
        mtime: u64,
        block: &Block,
    ) -> Result<DeviceAnswer, NoMemory>
        ensures line { IsLine (machine.placed rules block.now mtime self.old) self.old self.new result }
    {
        let name = replica(block.digest());
        let bytes = block.bytes();
        let used = used(&self.held);
        let taken = size_of(find(&self.held, &name));
        if used.saturating_sub(taken) + bytes.len() as u128 > rules.capacity as u128 {
            return Ok(DeviceAnswer::Full {
                used,
                capacity: rules.capacity,
            });
        }
        let bytes = Bytes::copy_of(self.alloc, bytes)?;
        put(&mut self.held, &name, Stored { mtime, bytes })?;
        Ok(DeviceAnswer::Written { mtime })
    }

    // Does what an item of the trash list asks for.
    #[tactic(auto, unfolding(keep_event::specs::Device::trash_item))]
    fn trash_item(&mut self, rules: DeviceRules, reading: u64, item: TrashItem) -> DeviceAnswer
        requires { IsReading reading }
        ensures { reply result self.new ≡ machine.trash_item rules item reading self.old }
    {
        if rules.read_only {
            return DeviceAnswer::ReadOnly;
        }
        let digest = item.digest;
        let name = replica(digest);
        let Some(stored) = find(&self.held, &name) else {
            return DeviceAnswer::Gone { digest };
        };
        let mtime = stored.mtime;
        if mtime != item.mtime {
            return DeviceAnswer::Skipped { digest, mtime };
        }
        if reading as u128 <= mtime as u128 + grace_nanos(rules.ttl, rules.skew) as u128 {
            return DeviceAnswer::Young { digest, mtime };
        }
        let deadline = reading + nanos_of(rules.trash_life);
        rename(&mut self.held, &name, &copy(digest, deadline), mtime);
        DeviceAnswer::Trashed {
            digest,
            deadline,
            round: self.round,
        }
    }
}

// The name of a digest's replica.
fn replica(digest: Digest) -> Name
    ensures { result ≡ machine.replica digest }
{
    Name {
        digest,
        deadline: None,
    }
}

// The name of a digest's trashed copy.
fn copy(digest: Digest, deadline: u64) -> Name
    ensures { result ≡ machine.copy digest deadline }
{
    Name {
        digest,
        deadline: Some(deadline),
    }
}

// Seconds in nanoseconds.
fn nanos_of(seconds: u32) -> u64
    ensures nanos { result ≡ nanos seconds }
    ensures bound { result ≤ (2 ^ 32 - 1) * 10 ^ 9 }
{
    u64::from(seconds) * NANOS_PER_SECOND
}

// The bytes that a replica takes.
fn size_of(stored: Option<&Stored>) -> u128
    ensures { result ≡ machine.taken_by (option_copied stored.entry) }
{
    match stored {
        Some(stored) => stored.bytes.len() as u128,
        None => 0,
    }
}

// The MD5 of the bytes.
fn digest_of(bytes: &[u8]) -> Digest
    ensures { result ≡ md5 bytes.now }
{
    Digest::of_md5(<Md5 as md5::Digest>::digest(bytes))
}

// The answer at a replica that holds other bytes than the block.
fn other_bytes(block: &Block, held: &[u8]) -> DeviceAnswer
    ensures { result ≡ machine.other_answer block.now held.now }
{
    let found = digest_of(held);
    if found == block.digest() {
        return DeviceAnswer::Collision;
    }
    DeviceAnswer::Corrupt { found }
}
