// A device over a store.
ghost use Rattle.std.specs.Prelude.{◌≡◌, ◌↔◌, ◌≤◌, ◌||◌, IsTrue, option_copied, [], true, false, IfOk, IsOk, IfSome, Some, None, option_map, max, map, sum_by, IfErr, ◌+◌, ◌-◌, ◌*◌, ◌^◌, slice_get};
ghost use Rattle.md5.specs.Md5.{md5};
ghost use Rattle.keep_spec.specs.Times.{IsReading, nanos};
ghost use Rattle.keep_event.specs.Device as machine;
ghost use Rattle.keep_event.specs.Store as store;
ghost use Rattle.keep_event.specs.Store.{find, size_of, sized};
ghost use Rattle.std.specs.List.{find as list_find, last_or, filter};
ghost use Rattle.keep_volume.specs.Calls.{IsLine, IsLineUntold, IsExactly, HasReadOnly, HasReadOnlyItem, HasLowerStale, HasStale, HasStaleRound, HasIdle, IsReopened, note_of, state_of, VolumeView, over, IsOpened, IsGivenBack, is_refused, takes_memory};
ghost use Rattle.keep_volume.specs.Steps.{IsStoreCall, IsItem, without_first, without_lists};
ghost use Rattle.keep_store.specs.Causes.{HasStoreCause};
ghost use Rattle.keep_event.specs.Answers.{is_compared, is_written, is_fetched, is_touched, is_cleared, is_accepted, is_page, is_trashed, is_pulled, is_untrashed, is_emptied, is_restarted, is_store_fault, is_device_answer};

use crate::index::Index;
use keep_event::{
    Block, DeviceAnswer, DeviceQuery, DeviceRules, Lists, Metadata, Name, PullItem, Stored,
    TrashItem,
};
use keep_spec::{Digest, Items, NANOS_PER_SECOND, NoMemory, TokenId, grace_nanos};
use keep_store::{Failed, Store, StoreError};
use md5::Md5;
use std::alloc::Global;
use std::collections::VecDeque;
use std::marker::Model;

/// Why a device was not opened. The store is returned unchanged.
#[derive(Drop)]
pub enum OpenError<S> {
    /// One of the two calls of the store failed, which the store counts among its faults.
    StoreFault { store: S },
    /// Memory was refused for the names.
    NoMemory { store: S },
}

/// A device: replicas, trashed copies and the kept round in a store, with the two lists, the rules, and the times and sizes of all names, so that most calls needn't ask the store. It is seen as what the store tells, whether it tells its note, the round, the lists, the rules and the store's count of faults.
/// Each call is one line of the device machine. A call changes its store by one store call at most.
#[derive(Drop)]
pub struct Volume<S: Store> {
    store: S,
    index: Index,
    round: u64,
    trash: Vec<TrashItem>,
    trash_done: usize,
    pull: VecDeque<PullItem>,
    rules: DeviceRules,
    alloc: Global,
}

impl<S: Store> Model for Volume<S> {
    ghost use Rattle.std.specs.Prelude.{◌≡◌, ◌≤◌, length, drop, is_some, IfSome};
    ghost use Rattle.keep_volume.specs.Calls.{VolumeView};
    ghost use Rattle.keep_volume.specs.Index.{Remembers};

    ghost Value = { VolumeView };

    ghost view = { λ v. record { held = S.held v.store; tells_note = is_some (S.noted v.store); round = v.round; trash = drop v.trash_done v.trash.items; pull = v.pull.items; rules = v.rules; faults = S.faults v.store } };

    ghost invariant = { λ v. record { remembers : Remembers (S.held v.store) v.index.entries; done : v.trash_done ≤ length v.trash.items; noted : IfSome (S.noted v.store) (λ n. n ≡ v.round) } };
}

// The name of a digest's replica.
fn replica(digest: Digest) -> Name
    ensures { result ≡ machine.replica digest }
{
    Name {
        digest,
        deadline: None,
    }
}

// Seconds in nanoseconds.
fn nanos_of(seconds: u32) -> u64
    ensures nanos { result ≡ nanos seconds }
    ensures bound { result ≤ (2 ^ 32 - 1) * 10 ^ 9 }
{
    u64::from(seconds) * NANOS_PER_SECOND
}

impl<S: Store> Volume<S> {
    /// Opens a device over its store: both lists are empty, and the round is the store's note. It makes two calls of the store, `note` and then `names_from`. On error the store is returned unchanged.
    pub fn open(alloc: Global, store: S, rules: DeviceRules) -> Result<Volume<S>, OpenError<S>>
        ensures opened { IfOk result (λ v. IsOpened (S.held store) (S.noted store) rules v) }
        ensures never_falls { IfOk result (λ v. S.faults store ≤ v.faults) }
        ensures store_returned { IfErr result (IsGivenBack (S.held store) (S.noted store) (S.faults store) S.held S.noted S.faults) }
    {
        let mut store = store;
        let Ok(round) = store.note() else {
            return Err(OpenError::StoreFault { store });
        };
        let names = match store.names_from(None, usize::MAX) {
            Ok(names) => names,
            Err(StoreError::Failed) => return Err(OpenError::StoreFault { store }),
            Err(StoreError::NoMemory) => return Err(OpenError::NoMemory { store }),
        };
        let Ok(index) = Index::of_names(alloc, names.as_slice()) else {
            return Err(OpenError::NoMemory { store });
        };
        Ok(Volume {
            store,
            index,
            round,
            trash: Vec::new(alloc),
            trash_done: 0,
            pull: VecDeque::new(alloc),
            rules,
            alloc,
        })
    }

    /// Returns the store. Its note is the round. A device that is opened over it is this one after a restart.
    pub fn into_store(self) -> S
        ensures held { S.held result ≡ self.held }
        ensures faults { S.faults result ≡ self.faults }
        ensures note { S.noted result ≡ note_of self }
        ensures reopened { IsReopened (S.held result) (S.noted result) self }
    {
        let Volume {
            store,
            index: _,
            round: _,
            trash: _,
            trash_done: _,
            pull: _,
            rules: _,
            alloc: _,
        } = self;
        store
    }

    /// Whether the device is new: no replica, no trashed copy, both lists empty, and the round 0.
    pub fn is_empty(&self) -> bool
        ensures initial { IfSome (state_of self.now) (λ s. IsTrue result ↔ (s ≡ machine.initial)) }
        ensures lists { IsTrue result → (self.now.round ≡ 0) × (self.now.trash ≡ []) × (self.now.pull ≡ []) }
    {
        if self.round != 0 || !self.index.is_empty() {
            return false;
        }
        if self.trash_done < self.trash.len() {
            return false;
        }
        self.pull.is_empty()
    }

    /// The first item of the pull list, which stays in the list.
    pub fn next_pull(&self) -> Option<&PullItem>
        ensures { option_copied result ≡ slice_get self.now.pull 0 }
    {
        self.pull.front()
    }

    /// Makes the call that the query names. The reading is the clock's, in nanoseconds since 1970 and below 4·10^18.
    /// The answer and the state afterwards are the line of the device machine on what the store tells. StoreFault replaces it only where the store's count of faults rose, and then nothing has changed; nothing changes at NoMemory either. Lists are copied. Only a query that reads or writes bytes, a page, and lists may want memory.
    pub fn step(&mut self, reading: u64, query: &DeviceQuery) -> Result<DeviceAnswer, NoMemory>
        requires { IsReading reading }
        ensures line { IsLine (machine.step self.old.rules reading query.now) self.old self.new result }
        ensures may_fault { result ≡ Ok DeviceAnswer.StoreFault → machine.may_fault query.now ≡ true }
        ensures read_only { is_refused query.now ≡ true → HasReadOnly self.old self.new result }
        ensures stale { HasStaleRound query.now self.old self.new result }
        ensures memory { takes_memory query.now ≡ false → IsOk result }
        ensures listed { IfOk result (λ a. IsTrue (is_device_answer query.now a)) }
    {
        match query {
            DeviceQuery::CompareTouch { block, token } => {
                self.compare_touch(reading, block, *token)
            }
            DeviceQuery::Write { block, token } => self.write(reading, block, *token),
            DeviceQuery::Fetch { digest } => self.fetch(reading, digest),
            DeviceQuery::Touch { digest, token } => self.touch(reading, digest, *token),
            DeviceQuery::Clear { round } => self.clear(reading, *round),
            DeviceQuery::Accept { round, lists } => self.accept_copy(reading, *round, lists),
            DeviceQuery::Page { round, prefix } => self.page(reading, *round, prefix.as_slice()),
            DeviceQuery::TrashNext => self.trash_next(reading),
            DeviceQuery::PullNext => self.pull_next(reading),
            DeviceQuery::Untrash { digest } => self.untrash(reading, digest),
            DeviceQuery::EmptyNext => self.empty_next(reading),
            DeviceQuery::Restart => self.restart(reading),
        }
    }

    /// Touches the block where the device has it with the same bytes: its time becomes the greater of its own and the reading. The token is that of the client to whom an answer Touched issues a signature; it doesn't change what is done. On a writable device the first call of the store is a `get` of the replica.
    pub fn compare_touch(
        &mut self,
        reading: u64,
        block: &Block,
        _token: Option<TokenId>,
    ) -> Result<DeviceAnswer, NoMemory>
        ensures line { IsLine (machine.compare_touch self.old.rules block.now reading) self.old self.new result }
        ensures read_only { HasReadOnly self.old self.new result }
        ensures listed { IfOk result (λ a. IsTrue (is_compared a || is_store_fault a)) }
    {
        if self.rules.read_only {
            return Ok(DeviceAnswer::ReadOnly);
        }
        let name = replica(block.digest());
        let stored = match self.stored(&name) {
            Ok(Some(stored)) => stored,
            Ok(None) => return Ok(DeviceAnswer::Absent),
            Err(StoreError::Failed) => return Ok(DeviceAnswer::StoreFault),
            Err(StoreError::NoMemory) => return Err(NoMemory),
        };
        if stored.bytes.as_slice() != block.bytes() {
            return Ok(other_bytes(block, stored.bytes.as_slice()));
        }
        let mtime = renewed_time(stored.mtime, reading);
        match self.renew(&name, mtime) {
            Ok(_) => Ok(DeviceAnswer::Touched { mtime }),
            Err(_) => Ok(DeviceAnswer::StoreFault),
        }
    }

    /// Touches the block where the device has it with the same bytes, and stores it where the device doesn't have it, or has it corrupt: with the greater of the corrupt replica's time and the reading, and only where the bytes of all replicas and trashed copies stay within the capacity. Other bytes with the same MD5 are never replaced.
    pub fn write(
        &mut self,
        reading: u64,
        block: &Block,
        _token: Option<TokenId>,
    ) -> Result<DeviceAnswer, NoMemory>
        ensures line { IsLine (machine.write self.old.rules block.now reading) self.old self.new result }
        ensures read_only { HasReadOnly self.old self.new result }
        ensures listed { IfOk result (λ a. IsTrue (is_written a || is_store_fault a)) }
    {
        if self.rules.read_only {
            return Ok(DeviceAnswer::ReadOnly);
        }
        let name = replica(block.digest());
        let stored = match self.stored(&name) {
            Ok(Some(stored)) => stored,
            Ok(None) => return self.place(reading, block),
            Err(StoreError::Failed) => return Ok(DeviceAnswer::StoreFault),
            Err(StoreError::NoMemory) => return Err(NoMemory),
        };
        let mtime = renewed_time(stored.mtime, reading);
        if stored.bytes.as_slice() != block.bytes() {
            if digest_of(stored.bytes.as_slice()) == block.digest() {
                return Ok(DeviceAnswer::Collision);
            }
            return self.place(mtime, block);
        }
        match self.renew(&name, mtime) {
            Ok(_) => Ok(DeviceAnswer::Written { mtime }),
            Err(_) => Ok(DeviceAnswer::StoreFault),
        }
    }

    /// Returns the bytes of the replica, where their MD5 is the digest. The reading doesn't matter.
    pub fn fetch(&mut self, _reading: u64, digest: &Digest) -> Result<DeviceAnswer, NoMemory>
        ensures line { IsLine (machine.fetch digest.now) self.old self.new result }
        ensures listed { IfOk result (λ a. IsTrue (is_fetched a || is_store_fault a)) }
    {
        let name = replica(*digest);
        let stored = match self.stored(&name) {
            Ok(Some(stored)) => stored,
            Ok(None) => return Ok(DeviceAnswer::Absent),
            Err(StoreError::Failed) => return Ok(DeviceAnswer::StoreFault),
            Err(StoreError::NoMemory) => return Err(NoMemory),
        };
        let found = digest_of(stored.bytes.as_slice());
        if found != *digest {
            return Ok(DeviceAnswer::Corrupt { found });
        }
        Ok(DeviceAnswer::Block {
            bytes: stored.bytes,
        })
    }

    /// Sets the replica's time to the greater of its own and the reading, without reading its bytes. It takes no memory.
    pub fn touch(
        &mut self,
        reading: u64,
        digest: &Digest,
        _token: Option<TokenId>,
    ) -> Result<DeviceAnswer, NoMemory>
        ensures line { IsLine (machine.touch self.old.rules digest.now reading) self.old self.new result }
        ensures read_only { HasReadOnly self.old self.new result }
        ensures takes_no_memory { IsOk result }
        ensures listed { IfOk result (λ a. IsTrue (is_touched a || is_store_fault a)) }
    {
        if self.rules.read_only {
            return Ok(DeviceAnswer::ReadOnly);
        }
        let name = replica(*digest);
        let Some(known) = self.known(&name) else {
            return Ok(DeviceAnswer::Absent);
        };
        let mtime = renewed_time(known.mtime, reading);
        match self.renew(&name, mtime) {
            Ok(_) => Ok(DeviceAnswer::Touched { mtime }),
            Err(_) => Ok(DeviceAnswer::StoreFault),
        }
    }

    /// Keeps the round and empties both lists. Below the kept round the answer is Stale, whatever the store does. It takes no memory.
    pub fn clear(&mut self, _reading: u64, round: u64) -> Result<DeviceAnswer, NoMemory>
        ensures line { IsLine (machine.clear round) self.old self.new result }
        ensures whatever_is_told { IsLineUntold (machine.clear round) self.old self.new result }
        ensures stale { HasLowerStale round self.old self.new result }
        ensures takes_no_memory { IsOk result }
        ensures listed { IfOk result (λ a. IsTrue (is_cleared a || is_store_fault a)) }
    {
        if round < self.round {
            return Ok(DeviceAnswer::Stale { held: self.round });
        }
        if self.store.set_note(round).is_err() {
            return Ok(DeviceAnswer::StoreFault);
        }
        self.round = round;
        self.drop_lists();
        Ok(DeviceAnswer::Cleared)
    }

    /// Replaces both lists by these, where the round is the kept one. It takes no memory, and makes no call of the store.
    pub fn accept(
        &mut self,
        _reading: u64,
        round: u64,
        lists: Lists,
    ) -> Result<DeviceAnswer, NoMemory>
        ensures line { IsLine (machine.accept round lists) self.old self.new result }
        ensures exact { IsExactly (machine.accept round lists) self.old self.new result }
        ensures no_fault { result ≡ Ok DeviceAnswer.StoreFault → ⊥ }
        ensures takes_no_memory { IsOk result }
        ensures listed { IfOk result (λ a. IsTrue (is_accepted a)) }
    {
        if round != self.round {
            return Ok(DeviceAnswer::Stale { held: self.round });
        }
        let trash = lists.trash.len() as u64;
        let pull = lists.pull.len() as u64;
        self.trash = lists.trash.into_vec();
        self.trash_done = 0;
        self.pull = VecDeque::from(lists.pull.into_vec());
        Ok(DeviceAnswer::Accepted { trash, pull })
    }

    /// Lists the replicas whose digits begin with the prefix, ascending, where the round is the kept one. They are found by binary search; the store isn't asked.
    pub fn page(
        &mut self,
        _reading: u64,
        round: u64,
        prefix: &[u8],
    ) -> Result<DeviceAnswer, NoMemory>
        ensures line { IsLine (machine.page prefix.now round) self.old self.new result }
        ensures no_fault { result ≡ Ok DeviceAnswer.StoreFault → ⊥ }
        ensures stale { HasStale round self.old self.new result }
        ensures listed { IfOk result (λ a. IsTrue (is_page a || is_store_fault a)) }
    {
        if self.round != round {
            return Ok(DeviceAnswer::Stale { held: self.round });
        }
        let entries = self.index.page(self.alloc, prefix)?;
        Ok(DeviceAnswer::Page {
            entries: Items::of(entries),
        })
    }

    /// Takes the first item of the trash list. The replica becomes a trashed copy where its time is the item's and the reading is above that time plus the grace; the copy's deadline is the reading plus the trash life. It takes no memory. After StoreFault the item is still the first.
    /// Condition: the reading is below 4·10^18.
    pub fn trash_next(&mut self, reading: u64) -> Result<DeviceAnswer, NoMemory>
        requires { IsReading reading }
        ensures line { IsLine (machine.trash_next self.old.rules reading) self.old self.new result }
        ensures read_only { HasReadOnlyItem self.old self.new result }
        ensures idle { HasIdle self.old self.new result }
        ensures takes_no_memory { IsOk result }
        ensures listed { IfOk result (λ a. IsTrue (is_trashed a || is_store_fault a)) }
    {
        let Some(item) = self.first_trash() else {
            return Ok(DeviceAnswer::Idle);
        };
        match self.trash_item(reading, item) {
            Ok(answer) => {
                self.advance();
                Ok(answer)
            }
            Err(_) => Ok(DeviceAnswer::StoreFault),
        }
    }

    /// Takes the first item of the pull list. It takes no memory, and makes no call of the store.
    pub fn pull_next(&mut self, _reading: u64) -> Result<DeviceAnswer, NoMemory>
        ensures line { IsLine machine.pull_next self.old self.new result }
        ensures exact { IsExactly machine.pull_next self.old self.new result }
        ensures no_fault { result ≡ Ok DeviceAnswer.StoreFault → ⊥ }
        ensures takes_no_memory { IsOk result }
        ensures listed { IfOk result (λ a. IsTrue (is_pulled a)) }
    {
        let Some(item) = self.pull.pop_front() else {
            return Ok(DeviceAnswer::Idle);
        };
        Ok(DeviceAnswer::Pull { item })
    }

    /// Makes the trashed copy with the greatest deadline the replica again, where there is none, with the greater of its own time and the reading. It takes no memory.
    pub fn untrash(&mut self, reading: u64, digest: &Digest) -> Result<DeviceAnswer, NoMemory>
        ensures line { IsLine (machine.untrash self.old.rules digest.now reading) self.old self.new result }
        ensures read_only { HasReadOnly self.old self.new result }
        ensures takes_no_memory { IsOk result }
        ensures listed { IfOk result (λ a. IsTrue (is_untrashed a || is_store_fault a)) }
    {
        if self.rules.read_only {
            return Ok(DeviceAnswer::ReadOnly);
        }
        let name = replica(*digest);
        if let Some(known) = self.known(&name) {
            return Ok(DeviceAnswer::Present { mtime: known.mtime });
        }
        let Some((copy, sized)) = self.last_copy(digest) else {
            return Ok(DeviceAnswer::NoTrash);
        };
        let mtime = renewed_time(sized.mtime, reading);
        match self.rename(&copy, &name, mtime) {
            Ok(_) => Ok(DeviceAnswer::Back { mtime }),
            Err(_) => Ok(DeviceAnswer::StoreFault),
        }
    }

    /// Removes the first trashed copy, by digest and deadline, whose deadline is below the reading. It takes no memory, and goes on from where the last such call stopped.
    pub fn empty_next(&mut self, reading: u64) -> Result<DeviceAnswer, NoMemory>
        ensures line { IsLine (machine.empty_next self.old.rules reading) self.old self.new result }
        ensures read_only { HasReadOnly self.old self.new result }
        ensures takes_no_memory { IsOk result }
        ensures listed { IfOk result (λ a. IsTrue (is_emptied a || is_store_fault a)) }
    {
        if self.rules.read_only {
            return Ok(DeviceAnswer::ReadOnly);
        }
        let Some(name) = self.first_due(reading) else {
            return Ok(DeviceAnswer::Idle);
        };
        let digest = name.digest;
        let deadline = name.deadline.unwrap_or(0);
        match self.remove(&name) {
            Ok(_) => Ok(DeviceAnswer::Emptied { digest, deadline }),
            Err(_) => Ok(DeviceAnswer::StoreFault),
        }
    }

    /// Empties both lists and keeps the round. It takes no memory, and makes no call of the store.
    pub fn restart(&mut self, _reading: u64) -> Result<DeviceAnswer, NoMemory>
        ensures line { IsLine machine.restart self.old self.new result }
        ensures exact { IsExactly machine.restart self.old self.new result }
        ensures no_fault { result ≡ Ok DeviceAnswer.StoreFault → ⊥ }
        ensures takes_no_memory { IsOk result }
        ensures listed { IfOk result (λ a. IsTrue (is_restarted a)) }
    {
        self.drop_lists();
        Ok(DeviceAnswer::Restarted)
    }

    // Sets the time of the name, in the store and in the index.
    fn renew(&mut self, name: &Name, mtime: u64) -> Result<bool, Failed>
        ensures { IsStoreCall (λ es. store.touch name.now mtime es (find name.now es)) self.old self.new result }
    {
        let there = self.store.touch(name, mtime)?;
        self.index.touch(name, mtime);
        Ok(there)
    }

    // Moves the name to another of the same digest and sets its time, in the store and in the index.
    fn rename(&mut self, from: &Name, to: &Name, mtime: u64) -> Result<bool, Failed>
        requires { from.now.digest ≡ to.now.digest }
        ensures { IsStoreCall (λ es. store.rename from.now to.now mtime es (find from.now es)) self.old self.new result }
    {
        let there = self.store.rename(from, to, mtime)?;
        self.index.rename(from, to, mtime);
        Ok(there)
    }

    // Removes the name from the store and the index.
    fn remove(&mut self, name: &Name) -> Result<bool, Failed>
        ensures { IsStoreCall (store.without name.now) self.old self.new result }
    {
        let there = self.store.remove(name)?;
        self.index.remove(name);
        Ok(there)
    }

    // What the store has under a name.
    fn stored(&mut self, name: &Name) -> Result<Option<Stored>, StoreError>
        ensures value { IfOk result (λ o. IfSome self.old.held (λ es. o ≡ find name.now es)) }
        ensures unchanged { self.new ≡ over self.old (λ es. es) self.new.faults }
        ensures cause { HasStoreCause self.old.faults self.new.faults result }
    {
        self.store.get(name)
    }

    // The time and size of a name, by the index.
    fn known(&self, name: &Name) -> Option<Metadata>
        ensures { IfSome self.now.held (λ es. result ≡ option_map size_of (find name.now es)) }
    {
        self.index.get(name)
    }

    // The first trashed copy whose deadline has passed.
    fn first_due(&mut self, reading: u64) -> Option<Name>
        ensures value { IfSome self.old.held (λ es. result ≡ option_map (λ e. e.0) (list_find (machine.is_due reading) es)) }
        ensures unchanged { self.new ≡ self.old }
    {
        self.index.first_due(reading)
    }

    // The trashed copy of a digest with the greatest deadline.
    fn last_copy(&self, digest: &Digest) -> Option<(Name, Metadata)>
        ensures last_copy { IfSome self.now.held (λ es. result ≡ option_map sized (machine.last_copy digest.now es)) }
        ensures digest { IfSome result (λ e. e.0.digest ≡ digest.now) }
    {
        self.index.last_copy(digest)
    }

    // Stores the block with this time, replacing a corrupt replica, where the capacity allows.
    fn place(&mut self, mtime: u64, block: &Block) -> Result<DeviceAnswer, NoMemory>
        ensures line { IsLine (machine.placed self.old.rules block.now mtime) self.old self.new result }
        ensures placed { result ≡ Ok DeviceAnswer.ReadOnly → ⊥ }
        ensures listed { IfOk result (λ a. IsTrue (is_written a || is_store_fault a)) }
    {
        let name = replica(block.digest());
        let size = block.bytes().len() as u64;
        let used = self.index.used();
        if used - self.index.size_at(&name) as u128 + size as u128 > self.rules.capacity as u128 {
            return Ok(DeviceAnswer::Full {
                used,
                capacity: self.rules.capacity,
            });
        }
        self.index.reserve_for(&name)?;
        match self.store.put(&name, mtime, block.bytes()) {
            Ok(()) => {}
            Err(StoreError::Failed) => return Ok(DeviceAnswer::StoreFault),
            Err(StoreError::NoMemory) => return Err(NoMemory),
        }
        self.index.put_in_room(&name, Metadata { mtime, size });
        Ok(DeviceAnswer::Written { mtime })
    }

    // Empties both lists.
    fn drop_lists(&mut self)
        ensures { self.new ≡ without_lists self.old }
    {
        self.trash.clear();
        self.trash_done = 0;
        self.pull.clear();
    }

    // Takes the first item from the trash list.
    fn advance(&mut self)
        ensures { self.new ≡ without_first self.old }
    {
        if self.trash_done < self.trash.len() {
            self.trash_done += 1;
        }
    }

    // Does what the first item of the trash list asks for, and leaves the list as it is.
    fn trash_item(&mut self, reading: u64, item: TrashItem) -> Result<DeviceAnswer, Failed>
        requires { IsReading reading }
        ensures item { IsItem (machine.trash_item self.old.rules item reading) self.old self.new result }
        ensures read_only { self.old.rules.read_only ≡ true → (result ≡ Ok DeviceAnswer.ReadOnly) × (self.new ≡ self.old) }
        ensures busy { result ≡ Ok DeviceAnswer.Idle → ⊥ }
        ensures listed { IfOk result (λ a. IsTrue (is_trashed a)) }
    {
        if self.rules.read_only {
            return Ok(DeviceAnswer::ReadOnly);
        }
        let digest = item.digest;
        let name = replica(digest);
        let Some(sized) = self.known(&name) else {
            return Ok(DeviceAnswer::Gone { digest });
        };
        let mtime = sized.mtime;
        if mtime != item.mtime {
            return Ok(DeviceAnswer::Skipped { digest, mtime });
        }
        if reading as u128 <= mtime as u128 + grace_nanos(self.rules.ttl, self.rules.skew) as u128 {
            return Ok(DeviceAnswer::Young { digest, mtime });
        }
        let deadline = reading + nanos_of(self.rules.trash_life);
        let round = self.round;
        let to = Name {
            digest,
            deadline: Some(deadline),
        };
        self.rename(&name, &to, mtime)?;
        Ok(DeviceAnswer::Trashed {
            digest,
            deadline,
            round,
        })
    }

    // The first item of the trash list, which stays in the list.
    fn first_trash(&self) -> Option<TrashItem>
        ensures { result ≡ slice_get self.now.trash 0 }
    {
        self.trash.get(self.trash_done).copied()
    }

    // Accepts a copy of the lists.
    fn accept_copy(
        &mut self,
        reading: u64,
        round: u64,
        lists: &Lists,
    ) -> Result<DeviceAnswer, NoMemory>
        ensures line { IsLine (machine.accept round lists.now) self.old self.new result }
        ensures no_fault { result ≡ Ok DeviceAnswer.StoreFault → ⊥ }
        ensures listed { IfOk result (λ a. IsTrue (is_accepted a)) }
    {
        let copy = lists.duplicate(self.alloc)?;
        self.accept(reading, round, copy)
    }
}

// The time of a replica that is put, touched or brought back: the greater of the old time and the reading.
fn renewed_time(mtime: u64, reading: u64) -> u64
    ensures { result ≡ max mtime reading }
{
    mtime.max(reading)
}

// The MD5 of the bytes.
fn digest_of(bytes: &[u8]) -> Digest
    ensures { result ≡ md5 bytes.now }
{
    Digest::of_md5(<Md5 as md5::Digest>::digest(bytes))
}

// The answer at a replica that holds other bytes than the block.
fn other_bytes(block: &Block, held: &[u8]) -> DeviceAnswer
    ensures answer { result ≡ machine.other_answer block.now held.now }
    ensures listed { IsTrue (is_compared result) }
{
    let found = digest_of(held);
    if found == block.digest() {
        return DeviceAnswer::Collision;
    }
    DeviceAnswer::Corrupt { found }
}
