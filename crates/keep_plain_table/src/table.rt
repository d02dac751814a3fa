// The table of collections over plain lists.
ghost use Rattle.std.specs.Prelude.{◌≡◌, ◌≤◌, ◌<◌, ◌/◌, ◌*◌, ◌^◌, false, IfOk, IsOk, IsTrue};
ghost use Rattle.keep_spec.specs.Times.{IsReading};
ghost use Rattle.keep_event.specs.Table as machine;
ghost use Rattle.keep_event.specs.Requests as requests;
ghost use Rattle.keep_plain_table.specs.Lines.{IsLine, reply, takes_memory};

use crate::asked;
use crate::collections::{
    collection_of, count_gone, drop_gone, is_owner, new_collection, set_times,
};
use crate::records::{
    count_swept, current_version, drop_swept, kept_until, new_record, readable, renew, row_answer,
    rows_above, versions_held,
};
use keep_config::Config;
use keep_event::{Collection, NewRecord, Record, TableAnswer, TableQuery, TableRules};
use keep_spec::{Items, NoMemory, TokenId, grace_nanos, guard_nanos};
use std::alloc::Global;
use std::marker::Model;

/// A table that keeps its records in one list and its collections in another. It is seen as the state of the table machine, and each call is a line of that machine at a reading, in nanoseconds since 1970.
/// A call takes time in proportion to what the table holds, and a sweep in proportion to its records times its collections. `NoMemory` is the only error, and leaves the table as it was.
#[derive(Drop, Debug)]
pub struct PlainTable {
    records: Vec<Record>,
    collections: Vec<Collection>,
    numbers: u64,
    revisions: u64,
    rounds: u64,
    alloc: Global,
}

impl Model for PlainTable {
    ghost use Rattle.keep_event.specs.Table.{State};
    ghost use Rattle.keep_plain_table.specs.Lines.{AreVersions};

    ghost Value = { State };

    ghost view = { λ t. record { records = t.records.items; collections = t.collections.items; numbers = t.numbers; revisions = t.revisions; rounds = t.rounds } };

    ghost invariant = { λ t. AreVersions t.revisions t.records.items };
}

impl PlainTable {
    /// An empty table. It takes no memory.
    pub fn new(alloc: Global) -> PlainTable
        ensures { result ≡ machine.empty }
    {
        PlainTable {
            records: Vec::new(alloc),
            collections: Vec::new(alloc),
            numbers: 0,
            revisions: 0,
            rounds: 0,
            alloc,
        }
    }

    /// Whether each counter is below 10^15 − 1, as the calls that draw a number require.
    pub fn has_room(&self) -> bool
        ensures { result ≡ machine.has_room self.now }
    {
        let most = 999_999_999_999_999;
        self.numbers < most && self.revisions < most && self.rounds < most
    }

    /// Makes the call that the query names, by a configuration: its token is known, and a save or an update is tested before it is made. Only a save, an update, a read and a scan may want memory.
    pub fn step(
        &mut self,
        config: &Config,
        reading: u64,
        query: &TableQuery,
    ) -> Result<TableAnswer, NoMemory>
        requires room { IsTrue (machine.has_room self.old) }
        requires reading { IsReading reading }
        requires asked { requests.MayAskTable query.now }
        ensures line { IsLine (requests.table_line config.now reading query.now self.old) self.old self.new result }
        ensures memory { takes_memory query.now ≡ false → IsOk result }
    {
        asked::step(self.alloc, self, config, reading, query)
    }

    /// Draws the number of the next round, from 1. It takes no memory.
    #[tactic(auto, unfolding(keep_event::specs::Table::begin_round))]
    pub fn begin_round(&mut self, reading: u64) -> TableAnswer
        requires { IsTrue (machine.has_room self.old) }
        ensures { reply result self.new ≡ machine.begin_round reading self.old }
    {
        self.rounds += 1;
        TableAnswer::Round {
            round: self.rounds,
            started: reading,
        }
    }

    /// Makes a collection of the owner's with one current record.
    #[tactic(auto, unfolding(keep_event::specs::Table::create))]
    pub fn create(&mut self, owner: TokenId, made: NewRecord) -> Result<TableAnswer, NoMemory>
        requires room { IsTrue (machine.has_room self.old) }
        ensures line { IsLine (machine.create owner made self.old) self.old self.new result }
    {
        let portable = made.portable;
        let number = self.numbers + 1;
        if self.collections.reserve(1).is_err() {
            return Err(NoMemory);
        }
        let row = new_record(number, 1, self.revisions + 1, made);
        if self.records.push(row).is_err() {
            return Err(NoMemory);
        }
        match self.collections.push(new_collection(number, owner)) {
            Ok(()) => {}
            Err(_) => unreachable!(),
        }
        self.numbers = number;
        self.revisions += 1;
        Ok(TableAnswer::Saved {
            number,
            version: 1,
            portable,
        })
    }

    // The collection, where it exists and is the token's.
    fn owned(&self, token: TokenId, number: u64) -> Result<Collection, TableAnswer>
        ensures { result ≡ machine.owned token number self.now }
    {
        let Some(collection) = collection_of(&self.collections, number) else {
            return Err(TableAnswer::NoSuch);
        };
        if is_owner(token, &collection) {
            Ok(collection)
        } else {
            Err(TableAnswer::NotOwner)
        }
    }

    // The same, where it isn't in the trash at the reading.
    fn updatable(
        &self,
        reading: u64,
        token: TokenId,
        number: u64,
    ) -> Result<Collection, TableAnswer>
        ensures { result ≡ machine.updatable reading token number self.now }
    {
        let collection = match self.owned(token, number) {
            Ok(collection) => collection,
            Err(refusal) => return Err(refusal),
        };
        match collection.trash_at {
            Some(at) if at <= reading => Err(TableAnswer::InTrash { at }),
            _ => Ok(collection),
        }
    }

    /// The refusal that an update would meet for its collection at the reading: NoSuch, NotOwner or InTrash, the first that holds. It takes no memory.
    pub fn may_update(&self, reading: u64, token: TokenId, collection: u64) -> Option<TableAnswer>
        ensures { result ≡ machine.refusal_of (machine.updatable reading token collection self.now) }
    {
        match self.updatable(reading, token, collection) {
            Ok(_) => None,
            Err(refusal) => Some(refusal),
        }
    }

    /// Makes a new current record of a collection: the one before becomes a version, and the collection's versions that are due go. Refuses with NoSuch, NotOwner, InTrash or TooManyVersions, the first that holds.
    #[tactic(auto, unfolding(keep_event::specs::Table::update))]
    pub fn update(
        &mut self,
        rules: TableRules,
        reading: u64,
        token: TokenId,
        collection: u64,
        made: NewRecord,
        preserve: bool,
    ) -> Result<TableAnswer, NoMemory>
        requires room { IsTrue (machine.has_room self.old) }
        requires reading { IsReading reading }
        ensures line { IsLine (machine.update rules reading token collection made preserve self.old) self.old self.new result }
    {
        if let Err(refusal) = self.updatable(reading, token, collection) {
            return Ok(refusal);
        }
        let held = versions_held(&self.records, reading, collection);
        if held >= u64::from(rules.versions) {
            return Ok(TableAnswer::TooManyVersions { held });
        }
        self.renew(rules, reading, collection, made, preserve)
    }

    // The same, where nothing refuses it.
    fn renew(
        &mut self,
        rules: TableRules,
        reading: u64,
        collection: u64,
        made: NewRecord,
        preserve: bool,
    ) -> Result<TableAnswer, NoMemory>
        requires room { IsTrue (machine.has_room self.old) }
        requires reading { IsReading reading }
        ensures line { IsLine (machine.with_update rules reading collection made preserve self.old) self.old self.new result }
    {
        let portable = made.portable;
        let version = current_version(&self.records, collection) + 1;
        let standing = kept_until(rules, reading, preserve);
        let row = new_record(collection, version, self.revisions + 1, made);
        if renew(&mut self.records, reading, standing, row).is_err() {
            return Err(NoMemory);
        }
        self.revisions += 1;
        Ok(TableAnswer::Updated {
            number: collection,
            version,
            portable,
        })
    }

    /// Reads a collection's current record, or the version asked for where it is current or preserved. Refuses with NoSuch or NotOwner.
    #[tactic(auto, unfolding(keep_event::specs::Table::read))]
    pub fn read(
        &self,
        rules: TableRules,
        reading: u64,
        token: TokenId,
        collection: u64,
        version: Option<u64>,
    ) -> Result<TableAnswer, NoMemory>
        requires { IsReading reading }
        ensures line { IsLine (machine.read rules reading token collection version self.now) self.now self.now result }
    {
        let Some(row) = readable(&self.records, collection, version) else {
            return Ok(TableAnswer::NoSuch);
        };
        let found = match self.owned(token, collection) {
            Ok(found) => found,
            Err(refusal) => return Ok(refusal),
        };
        row_answer(self.alloc, rules, reading, row, &found)
    }

    /// Sets the times from which a collection is in the trash and from which a sweep removes it. Refuses with NoSuch or NotOwner. It takes no memory.
    #[tactic(auto, unfolding(keep_event::specs::Table::set_trash))]
    pub fn set_trash(
        &mut self,
        rules: TableRules,
        reading: u64,
        token: TokenId,
        collection: u64,
        trash_at: u64,
        delete_at: u64,
    ) -> TableAnswer
        requires reading { IsReading reading }
        requires trash_at { IsReading trash_at }
        ensures line { reply result self.new ≡ machine.set_trash rules reading token collection trash_at delete_at self.old }
    {
        if let Err(refusal) = self.owned(token, collection) {
            return refusal;
        }
        let delete_at = delete_at
            .max(reading + grace_nanos(rules.ttl, rules.skew))
            .max(trash_at + guard_nanos(rules.skew));
        set_times(
            &mut self.collections,
            collection,
            Some(trash_at),
            Some(delete_at),
        );
        TableAnswer::TrashSet {
            trash_at,
            delete_at,
        }
    }

    /// Takes both times of a collection away. Refuses with NoSuch or NotOwner. It takes no memory.
    #[tactic(auto, unfolding(keep_event::specs::Table::restore))]
    pub fn restore(&mut self, token: TokenId, collection: u64) -> TableAnswer
        ensures { reply result self.new ≡ machine.restore token collection self.old }
    {
        if let Err(refusal) = self.owned(token, collection) {
            return refusal;
        }
        set_times(&mut self.collections, collection, None, None);
        TableAnswer::Restored
    }

    /// Removes the versions that are due at the reading, and the collections whose `delete_at` is below it with all their records. It takes no memory.
    #[tactic(auto, unfolding(keep_event::specs::Table::sweep))]
    pub fn sweep(&mut self, reading: u64) -> TableAnswer
        ensures { reply result self.new ≡ machine.sweep reading self.old }
    {
        let versions = count_swept(&self.records, &self.collections, reading);
        let collections = count_gone(&self.collections, reading);
        drop_swept(&mut self.records, &self.collections, reading);
        drop_gone(&mut self.collections, reading);
        TableAnswer::Swept {
            versions,
            collections,
        }
    }

    /// Lists the records whose revision is above `after`, at most `limit` of them. It copies the rows of all of them before it cuts them to the limit.
    #[tactic(auto, unfolding(keep_event::specs::Table::scan))]
    pub fn scan(&self, after: u64, limit: u32) -> Result<TableAnswer, NoMemory>
        ensures line { IsLine (machine.scan after limit self.now) self.now self.now result }
    {
        let mut rows = rows_above(self.alloc, &self.records, after)?;
        let last = rows.len() <= limit as usize;
        rows.truncate(limit as usize);
        Ok(TableAnswer::Rows {
            rows: Items::of(rows),
            last,
        })
    }
}
