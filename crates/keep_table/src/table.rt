// The table and its calls.
use crate::changes;
use crate::collections::Collections;
use crate::records::Records;
use keep_event::{Collection, NewRecord, TableAnswer, TableRules};
use keep_spec::{Digest, NoMemory, TokenId, grace_nanos, guard_nanos};
use std::alloc::Global;
use std::marker::Model;

/// The table of collections, with the rules that it was made with. Contracts see the rules, the records in the order of their revisions, the collections in that of their numbers, and how many numbers, revisions and rounds were drawn. A refusal, and a call that is refused memory, changes nothing.
#[derive(Drop, Debug)]
pub struct Table {
    alloc: Global,
    rules: TableRules,
    records: Records,
    collections: Collections,
    // how many were drawn
    numbers: u64,
    revisions: u64,
    rounds: u64,
}

impl Model for Table {
    ghost use Rattle.keep_table.specs.Contents.{Contents, AreOrderly, AreDrawn, AreFew};

    ghost Value = { Contents };

    ghost view = { λ t. record { rules = t.rules; state = record { records = t.records; collections = t.collections; numbers = t.numbers; revisions = t.revisions; rounds = t.rounds } } };

    ghost invariant = { λ t. AreOrderly t.numbers t.revisions t.records × AreDrawn t.numbers t.collections × AreFew t.rules.versions t.records };
}

impl Table {
    ghost use Rattle.std.specs.Prelude.{◌≡◌, ◌≤◌, ◌<◌, IsTrue, IfOk, map};
    ghost use Rattle.keep_event.specs.Table as machine;
    ghost use Rattle.keep_event.specs.Plan.{wanted_in};
    ghost use Rattle.std.specs.Bool.{OnTrue};
    ghost use Rattle.keep_spec.specs.Times.{IsReading};
    ghost use Rattle.keep_table.specs.Contents.{IsReply, IsLine, is_updated, AreRowsAbove};

    /// Makes an empty table. Takes no memory.
    pub fn new(alloc: Global, rules: TableRules) -> Table
        ensures rules { result.rules ≡ rules }
        ensures empty { result.state ≡ machine.empty }
    {
        Table {
            alloc,
            rules,
            records: Records::new(alloc),
            collections: Collections::new(alloc),
            numbers: 0,
            revisions: 0,
            rounds: 0,
        }
    }

    /// Returns whether each counter is below 10^15 − 1, as the calls that draw a number require.
    pub fn has_room(&self) -> bool
        ensures { result ≡ machine.has_room self.now.state }
    {
        let most = 999_999_999_999_999;
        self.numbers < most && self.revisions < most && self.rounds < most
    }

    /// Draws the number of the next round, from 1, and returns it as Round with the reading (nanoseconds since 1970). Takes no memory, and so never fails.
    #[tactic(auto, unfolding(keep_event::specs::Table::begin_round))]
    pub fn begin_round(&mut self, reading: u64) -> TableAnswer
        requires { IsTrue (machine.has_room self.old.state) }
        ensures { IsReply (machine.begin_round reading self.old.state) self.old self.new result }
    {
        self.rounds += 1;
        TableAnswer::Round {
            round: self.rounds,
            started: reading,
        }
    }

    /// Makes a collection of the owner's with one current record, and returns Saved.
    #[tactic(auto, unfolding(keep_event::specs::Table::create))]
    pub fn create(&mut self, owner: TokenId, made: NewRecord) -> Result<TableAnswer, NoMemory>
        requires room { IsTrue (machine.has_room self.old.state) }
        requires owner { owner.number ≤ self.old.rules.tokens }
        ensures { IsLine (machine.create owner made self.old.state) self.old self.new result }
    {
        let portable = made.portable;
        let number = self.numbers + 1;
        if self
            .collections
            .add(changes::new_collection(number, owner))
            .is_err()
        {
            return Err(NoMemory);
        }
        let record = changes::new_record(number, 1, self.revisions + 1, made);
        if self.records.add(record).is_err() {
            self.collections.drop_one(number);
            return Err(NoMemory);
        }
        self.numbers = number;
        self.revisions += 1;
        Ok(TableAnswer::Saved {
            number,
            version: 1,
            portable,
        })
    }

    // The collection, where it exists and is the token's.
    fn owned(&self, token: TokenId, number: u64) -> Result<Collection, TableAnswer>
        ensures { result ≡ machine.owned token number self.now.state }
    {
        let Some(collection) = self.collections.get(number) else {
            return Err(TableAnswer::NoSuch);
        };
        if changes::is_owner(token, &collection) {
            Ok(collection)
        } else {
            Err(TableAnswer::NotOwner)
        }
    }

    /// Sets the times from which a collection is in the trash and from which a sweep removes it (nanoseconds since 1970), and returns TrashSet. `delete_at` is raised, if needed, to the reading and the grace, and to `trash_at` and the guard: past the expiry of every signature that a read has issued, where readings go back by no more than the skew. Refuses with NoSuch or NotOwner.
    #[tactic(auto, unfolding(keep_event::specs::Table::set_trash))]
    pub fn set_trash(
        &mut self,
        reading: u64,
        token: TokenId,
        collection: u64,
        trash_at: u64,
        delete_at: u64,
    ) -> Result<TableAnswer, NoMemory>
        requires reading { IsReading reading }
        requires trash_at { IsReading trash_at }
        ensures { IsLine (machine.set_trash self.old.rules reading token collection trash_at delete_at self.old.state) self.old self.new result }
    {
        if let Err(refusal) = self.owned(token, collection) {
            return Ok(refusal);
        }
        let delete_at = delete_at
            .max(reading + grace_nanos(self.rules.ttl, self.rules.skew))
            .max(trash_at + guard_nanos(self.rules.skew));
        self.collections
            .set_times(collection, Some(trash_at), Some(delete_at));
        Ok(TableAnswer::TrashSet {
            trash_at,
            delete_at,
        })
    }

    /// Takes both times of a collection away, and returns Restored. Refuses with NoSuch or NotOwner. The reading has no part in the answer.
    #[tactic(auto, unfolding(keep_event::specs::Table::restore))]
    pub fn restore(
        &mut self,
        _reading: u64,
        token: TokenId,
        collection: u64,
    ) -> Result<TableAnswer, NoMemory>
        ensures { IsLine (machine.restore token collection self.old.state) self.old self.new result }
    {
        if let Err(refusal) = self.owned(token, collection) {
            return Ok(refusal);
        }
        self.collections.set_times(collection, None, None);
        Ok(TableAnswer::Restored)
    }

    // The collection, where it exists, is the token's and isn't in the trash.
    fn updatable(
        &self,
        reading: u64,
        token: TokenId,
        number: u64,
    ) -> Result<Collection, TableAnswer>
        ensures { result ≡ machine.updatable reading token number self.now.state }
    {
        let collection = match self.owned(token, number) {
            Ok(collection) => collection,
            Err(refusal) => return Err(refusal),
        };
        match collection.trash_at {
            Some(at) if at <= reading => Err(TableAnswer::InTrash { at }),
            _ => Ok(collection),
        }
    }

    /// Returns the refusal that an update would meet for its collection at the reading (nanoseconds since 1970): NoSuch, NotOwner or InTrash, the first that holds. Takes no memory.
    pub fn may_update(&self, reading: u64, token: TokenId, collection: u64) -> Option<TableAnswer>
        ensures { result ≡ machine.refusal_of (machine.updatable reading token collection self.now.state) }
    {
        match self.updatable(reading, token, collection) {
            Ok(_) => None,
            Err(refusal) => Some(refusal),
        }
    }

    /// Removes the versions that are due at the reading (nanoseconds since 1970), and the collections whose `delete_at` is below it with all their records, and returns Swept.
    #[tactic(auto, unfolding(keep_event::specs::Table::sweep))]
    pub fn sweep(&mut self, reading: u64) -> Result<TableAnswer, NoMemory>
        ensures { IsLine (machine.sweep reading self.old.state) self.old self.new result }
    {
        let versions = changes::count_swept(&self.records, &self.collections, reading);
        changes::drop_swept(&mut self.records, &self.collections, reading);
        let collections = changes::drop_gone(&mut self.collections, reading);
        Ok(TableAnswer::Swept {
            versions,
            collections,
        })
    }

    /// Makes a new current record of a collection, and returns Updated: the one before becomes a version, kept until the reading (nanoseconds since 1970) and the grace, or preserved where `preserve` asks for it; the collection's versions that are due go first. Refuses with NoSuch, NotOwner, InTrash or TooManyVersions, the first that holds.
    #[tactic(auto, unfolding(keep_event::specs::Table::update))]
    pub fn update(
        &mut self,
        reading: u64,
        token: TokenId,
        collection: u64,
        made: NewRecord,
        preserve: bool,
    ) -> Result<TableAnswer, NoMemory>
        requires room { IsTrue (machine.has_room self.old.state) }
        requires reading { IsReading reading }
        ensures line { IsLine (machine.update self.old.rules reading token collection made preserve self.old.state) self.old self.new result }

        // An update that is made leaves no more versions than the rules allow.
        ensures versions_bounded { IfOk result (λ answer. OnTrue (is_updated answer) (machine.versions_held reading collection self.new.state ≤ self.new.rules.versions)) }
    {
        if let Err(refusal) = self.updatable(reading, token, collection) {
            return Ok(refusal);
        }
        let versions = u64::from(self.rules.versions);
        if let Some(held) = changes::too_many(&self.records, versions, reading, collection) {
            return Ok(TableAnswer::TooManyVersions { held });
        }
        let portable = made.portable;
        let version = changes::current_version(&self.records, collection) + 1;
        let standing = changes::kept_until(&self.rules, reading, preserve);
        let row = changes::new_record(collection, version, self.revisions + 1, made);
        if changes::renew(&mut self.records, reading, standing, row).is_err() {
            return Err(NoMemory);
        }
        self.revisions += 1;
        Ok(TableAnswer::Updated {
            number: collection,
            version,
            portable,
        })
    }

    /// Reads a collection's current record, or the version asked for where it is current or preserved, and returns Row with the expiry of the signatures that its reader gets. Refuses with NoSuch or NotOwner. Changes nothing.
    #[tactic(auto, unfolding(keep_event::specs::Table::read))]
    pub fn read(
        &mut self,
        reading: u64,
        token: TokenId,
        collection: u64,
        version: Option<u64>,
    ) -> Result<TableAnswer, NoMemory>
        requires { IsReading reading }
        ensures { IsLine (machine.read self.old.rules reading token collection version self.old.state) self.old self.new result }
    {
        self.answer_of_read(reading, token, collection, version)
    }

    fn answer_of_read(
        &self,
        reading: u64,
        token: TokenId,
        collection: u64,
        version: Option<u64>,
    ) -> Result<TableAnswer, NoMemory>
        requires { IsReading reading }
        ensures { IfOk result (λ answer. machine.read self.now.rules reading token collection version self.now.state ≡ machine.stays answer self.now.state) }
    {
        let Some(row) = changes::version_of(&self.records, collection, version) else {
            return Ok(TableAnswer::NoSuch);
        };
        let found = match self.owned(token, collection) {
            Ok(found) => found,
            Err(refusal) => return Ok(refusal),
        };
        changes::row_answer(self.alloc, &self.rules, reading, row, &found)
    }

    /// Returns Rows: the records whose revision is above `after`, ascending by revision, at most `limit` of them, and whether no further one is left. The round has no part in the answer. Changes nothing.
    #[tactic(auto, unfolding(keep_event::specs::Table::scan))]
    pub fn scan(&mut self, _round: u64, after: u64, limit: u32) -> Result<TableAnswer, NoMemory>
        requires { 0 < limit }
        ensures line { IsLine (machine.scan after limit self.old.state) self.old self.new result }
        ensures rows_rise { IfOk result (AreRowsAbove after) }
    {
        let (rows, last) = changes::rows_after(self.alloc, &self.records, after, limit as usize)?;
        Ok(TableAnswer::Rows { rows, last })
    }

    /// Returns the greatest number of copies that the held records want of a digest, whatever their standing, or 0 where none names it. Takes no memory.
    pub fn wanted(&self, digest: &Digest) -> u8
        ensures { result ≡ wanted_in digest.now (map machine.row_of self.now.state.records) }
    {
        self.records.wanted(digest)
    }
}
