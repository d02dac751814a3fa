// What the calls of the table do to its records and collections.
ghost use Rattle.std.specs.Prelude.{◌≡◌, ◌==◌, ◌<◌, ◌≤◌, ◌+◌, ◌*◌, ◌/◌, ◌^◌, ◌++◌, ◌∷◌, [], length, take, nat_lt, nat_le, Option, option_map, IfOk, map, Some, None, count_by, filter, not, ◌&&◌, ◌||◌, true, false, is_ok, if◌then◌else◌};
ghost use Rattle.std.specs.List.{find, AllByRecursion};
ghost use Rattle.std.specs.Option.{option_map_or};
ghost use Rattle.keep_event.specs.Table as machine;
ghost use Rattle.keep_spec.specs.Times.{IsReading};
ghost use Rattle.keep_table.specs.Contents.{RisesAbove, AreSuperseded, AreFew};
ghost use Rattle.keep_table.specs.Maps.{revisions_of, AreBefore};

use crate::collections::Collections;
use crate::records::Records;
use keep_event::{Collection, NewRecord, Record, ScanRow, Standing, TableAnswer, TableRules};
use keep_spec::{Items, NANOS_PER_SECOND, NoMemory, TokenId, grace_nanos};
use std::alloc::Global;

pub(crate) fn new_record(number: u64, version: u64, revision: u64, made: NewRecord) -> Record
    ensures { result ≡ machine.new_record number version revision made }
{
    Record {
        collection: number,
        version,
        revision,
        made,
        standing: Standing::Current,
    }
}

pub(crate) fn new_collection(number: u64, owner: TokenId) -> Collection
    ensures { result ≡ machine.new_collection number owner }
{
    Collection {
        number,
        owner,
        trash_at: None,
        delete_at: None,
    }
}

pub(crate) fn is_due(reading: u64, standing: &Standing) -> bool
    ensures { result ≡ machine.is_due reading standing.now }
{
    match standing {
        Standing::Current => false,
        Standing::Kept { until } => *until < reading,
        Standing::Preserved => false,
    }
}

/// Returns how many versions of a collection aren't due at a reading, where they are as many as the rules allow. A collection has no more than that, so where one of them is due the others are fewer.
pub(crate) fn too_many(records: &Records, versions: u64, reading: u64, number: u64) -> Option<u64>
    requires superseded { AreSuperseded records.now }
    requires few { AreFew versions records.now }
    ensures { result ≡ (if nat_le versions (count_by (machine.is_held reading number) records.now) then Some (count_by (machine.is_held reading number) records.now) else None) }
{
    let held = records.versions_of(number);
    if held >= versions && records.first_due(number, reading).is_none() {
        Some(held)
    } else {
        None
    }
}

pub(crate) fn is_in_trash(reading: u64, collection: &Collection) -> bool
    ensures { result ≡ machine.is_in_trash reading collection.now }
{
    match collection.trash_at {
        Some(at) => at <= reading,
        None => false,
    }
}

pub(crate) fn is_owner(token: TokenId, collection: &Collection) -> bool
    ensures { result ≡ machine.is_owner token collection.now }
{
    token.number == 0 || token.number == collection.owner.number
}

/// Returns the version of a collection's current record, or 0 where it has none.
pub(crate) fn current_version(records: &Records, number: u64) -> u64
    requires { AreSuperseded records.now }
    ensures version { result ≡ option_map_or (λ r. r.version) (find (machine.is_current_of number) records.now) 0 }
    ensures greatest { AreBefore number (result + 1) records.now }
{
    match records.current_of(number) {
        Some(row) => row.version,
        None => 0,
    }
}

/// Returns the revision of a collection's current record, or 0 where it has none.
fn current_revision(records: &Records, number: u64) -> u64
    requires { AreSuperseded records.now }
    ensures { result ≡ option_map_or (λ r. r.revision) (find (machine.is_current_of number) records.now) 0 }
{
    match records.current_of(number) {
        Some(row) => row.revision,
        None => 0,
    }
}

/// Makes a record the current one of its collection: the versions that are due go, and the current record becomes a version. Where memory is refused, nothing changes.
pub(crate) fn renew(
    records: &mut Records,
    reading: u64,
    standing: Standing,
    row: Record,
) -> Result<(), NoMemory>
    requires positive { 0 < row.revision }
    requires newest { AllByRecursion (λ r. r.revision < row.revision) records.old }
    requires rising { RisesAbove 0 (revisions_of records.old) }
    requires versions { AreBefore row.collection row.version records.old }
    requires current { machine.is_current row.standing ≡ true }
    requires superseded { AreSuperseded records.old }
    requires later { machine.is_due reading standing ≡ false }
    ensures { records.new ≡ (if is_ok result then map (machine.superseded row.collection standing) (filter (λ r. not (machine.is_due_of reading row.collection r)) records.old) ++ row ∷ [] else records.old) }
{
    let number = row.collection;
    let revision = row.revision;
    let before = current_revision(records, number);
    if records.add(row).is_err() {
        return Err(NoMemory);
    }
    if records.mark(before, standing).is_err() {
        records.drop_one(revision);
        return Err(NoMemory);
    }
    drop_due(records, reading, number);
    Ok(())
}

/// Removes the versions of a collection that are due at a reading.
fn drop_due(records: &mut Records, reading: u64, number: u64)
    ensures { records.new ≡ filter (λ r. not (machine.is_due_of reading number r)) records.old }
{
    while let Some(revision) = records.first_due(number, reading) {
        records.drop_one(revision);
    }
}

fn is_gone(reading: u64, collection: &Collection) -> bool
    ensures { result ≡ machine.is_gone reading collection.now }
{
    match collection.delete_at {
        Some(at) => at < reading,
        None => false,
    }
}

/// Removes the collections that go at a reading, and returns how many went.
pub(crate) fn drop_gone(collections: &mut Collections, reading: u64) -> u64
    ensures gone { result ≡ count_by (machine.is_gone reading) collections.old }
    ensures rest { collections.new ≡ filter (λ x. not (machine.is_gone reading x)) collections.old }
{
    let before = collections.len();
    let mut after = 0;
    while let Some(collection) = collections.next_above(after) {
        after = collection.number;
        if is_gone(reading, &collection) {
            collections.drop_one(after);
        }
    }
    (before - collections.len()) as u64
}

fn goes(reading: u64, collections: &Collections, row: &Record) -> bool
    ensures { result ≡ machine.goes reading collections.now row.now }
{
    match collections.get(row.collection) {
        Some(collection) => is_gone(reading, &collection),
        None => false,
    }
}

fn is_swept(reading: u64, collections: &Collections, row: &Record) -> bool
    ensures { result ≡ machine.is_swept reading collections.now row.now }
{
    !goes(reading, collections, row) && is_due(reading, &row.standing)
}

fn outlasts(reading: u64, collections: &Collections, row: &Record) -> bool
    ensures { result ≡ machine.outlasts reading collections.now row.now }
{
    !goes(reading, collections, row) && !is_due(reading, &row.standing)
}

/// Returns how many versions are due at a reading whose collections stay.
pub(crate) fn count_swept(records: &Records, collections: &Collections, reading: u64) -> u64
    ensures { result ≡ count_by (machine.is_swept reading collections.now) records.now }
{
    let mut swept = 0;
    let mut after = 0;
    while let Some(row) = records.next_above(after) {
        after = row.revision;
        if is_swept(reading, collections, row) {
            swept += 1;
        }
    }
    swept
}

/// Removes the versions that are due at a reading, and the records whose collections go.
pub(crate) fn drop_swept(records: &mut Records, collections: &Collections, reading: u64)
    requires { RisesAbove 0 (revisions_of records.old) }
    ensures { records.new ≡ filter (machine.outlasts reading collections.now) records.old }
{
    let mut after = 0;
    while let Some(row) = records.next_above(after) {
        after = row.revision;
        if !outlasts(reading, collections, row) {
            records.drop_one(after);
        }
    }
}

/// Returns the standing of a record that is superseded at a reading.
pub(crate) fn kept_until(rules: &TableRules, reading: u64, preserve: bool) -> Standing
    requires { IsReading reading }
    ensures { result ≡ machine.kept_until rules.now reading preserve }
{
    if preserve {
        Standing::Preserved
    } else {
        Standing::Kept {
            until: reading + grace_nanos(rules.ttl, rules.skew),
        }
    }
}

// Whether a version of this standing can be read by its number.
fn is_readable(standing: &Standing) -> bool
    ensures { result ≡ (machine.is_current standing.now || machine.is_preserved standing.now) }
{
    match standing {
        Standing::Current => true,
        Standing::Kept { until: _ } => false,
        Standing::Preserved => true,
    }
}

/// Returns a collection's current record, or the version asked for where it can be read.
pub(crate) fn version_of(records: &Records, number: u64, version: Option<u64>) -> Option<&Record>
    requires { AreSuperseded records.now }
    ensures { option_map (λ r. r.now) result ≡ find (machine.is_readable number version) records.now }
{
    match version {
        None => records.current_of(number),
        Some(version) => readable_at(records, number, version),
    }
}

fn readable_at(records: &Records, number: u64, version: u64) -> Option<&Record>
    ensures { option_map (λ r. r.now) result ≡ find (machine.is_readable number (Some version)) records.now }
{
    let Some(row) = records.version_at(number, version) else {
        return None;
    };
    if is_readable(&row.standing) {
        Some(row)
    } else {
        None
    }
}

// A reading in whole seconds.
fn seconds(reading: u64) -> u64
    requires { IsReading reading }
    ensures seconds { result ≡ reading / NANOS_PER_SECOND }
    ensures bound { result ≤ 4 * 10 ^ 9 }
{
    reading / NANOS_PER_SECOND
}

// The expiry, in seconds, of what is signed at a reading.
fn signed_until(rules: &TableRules, reading: u64) -> u64
    requires { IsReading reading }
    ensures until { result ≡ machine.signed_until rules.now reading }
    ensures bound { result < 2 ^ 32 }
{
    let until = seconds(reading) + u64::from(rules.ttl);
    until.min(4_294_967_295)
}

fn expiry_of(rules: &TableRules, reading: u64, collection: &Collection) -> Option<u32>
    requires { IsReading reading }
    ensures { result ≡ machine.expiry_of rules.now reading collection.now }
{
    if is_in_trash(reading, collection) {
        return None;
    }
    let signed = signed_until(rules, reading);
    match collection.trash_at {
        Some(at) => Some(signed.min(at / NANOS_PER_SECOND) as u32),
        None => Some(signed as u32),
    }
}

/// Returns what a read answers of a record of a collection.
pub(crate) fn row_answer(
    alloc: Global,
    rules: &TableRules,
    reading: u64,
    row: &Record,
    collection: &Collection,
) -> Result<TableAnswer, NoMemory>
    requires { IsReading reading }
    ensures { IfOk result (λ a. a ≡ machine.row_answer rules.now reading row.now collection.now) }
{
    let text = row.made.text.duplicate(alloc)?;
    Ok(TableAnswer::Row {
        number: row.collection,
        version: row.version,
        expiry: expiry_of(rules, reading, collection),
        want: row.made.want,
        trash_at: collection.trash_at,
        text,
    })
}

fn row_of(alloc: Global, row: &Record) -> Result<ScanRow, NoMemory>
    ensures { IfOk result (λ r. r ≡ machine.row_of row.now) }
{
    let digests = Vec::from_slice(alloc, row.made.named.as_slice())?;
    Ok(ScanRow {
        revision: row.revision,
        digests: Items::of(digests),
        want: row.made.want,
    })
}

/// Returns the first rows above a revision, at most `limit` of them, and whether there are no more.
pub(crate) fn rows_after(
    alloc: Global,
    records: &Records,
    after: u64,
    limit: usize,
) -> Result<(Items<ScanRow>, bool), NoMemory>
    ensures rows { IfOk result (λ r. r.0 ≡ take limit (machine.rows_above after records.now)) }
    ensures last { IfOk result (λ r. r.1 ≡ nat_le (length (machine.rows_above after records.now)) limit) }
{
    let mut rows = Vec::new(alloc);
    let mut at = after;
    while let Some(row) = records.next_above(at) {
        if rows.len() >= limit {
            return Ok((Items::of(rows), false));
        }
        let next = row_of(alloc, row)?;
        if rows.push(next).is_err() {
            return Err(NoMemory);
        }
        at = row.revision;
    }
    Ok((Items::of(rows), true))
}
