// The records of a table as a plain list; each look-up goes through the list.
ghost use Rattle.std.specs.Prelude.{◌≡◌, ◌<◌, ◌≤◌, ◌^◌, ◌/◌, ◌*◌, ◌&&◌, ◌++◌, ◌∷◌, [], true, false, IfOk, OnOk, OnErr, not, map, filter, count_by, option_map};
ghost use Rattle.std.specs.List.{find};
ghost use Rattle.std.specs.Option.{option_map_or};
ghost use Rattle.keep_spec.specs.Times.{IsReading};
ghost use Rattle.keep_event.specs.Table as machine;

use crate::collections::{collection_of, is_gone, is_in_trash};
use keep_event::{Collection, NewRecord, Record, ScanRow, Standing, TableAnswer, TableRules};
use keep_spec::{Items, NANOS_PER_SECOND, NoMemory, grace_nanos};
use std::alloc::Global;

/// A current record.
pub(crate) fn new_record(number: u64, version: u64, revision: u64, made: NewRecord) -> Record
    ensures { result ≡ machine.new_record number version revision made }
{
    Record {
        collection: number,
        version,
        revision,
        made,
        standing: Standing::Current,
    }
}

fn is_current(standing: &Standing) -> bool
    ensures { result ≡ machine.is_current standing.now }
{
    match standing {
        Standing::Current => true,
        Standing::Kept { until: _ } => false,
        Standing::Preserved => false,
    }
}

fn is_preserved(standing: &Standing) -> bool
    ensures { result ≡ machine.is_preserved standing.now }
{
    match standing {
        Standing::Current => false,
        Standing::Kept { until: _ } => false,
        Standing::Preserved => true,
    }
}

fn is_due(reading: u64, standing: &Standing) -> bool
    ensures { result ≡ machine.is_due reading standing.now }
{
    match standing {
        Standing::Current => false,
        Standing::Kept { until } => *until < reading,
        Standing::Preserved => false,
    }
}

fn is_current_of(number: u64, row: &Record) -> bool
    ensures { result ≡ machine.is_current_of number row.now }
{
    row.collection == number && is_current(&row.standing)
}

fn is_due_of(reading: u64, number: u64, row: &Record) -> bool
    ensures { result ≡ machine.is_due_of reading number row.now }
{
    row.collection == number && is_due(reading, &row.standing)
}

fn is_held(reading: u64, number: u64, row: &Record) -> bool
    ensures { result ≡ machine.is_held reading number row.now }
{
    row.collection == number && !is_current(&row.standing) && !is_due(reading, &row.standing)
}

/// The version of a collection's current record, or 0 where it has none.
pub(crate) fn current_version(records: &[Record], number: u64) -> u64
    ensures { result ≡ option_map_or (λ r. r.version) (find (machine.is_current_of number) records.now) 0 }
{
    for row in records {
        if is_current_of(number, row) {
            return row.version;
        }
    }
    0
}

/// How many versions of a collection aren't due at a reading.
pub(crate) fn versions_held(records: &[Record], reading: u64, number: u64) -> u64
    ensures { result ≡ count_by (machine.is_held reading number) records.now }
{
    let mut held = 0;
    for row in records {
        if is_held(reading, number, row) {
            held += 1;
        }
    }
    held
}

// Removes the versions of a collection that are due at a reading.
fn drop_due(records: &mut Vec<Record>, reading: u64, number: u64)
    ensures { records.new.items ≡ filter (λ r. not (machine.is_due_of reading number r)) records.old.items }
{
    records.retain(|row| !is_due_of(reading, number, row));
}

// Gives the current record of a collection another standing.
fn supersede(records: &mut [Record], number: u64, standing: Standing)
    ensures { records.new ≡ map (machine.superseded number standing) records.old }
{
    for row in records.iter_mut() {
        mark(row, number, standing);
    }
}

// Gives a record another standing, where it is the current one of a collection.
fn mark(row: &mut Record, number: u64, standing: Standing)
    ensures { row.new ≡ machine.superseded number standing row.old }
{
    if is_current_of(number, row) {
        row.standing = standing;
    }
}

/// Makes a record the current one of its collection: the one before gets this standing, and the collection's versions that are due at a reading go. Where memory is refused, nothing changes.
pub(crate) fn renew(
    records: &mut Vec<Record>,
    reading: u64,
    standing: Standing,
    row: Record,
) -> Result<(), NoMemory>
    requires current { machine.is_current row.standing ≡ true }
    requires later { machine.is_due reading standing ≡ false }
    ensures ok { OnOk result (records.new.items ≡ map (machine.superseded row.collection standing) (filter (λ r. not (machine.is_due_of reading row.collection r)) records.old.items) ++ row ∷ []) }
    ensures err { OnErr result (records.new.items ≡ records.old.items) }
{
    let number = row.collection;
    if records.reserve(1).is_err() {
        return Err(NoMemory);
    }
    supersede(records.as_mut_slice(), number, standing);
    match records.push(row) {
        Ok(()) => {}
        Err(_) => unreachable!(),
    }
    drop_due(records, reading, number);
    Ok(())
}

fn is_readable(number: u64, version: Option<u64>, row: &Record) -> bool
    ensures { result ≡ machine.is_readable number version row.now }
{
    match version {
        None => is_current_of(number, row),
        Some(version) => {
            row.collection == number
                && row.version == version
                && (is_current(&row.standing) || is_preserved(&row.standing))
        }
    }
}

/// A collection's current record, or the version asked for where it is current or preserved.
pub(crate) fn readable(records: &[Record], number: u64, version: Option<u64>) -> Option<&Record>
    ensures { option_map (λ r. r.now) result ≡ find (machine.is_readable number version) records.now }
{
    for row in records {
        if is_readable(number, version, row) {
            return Some(row);
        }
    }
    None
}

fn goes(reading: u64, collections: &[Collection], row: &Record) -> bool
    ensures { result ≡ machine.goes reading collections.now row.now }
{
    match collection_of(collections, row.collection) {
        Some(collection) => is_gone(reading, &collection),
        None => false,
    }
}

fn is_swept(reading: u64, collections: &[Collection], row: &Record) -> bool
    ensures { result ≡ machine.is_swept reading collections.now row.now }
{
    !goes(reading, collections, row) && is_due(reading, &row.standing)
}

fn outlasts(reading: u64, collections: &[Collection], row: &Record) -> bool
    ensures { result ≡ machine.outlasts reading collections.now row.now }
{
    !goes(reading, collections, row) && !is_due(reading, &row.standing)
}

/// How many versions are due at a reading whose collections stay.
pub(crate) fn count_swept(records: &[Record], collections: &[Collection], reading: u64) -> u64
    ensures { result ≡ count_by (machine.is_swept reading collections.now) records.now }
{
    let mut swept = 0;
    for row in records {
        if is_swept(reading, collections, row) {
            swept += 1;
        }
    }
    swept
}

/// Removes the versions that are due at a reading, and the records whose collections go.
pub(crate) fn drop_swept(records: &mut Vec<Record>, collections: &[Collection], reading: u64)
    ensures { records.new.items ≡ filter (machine.outlasts reading collections.now) records.old.items }
{
    records.retain(|row| outlasts(reading, collections, row));
}

fn row_of(alloc: Global, row: &Record) -> Result<ScanRow, NoMemory>
    ensures { IfOk result (λ r. r ≡ machine.row_of row.now) }
{
    let digests = Vec::from_slice(alloc, row.made.named.as_slice())?;
    Ok(ScanRow {
        revision: row.revision,
        digests: Items::of(digests),
        want: row.made.want,
    })
}

/// The standing of a record that is superseded at a reading, in nanoseconds since 1970.
pub(crate) fn kept_until(rules: TableRules, reading: u64, preserve: bool) -> Standing
    requires { IsReading reading }
    ensures until { result ≡ machine.kept_until rules reading preserve }
    ensures later { machine.is_due reading result ≡ false }
{
    if preserve {
        Standing::Preserved
    } else {
        Standing::Kept {
            until: reading + grace_nanos(rules.ttl, rules.skew),
        }
    }
}

// The expiry, in seconds, of what is signed at a reading.
fn signed_until(rules: TableRules, reading: u64) -> u64
    requires { IsReading reading }
    ensures until { result ≡ machine.signed_until rules reading }
    ensures bound { result < 2 ^ 32 }
{
    let until = reading / NANOS_PER_SECOND + u64::from(rules.ttl);
    until.min(4_294_967_295)
}

fn expiry_of(rules: TableRules, reading: u64, collection: &Collection) -> Option<u32>
    requires { IsReading reading }
    ensures { result ≡ machine.expiry_of rules reading collection.now }
{
    if is_in_trash(reading, collection) {
        return None;
    }
    let signed = signed_until(rules, reading);
    match collection.trash_at {
        Some(at) => Some(signed.min(at / NANOS_PER_SECOND) as u32),
        None => Some(signed as u32),
    }
}

/// What a read answers of a record of a collection.
pub(crate) fn row_answer(
    alloc: Global,
    rules: TableRules,
    reading: u64,
    row: &Record,
    collection: &Collection,
) -> Result<TableAnswer, NoMemory>
    requires { IsReading reading }
    ensures { IfOk result (λ a. a ≡ machine.row_answer rules reading row.now collection.now) }
{
    let text = row.made.text.duplicate(alloc)?;
    Ok(TableAnswer::Row {
        number: row.collection,
        version: row.version,
        expiry: expiry_of(rules, reading, collection),
        want: row.made.want,
        trash_at: collection.trash_at,
        text,
    })
}

/// The rows of all records above a revision, as they stand.
pub(crate) fn rows_above(
    alloc: Global,
    records: &[Record],
    after: u64,
) -> Result<Vec<ScanRow>, NoMemory>
    ensures { IfOk result (λ rows. rows.items ≡ machine.rows_above after records.now) }
{
    let mut rows = Vec::new(alloc);
    for row in records {
        if row.revision > after {
            let next = row_of(alloc, row)?;
            if rows.push(next).is_err() {
                return Err(NoMemory);
            }
        }
    }
    Ok(rows)
}
