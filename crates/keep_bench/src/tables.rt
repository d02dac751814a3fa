// The table of collections: so many of them as the input says, and each kind of call once for each, timed.
ghost use Rattle.std.specs.Prelude.{◌≤◌, ◌*◌, ◌^◌, ◌<◌};

use anyhow::Result;
use keep_event::{NewRecord, TableAnswer, TableRules};
use keep_spec::{Bytes, Digest, Items, NoMemory, Portable, TokenId};
use keep_table::Table;
use std::alloc::Global;
use std::str::from_utf8;
use std::time::Instant;

const RULES: TableRules = TableRules {
    tokens: 1,
    versions: 4,
    ttl: 1_209_600,
    skew: 5,
};

// The same for a collection of many versions.
const MANY_VERSIONS: TableRules = TableRules {
    tokens: 1,
    versions: u32::MAX,
    ttl: 1_209_600,
    skew: 5,
};

// How many updates of one collection are timed.
const UPDATES: u64 = 1000;

// The system's token, so that each collection can be asked by it.
const TOKEN: TokenId = TokenId { number: 0 };

const READING: u64 = 1_700_000_000_000_000_000;

// After all that was superseded or went to the trash at the reading.
const LATER: u64 = 1_800_000_000_000_000_000;

#[derive(Clone, Copy)]
enum Kind {
    Save,
    Update,
    Read,
    ReadVersion,
    Wanted,
    Trash,
    Restore,
}

// The 16 bytes of a number's own digest, scattered.
fn digest_of(number: u64) -> Digest {
    let mixed = number.wrapping_mul(0x9e37_79b9_7f4a_7c15) ^ (number >> 7);
    let mut bytes = [0; 16];
    bytes[..8].copy_from_slice(&mixed.to_be_bytes());
    bytes[8..].copy_from_slice(&number.to_be_bytes());
    Digest::of_md5(bytes)
}

// What a save or an update makes a record of: one block, named by the number.
fn made(alloc: Global, number: u64, want: u8) -> std::result::Result<NewRecord, NoMemory> {
    let digest = digest_of(number);
    let Ok(text) = Vec::from_slice(alloc, b". 00000000000000000000000000000000+3 0:3:foo\n") else {
        return Err(NoMemory);
    };
    let Ok(named) = Vec::from_slice(alloc, &[digest]) else {
        return Err(NoMemory);
    };
    let portable = Portable { digest, size: 45 };
    Ok(NewRecord {
        text: Bytes::of(text),
        named: Items::of(named),
        portable,
        want,
    })
}

// One call about the collection with a number; whether it was done.
fn is_done(alloc: Global, table: &mut Table, kind: Kind, number: u64) -> bool {
    if !table.has_room() {
        return false;
    }
    match kind {
        Kind::Save | Kind::Update => is_stored(alloc, table, kind, number),
        Kind::Read => matches!(
            table.read(READING, TOKEN, number, None),
            Ok(TableAnswer::Row { .. })
        ),
        // the second version is the current one
        Kind::ReadVersion => matches!(
            table.read(READING, TOKEN, number, Some(2)),
            Ok(TableAnswer::Row { .. })
        ),
        Kind::Wanted => table.wanted(&digest_of(number)) == 2,
        Kind::Trash => matches!(
            table.set_trash(READING, TOKEN, number, READING, READING),
            Ok(TableAnswer::TrashSet { .. })
        ),
        Kind::Restore => matches!(
            table.restore(READING, TOKEN, number),
            Ok(TableAnswer::Restored)
        ),
    }
}

fn is_stored(alloc: Global, table: &mut Table, kind: Kind, number: u64) -> bool {
    if !table.has_room() {
        return false;
    }
    match kind {
        Kind::Save => {
            let Ok(record) = made(alloc, number, 1) else {
                return false;
            };
            matches!(table.create(TOKEN, record), Ok(TableAnswer::Saved { .. }))
        }
        _ => {
            let Ok(record) = made(alloc, number, 2) else {
                return false;
            };
            matches!(
                table.update(READING, TOKEN, number, record, false),
                Ok(TableAnswer::Updated { .. })
            )
        }
    }
}

// One call of a kind for each collection, in a scattered order but for saves; prints how many were done, and the nanoseconds of each.
fn time_calls(
    rt: &HostRuntime,
    table: &mut Table,
    name: &str,
    kind: Kind,
    count: u64,
) -> Result<()> {
    let mut done: u64 = 0;
    let start = Instant::now(rt)?;
    for index in 0..count {
        let number = match kind {
            Kind::Save => index,
            _ => index.wrapping_mul(7919).checked_rem(count).unwrap_or(0),
        };
        if is_done(rt.alloc(), table, kind, number.saturating_add(1)) {
            done = done.saturating_add(1);
        }
    }
    let nanos = start
        .elapsed(rt)?
        .as_nanos()
        .checked_div(u128::from(count))
        .unwrap_or(0);
    println!(rt; "{name} {done} {nanos}")?;
    Ok(())
}

fn time_sweep(rt: &HostRuntime, table: &mut Table, name: &str) -> Result<()> {
    let start = Instant::now(rt)?;
    let answer = table.sweep(LATER);
    let nanos = start.elapsed(rt)?.as_nanos();
    match answer {
        Ok(
            TableAnswer::Swept {
                versions,
                collections,
            },
        ) => print_each(rt, name, versions.saturating_add(collections), nanos),
        _ => Ok(println!(rt; "{name} no memory")?),
    }
}

// The number that the input is, or 0.
fn count_of(input: &[u8]) -> u64 {
    let text = from_utf8(input).unwrap_or("");
    text.trim().parse::<u64>().unwrap_or(0)
}

/// Times each kind of call on a table with so many collections, each of two records.
pub fn time_table(rt: &HostRuntime, input: &[u8]) -> Result<()> {
    let mut table = Table::new(rt.alloc(), RULES);
    let count = count_of(input);
    time_calls_of_users(rt, &mut table, count)?;
    time_sweeps(rt, &mut table, count)
}

fn time_calls_of_users(rt: &HostRuntime, table: &mut Table, count: u64) -> Result<()> {
    time_calls(rt, table, "save", Kind::Save, count)?;
    time_calls(rt, table, "update", Kind::Update, count)?;
    time_calls(rt, table, "read", Kind::Read, count)?;
    time_calls(rt, table, "read-version", Kind::ReadVersion, count)?;
    time_calls(rt, table, "wanted", Kind::Wanted, count)?;
    time_calls(rt, table, "trash", Kind::Trash, count)?;
    time_calls(rt, table, "restore", Kind::Restore, count)
}

fn time_sweeps(rt: &HostRuntime, table: &mut Table, count: u64) -> Result<()> {
    time_sweep(rt, table, "sweep-versions")?;
    time_calls(rt, table, "trash-again", Kind::Trash, count)?;
    time_sweep(rt, table, "sweep-collections")
}

// One update of the first collection; whether it was done.
fn is_updated(alloc: Global, table: &mut Table, is_late: bool, preserve: bool) -> bool {
    if !table.has_room() {
        return false;
    }
    let Ok(record) = made(alloc, 1, 2) else {
        return false;
    };
    let reading = if is_late { LATER } else { READING };
    matches!(
        table.update(reading, TOKEN, 1, record, preserve),
        Ok(TableAnswer::Updated { .. })
    )
}

// So many updates of the first collection; how many were done.
fn updates(alloc: Global, table: &mut Table, count: u64, preserve: bool) -> u64 {
    let mut done: u64 = 0;
    for _ in 0..count {
        if is_updated(alloc, table, false, preserve) {
            done = done.saturating_add(1);
        }
    }
    done
}

// Prints how many calls were done, and the nanoseconds of each.
fn print_each(rt: &HostRuntime, name: &str, done: u64, nanos: u128) -> Result<()> {
    let each = nanos.checked_div(u128::from(done)).unwrap_or(0);
    println!(rt; "{name} {done} {each}")?;
    Ok(())
}

// Updates of a collection that has so many versions already, none of them due.
fn time_updates(
    rt: &HostRuntime,
    table: &mut Table,
    name: &str,
    count: u64,
    preserve: bool,
) -> Result<()> {
    let _ = is_done(rt.alloc(), table, Kind::Save, 1);
    let _ = updates(rt.alloc(), table, count, preserve);
    let start = Instant::now(rt)?;
    let done = updates(rt.alloc(), table, UPDATES, preserve);
    print_each(rt, name, done, start.elapsed(rt)?.as_nanos())
}

// Reads of the newest version but the current one.
fn time_reads(rt: &HostRuntime, table: &mut Table, version: u64) -> Result<()> {
    let start = Instant::now(rt)?;
    let mut done: u64 = 0;
    for _ in 0..UPDATES {
        if matches!(
            table.read(READING, TOKEN, 1, Some(version)),
            Ok(TableAnswer::Row { .. })
        ) {
            done = done.saturating_add(1);
        }
    }
    print_each(rt, "read-version", done, start.elapsed(rt)?.as_nanos())
}

// One update that drops all versions that were kept; the nanoseconds of each that goes.
fn time_drop(rt: &HostRuntime, table: &mut Table, count: u64) -> Result<()> {
    let start = Instant::now(rt)?;
    let done = is_updated(rt.alloc(), table, true, false);
    let nanos = start.elapsed(rt)?.as_nanos();
    let dropped = if done {
        count.saturating_add(UPDATES)
    } else {
        0
    };
    print_each(rt, "drop-due", dropped, nanos)
}

/// Times updates of one collection that has as many versions as the input says: preserved ones, and then those that are kept until a reading; reads of the newest that is preserved; and one update that drops all that are kept.
pub fn time_versions(rt: &HostRuntime, input: &[u8]) -> Result<()> {
    let count = count_of(input);
    time_preserved(rt, count)?;
    time_kept(rt, count)
}

fn time_preserved(rt: &HostRuntime, count: u64) -> Result<()> {
    let mut table = Table::new(rt.alloc(), MANY_VERSIONS);
    time_updates(rt, &mut table, "preserved", count, true)?;
    time_reads(rt, &mut table, count)
}

fn time_kept(rt: &HostRuntime, count: u64) -> Result<()> {
    let mut table = Table::new(rt.alloc(), MANY_VERSIONS);
    time_updates(rt, &mut table, "kept", count, false)?;
    time_drop(rt, &mut table, count)
}
